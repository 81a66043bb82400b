ghost use Rattle.std.specs.Prelude.{◌≡◌, ◌&&◌, ◌+◌, ◌-◌, false, is_none, nat_le, length, ◌≤◌, Some, IfOk, OnOk};
ghost use Rattle.std.specs.FinMap as map;
ghost use Rattle.out_update.specs.Spelling.{FitsUpdate};
ghost use Rattle.out_update.specs.Values.{fid_value};
ghost use Rattle.object_store.specs.Bodies.{layout_at};
ghost use Rattle.object_store.specs.Meaning.{param, is_file, is_directory, attributes_at, with_body, with_attributes, with_layout, with_entry, with_parent, with_new_body, changed};

use crate::body::ObjectKind;
use crate::object::Stored;
use crate::parsing::{attributes_at, fid_at, layout_at};
use fid_space::Bytes;
use out_update::{Kind, Update};
use std::alloc::{AllocError as Memory, Global};
use tree_model::Name;

/// A parameter of an update; no bytes where it has none.
pub(crate) fn parameter(update: &Update, i: usize) -> &[u8]
    ensures { result.now ≡ param update.now i }
{
    match update.params.get(i) {
        Some(param) => param.bytes(),
        None => &[],
    }
}

/// The name that the bytes are.
pub(crate) fn name_of(alloc: Global, bytes: &[u8]) -> Result<Name, Memory>
    ensures { IfOk result (λ n. n ≡ bytes.now) }
{
    match Name::new(alloc, bytes) {
        Ok(name) => Ok(name),
        Err(_) => Err(Memory),
    }
}

impl Stored {
    /// Whether it is a file that has no second link.
    fn is_last_link(&self) -> bool
        ensures { result ≡ (is_file self.now.body.kind && nat_le self.now.body.links 1) }
    {
        let body = self.body();
        match body.kind {
            ObjectKind::File => body.links <= 1,
            ObjectKind::Directory | ObjectKind::Stripe => false,
        }
    }

    fn add_link(&mut self)
        ensures { self.new ≡ with_body self.old (record self.old.body { links = self.old.body.links + 1 }) }
    {
        let mut body = *self.body();
        body.links += 1;
        self.set_body(body);
    }

    fn take_link(&mut self)
        ensures { self.new ≡ with_body self.old (record self.old.body { links = self.old.body.links - 1 }) }
    {
        let mut body = *self.body();
        body.links = body.links.saturating_sub(1);
        self.set_body(body);
    }

    /// Sets mode, owner and group.
    fn set_access(&mut self, bytes: &[u8])
        ensures { self.new ≡ with_attributes self.old (attributes_at bytes.now) }
    {
        if let Ok((mode, uid, gid)) = attributes_at(bytes) {
            let mut body = *self.body();
            body.mode = mode;
            body.uid = uid;
            body.gid = gid;
            self.set_body(body);
        }
    }

    fn set_layout(&mut self, bytes: &[u8])
        ensures { self.new ≡ with_layout self.old (layout_at bytes.now) }
    {
        if let Ok((layout, _)) = layout_at(bytes) {
            let mut body = *self.body();
            body.layout = layout;
            self.set_body(body);
        }
    }

    fn set_parent(&mut self, bytes: &[u8])
        ensures { self.new ≡ with_parent self.old (fid_value bytes.now) }
    {
        let mut body = *self.body();
        match (body.kind, fid_at(bytes)) {
            (ObjectKind::Directory, Ok((fid, _))) => {
                body.fid = fid;
                self.set_body(body);
            }
            _ => {}
        }
    }

    fn put_entry(&mut self, alloc: Global, name: &[u8], bytes: &[u8]) -> Result<(), Memory>
        ensures { OnOk result (self.new ≡ with_entry self.old name.now (fid_value bytes.now)) }
    {
        match fid_at(bytes) {
            Ok((fid, _)) => self.set_entry(name_of(alloc, name)?, fid),
            Err(_) => Ok(()),
        }
    }

    fn put_attribute(&mut self, alloc: Global, name: &[u8], bytes: &[u8]) -> Result<(), Memory>
        requires { length bytes.now ≤ 4096 }
        ensures { OnOk result (self.new ≡ record self.old { attributes = map.insert self.old.attributes name.now bytes.now }) }
    {
        let name = name_of(alloc, name)?;
        let mut value = Bytes::new(alloc);
        value.append(bytes)?;
        self.set_attribute(name, value)
    }

    fn take_entry(&mut self, alloc: Global, name: &[u8]) -> Result<(), Memory>
        ensures { OnOk result (self.new ≡ record self.old { entries = map.remove self.old.entries name.now }) }
    {
        let name = name_of(alloc, name)?;
        self.drop_entry(&name);
        Ok(())
    }

    fn take_attribute(&mut self, alloc: Global, name: &[u8]) -> Result<(), Memory>
        ensures { OnOk result (self.new ≡ record self.old { attributes = map.remove self.old.attributes name.now }) }
    {
        let name = name_of(alloc, name)?;
        self.drop_attribute(&name);
        Ok(())
    }

    /// Whether an update other than create takes it away.
    pub(crate) fn is_gone_after(&self, update: &Update) -> bool
        ensures { result ≡ is_none (changed self.now update.now.kind (param update.now 0) (param update.now 1)) }
    {
        match update.kind {
            Kind::Destroy => true,
            Kind::RefDel => self.is_last_link(),
            _ => false,
        }
    }

    /// Changes it as an update says that doesn't take it away. After want of memory it is some object.
    pub(crate) fn change(&mut self, alloc: Global, update: &Update) -> Result<(), Memory>
        requires fits { FitsUpdate update.now }
        requires stays { is_none (changed self.old update.now.kind (param update.now 0) (param update.now 1)) ≡ false }
        ensures { OnOk result (changed self.old update.now.kind (param update.now 0) (param update.now 1) ≡ Some self.new) }
    {
        let first = parameter(update, 0);
        let second = parameter(update, 1);
        match update.kind {
            Kind::XattrSet => self.put_attribute(alloc, first, second),
            Kind::XattrDel => self.take_attribute(alloc, first),
            Kind::Insert => self.put_entry(alloc, first, second),
            Kind::Delete => self.take_entry(alloc, first),
            kind => {
                self.change_body(kind, first);
                Ok(())
            }
        }
    }

    /// Changes its body as an update of this type says.
    fn change_body(&mut self, kind: Kind, first: &[u8])
        ensures { self.new ≡ with_new_body self.old kind first.now }
    {
        match kind {
            Kind::RefAdd => self.add_link(),
            Kind::RefDel => self.take_link(),
            Kind::AttrSet => self.set_access(first),
            Kind::LayoutSet => self.set_layout(first),
            Kind::ParentSet => self.set_parent(first),
            _ => {}
        }
    }
}
