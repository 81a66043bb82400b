ghost use Rattle.std.specs.Prelude.{◌≡◌, ◌++◌, ◌∷◌, [], IfOk, OnOk};
ghost use Rattle.out_update.specs.Spelling.{fid_bytes};
ghost use Rattle.object_store.specs.Bodies.{body_bytes};
ghost use Rattle.striped_dir.specs.Parts.{destroy_of};
ghost use Rattle.plan_base.specs.Updates.{on_target, create_update, insert_update, delete_update, xattr_set_update, ref_del_update, ref_add_update, xattr_del_update, attr_set_update, parent_set_update, layout_set_update};

use fid_space::{Bytes, Fid};
use object_store::Body;
use out_update::{Kind, Params, Parts, Update, UpdateRequest};
use std::alloc::{AllocError as Memory, Global};
use striped_dir::Layout;
use tree_model::Name;

/// Makes the updates of one batch.
#[derive(Clone, Copy)]
pub struct Maker {
    /// Where it takes memory.
    pub alloc: Global,
    /// The batch of each update that it makes.
    pub batch: u64,
}

/// A copy of bytes.
pub fn copied(alloc: Global, bytes: &[u8]) -> Result<Bytes, Memory>
    ensures { IfOk result (λ b. b ≡ bytes.now) }
{
    let mut copy = Bytes::new(alloc);
    copy.append(bytes)?;
    Ok(copy)
}

#[tactic(auto, unfolding(byte_grammar::specs::Numbers::word))]
fn fid_param(alloc: Global, fid: Fid) -> Result<Bytes, Memory>
    ensures { IfOk result (λ b. b ≡ fid_bytes fid) }
{
    let mut bytes = Bytes::new(alloc);
    bytes.append(&fid.seq.to_le_bytes())?;
    bytes.append(&fid.oid.to_le_bytes())?;
    bytes.append(&fid.ver.to_le_bytes())?;
    Ok(bytes)
}

/// The 48 bytes of a body.
fn body_param(alloc: Global, body: &Body) -> Result<Bytes, Memory>
    ensures { IfOk result (λ b. b ≡ body_bytes body.now) }
{
    copied(alloc, &body.encode())
}

fn one(alloc: Global, first: Bytes) -> Result<Params, Memory>
    ensures { IfOk result (λ p. p ≡ first ∷ []) }
{
    let mut params = Params::new(alloc);
    params.push(first)?;
    Ok(params)
}

fn two(alloc: Global, first: Bytes, second: Bytes) -> Result<Params, Memory>
    ensures { IfOk result (λ p. p ≡ first ∷ second ∷ []) }
{
    let mut params = one(alloc, first)?;
    params.push(second)?;
    Ok(params)
}

impl Maker {
    fn update(self, kind: Kind, fid: Fid, params: Params) -> Update
        ensures { result ≡ record { kind = kind; batch = self.batch; fid = fid; params = params } }
    {
        Update {
            kind,
            batch: self.batch,
            fid,
            params,
        }
    }

    /// Makes an object with this body.
    pub fn create(self, fid: Fid, body: &Body) -> Result<Update, Memory>
        ensures { IfOk result (λ u. u ≡ create_update self.batch fid body.now) }
    {
        Ok(self.update(
            Kind::Create,
            fid,
            one(self.alloc, body_param(self.alloc, body)?)?,
        ))
    }

    /// Removes an object.
    pub fn destroy(self, fid: Fid) -> Update
        ensures { result ≡ destroy_of self.batch fid }
    {
        self.update(Kind::Destroy, fid, Params::new(self.alloc))
    }

    /// One link more.
    pub fn add_link(self, fid: Fid) -> Update
        ensures { result ≡ ref_add_update self.batch fid }
    {
        self.update(Kind::RefAdd, fid, Params::new(self.alloc))
    }

    /// Removes an extended attribute.
    pub fn take_value(self, fid: Fid, name: &Name) -> Result<Update, Memory>
        ensures { IfOk result (λ u. u ≡ xattr_del_update self.batch fid name.now) }
    {
        let params = one(self.alloc, copied(self.alloc, name.bytes())?)?;
        Ok(self.update(Kind::XattrDel, fid, params))
    }

    /// Sets the mode, the owner and the group.
    #[tactic(auto, unfolding(byte_grammar::specs::Numbers::word))]
    pub fn set_access(self, fid: Fid, mode: u16, uid: u32, gid: u32) -> Result<Update, Memory>
        ensures { IfOk result (λ u. u ≡ attr_set_update self.batch fid mode uid gid) }
    {
        let mut bytes = Bytes::new(self.alloc);
        bytes.append(&u32::from(mode).to_le_bytes())?;
        bytes.append(&uid.to_le_bytes())?;
        bytes.append(&gid.to_le_bytes())?;
        Ok(self.update(Kind::AttrSet, fid, one(self.alloc, bytes)?))
    }

    /// One link less.
    pub fn take_link(self, fid: Fid) -> Update
        ensures { result ≡ ref_del_update self.batch fid }
    {
        self.update(Kind::RefDel, fid, Params::new(self.alloc))
    }

    /// Sets the parent of a directory.
    pub fn set_parent(self, fid: Fid, parent: Fid) -> Result<Update, Memory>
        ensures { IfOk result (λ u. u ≡ parent_set_update self.batch fid parent) }
    {
        Ok(self.update(
            Kind::ParentSet,
            fid,
            one(self.alloc, fid_param(self.alloc, parent)?)?,
        ))
    }

    /// Sets the layout of a directory.
    pub fn set_layout(self, fid: Fid, layout: Layout) -> Result<Update, Memory>
        ensures { IfOk result (λ u. u ≡ layout_set_update self.batch fid layout) }
    {
        let params = one(self.alloc, copied(self.alloc, &layout.encode())?)?;
        Ok(self.update(Kind::LayoutSet, fid, params))
    }

    /// The name of an object stands for the child.
    pub fn insert(self, object: Fid, name: &Name, child: Fid) -> Result<Update, Memory>
        ensures { IfOk result (λ u. u ≡ insert_update self.batch object name.now child) }
    {
        let params = two(
            self.alloc,
            copied(self.alloc, name.bytes())?,
            fid_param(self.alloc, child)?,
        )?;
        Ok(self.update(Kind::Insert, object, params))
    }

    /// The name of an object goes.
    pub fn delete(self, object: Fid, name: &Name) -> Result<Update, Memory>
        ensures { IfOk result (λ u. u ≡ delete_update self.batch object name.now) }
    {
        let params = one(self.alloc, copied(self.alloc, name.bytes())?)?;
        Ok(self.update(Kind::Delete, object, params))
    }

    /// Sets an extended attribute.
    pub fn set_value(self, fid: Fid, name: &Name, value: &Bytes) -> Result<Update, Memory>
        ensures { IfOk result (λ u. u ≡ xattr_set_update self.batch fid name.now value.now) }
    {
        let params = two(
            self.alloc,
            copied(self.alloc, name.bytes())?,
            copied(self.alloc, value.bytes())?,
        )?;
        Ok(self.update(Kind::XattrSet, fid, params))
    }

    /// Adds an update on its target.
    pub fn put(self, placed: &mut Parts, target: u8, update: Update) -> Result<(), Memory>
        ensures { OnOk result (placed.new ≡ placed.old ++ on_target target update ∷ []) }
    {
        let mut request = UpdateRequest::new(self.alloc);
        request.push(update)?;
        placed.push((target, request))?;
        Ok(())
    }

    /// Adds a copy of other pairs.
    pub fn put_all(self, placed: &mut Parts, more: &Parts) -> Result<(), Memory>
        ensures { OnOk result (placed.new ≡ placed.old ++ more.now) }
    {
        for (target, request) in more.items() {
            placed.push((*target, request.copy(self.alloc)?))?;
        }
        Ok(())
    }
}
