ghost use Rattle.std.specs.Prelude.{◌≡◌, ◌<◌, ◌∷◌, ◌++◌, false, IfOk, OnOk, None};
ghost use Rattle.std.specs.FinMap as map;
ghost use Rattle.tree_model.specs.Tree.{named};
ghost use Rattle.tree_model.specs.Changes.{Change, changed, changed_all};
ghost use Rattle.tree_model.specs.Step.{op_fault, op_changes, op_reply, xattr_reply, attr_reply, fid_reply, released, unlinked, renamed, replaced, moved_node, same_node};
ghost use Rattle.tree_model.specs.declared.op.Op.TheVariants as ops;

use crate::errno::Errno;
use crate::name::Name;
use crate::node::{Node, Xattrs};
use crate::op::Op;
use crate::plain_tree::{PlainTree, directory_in};
use crate::reply::Reply;
use fid_space::{Bytes, Fid};
use std::alloc::AllocError as Memory;

impl PlainTree {
    /// What an operation answers where no check fails.
    pub(crate) fn answer(&self, op: &Op) -> Result<Reply, Memory>
        ensures { IfOk result (λ r. r ≡ op_reply self.now.tree op.now) }
    {
        match op {
            Op::Lookup { parent, name } => Ok(self.fid_reply(*parent, name)),
            Op::GetAttr { fid } => Ok(self.attr_reply(*fid)),
            Op::GetXattr { fid, name } => self.xattr_reply(*fid, name),
            _ => Ok(Reply::Ok),
        }
    }

    fn fid_reply(&self, parent: Fid, name: &Name) -> Reply
        ensures { result ≡ fid_reply (named self.now.tree parent name.now) }
    {
        match self.named(parent, name) {
            Some(fid) => Reply::Fid(fid),
            None => Reply::Err(Errno::ENOENT),
        }
    }

    fn attr_reply(&self, fid: Fid) -> Reply
        ensures { result ≡ attr_reply (map.get self.now.tree.nodes fid) }
    {
        match self.node(fid) {
            Some(node) => Reply::Attr {
                dir: node.dir,
                mode: node.mode,
                uid: node.uid,
                gid: node.gid,
                links: node.links,
            },
            None => Reply::Err(Errno::ENOENT),
        }
    }

    fn xattr_reply(&self, fid: Fid, name: &Name) -> Result<Reply, Memory>
        ensures { IfOk result (λ r. r ≡ xattr_reply (map.get self.now.tree.nodes fid) name.now) }
    {
        let node = match self.node(fid) {
            Some(node) => node,
            None => return Ok(Reply::Err(Errno::ENOENT)),
        };
        match node.xattrs.get(name) {
            Some(value) => {
                let mut bytes = Bytes::new(self.alloc());
                bytes.append(value.bytes())?;
                Ok(Reply::Value(bytes))
            }
            None => Ok(Reply::Err(Errno::ENODATA)),
        }
    }

    /// Makes the change of an operation whose checks are met. After want of memory it is some tree of the
    /// same cluster.
    pub(crate) fn change(&mut self, op: &Op) -> Result<(), Memory>
        requires { op_fault self.old.targets self.old.tree op.now ≡ None }
        ensures ok { OnOk result (self.new ≡ record { targets = self.old.targets; tree = changed_all self.old.tree (op_changes self.old.tree op.now) }) }
        ensures targets { self.new.targets ≡ self.old.targets }
    {
        match op {
            Op::Create { parent, name, fid } => self.create(*parent, name, *fid),
            Op::Mkdir {
                parent,
                name,
                fid,
                ..
            } => self.mkdir(*parent, name, *fid),
            Op::Link { parent, name, fid } => self.link(*parent, name, *fid),
            Op::Unlink { parent, name } | Op::Rmdir { parent, name } => {
                self.unlink(*parent, name);
                Ok(())
            }
            Op::Rename {
                parent,
                name,
                to_parent,
                to_name,
            } => self.rename(*parent, name, *to_parent, to_name),
            Op::SetAttr {
                fid,
                mode,
                uid,
                gid,
            } => {
                self.set_attributes(*fid, *mode, *uid, *gid);
                Ok(())
            }
            Op::SetXattr { fid, name, value } => self.set_xattr(*fid, name, value),
            Op::DelXattr { fid, name } => {
                self.drop_xattr(*fid, name);
                Ok(())
            }
            Op::Migrate { .. } | Op::Lookup { .. } | Op::GetAttr { .. } | Op::GetXattr { .. } => {
                Ok(())
            }
        }
    }

    fn create(&mut self, parent: Fid, name: &Name, fid: Fid) -> Result<(), Memory>
        ensures ok { OnOk result (self.new ≡ record { targets = self.old.targets; tree = changed_all self.old.tree (op_changes self.old.tree (ops.Create parent name.now fid)) }) }
        ensures targets { self.new.targets ≡ self.old.targets }
    {
        let name = name.copy(self.alloc())?;
        let file = Node {
            dir: false,
            mode: 0o644,
            uid: 0,
            gid: 0,
            links: 1,
            parent: Fid {
                seq: 0,
                oid: 0,
                ver: 0,
            },
            xattrs: Xattrs::new(self.alloc()),
        };
        self.put_node(fid, file)?;
        self.put_name(parent, name, fid)?;
        Ok(())
    }

    fn mkdir(&mut self, parent: Fid, name: &Name, fid: Fid) -> Result<(), Memory>
        ensures ok { OnOk result (self.new ≡ record { targets = self.old.targets; tree = changed (changed self.old.tree (Change.PutNode fid (Rattle.tree_model.specs.Tree.directory_in parent))) (Change.PutName parent name.now fid) }) }
        ensures targets { self.new.targets ≡ self.old.targets }
    {
        let name = name.copy(self.alloc())?;
        let directory = directory_in(self.alloc(), parent);
        self.put_node(fid, directory)?;
        self.put_name(parent, name, fid)?;
        Ok(())
    }

    fn link(&mut self, parent: Fid, name: &Name, fid: Fid) -> Result<(), Memory>
        requires { op_fault self.old.targets self.old.tree (ops.Link parent name.now fid) ≡ None }
        ensures ok { OnOk result (self.new ≡ record { targets = self.old.targets; tree = changed_all self.old.tree (op_changes self.old.tree (ops.Link parent name.now fid)) }) }
        ensures targets { self.new.targets ≡ self.old.targets }
    {
        let links = match self.node(fid) {
            Some(node) => node.links,
            None => 0,
        };
        let name = name.copy(self.alloc())?;
        self.put_name(parent, name, fid)?;
        self.set_links(fid, links + 1);
        Ok(())
    }

    /// Takes a name away, and a link of what it stood for.
    fn unlink(&mut self, parent: Fid, name: &Name)
        ensures { self.new ≡ record { targets = self.old.targets; tree = changed_all self.old.tree (unlinked self.old.tree parent name.now (named self.old.tree parent name.now)) } }
    {
        if let Some(child) = self.named(parent, name) {
            self.drop_name(parent, name);
            self.release(child);
        }
    }

    fn rename(
        &mut self,
        parent: Fid,
        name: &Name,
        to_parent: Fid,
        to_name: &Name,
    ) -> Result<(), Memory>
        ensures ok { OnOk result (self.new ≡ record { targets = self.old.targets; tree = changed_all self.old.tree (op_changes self.old.tree (ops.Rename parent name.now to_parent to_name.now)) }) }
        ensures targets { self.new.targets ≡ self.old.targets }
    {
        if parent == to_parent && name == to_name {
            return Ok(());
        }
        let moved = match self.named(parent, name) {
            Some(moved) => moved,
            None => return Ok(()),
        };
        let old = self.named(to_parent, to_name);
        if is_same(moved, old) {
            return Ok(());
        }
        self.move_name(parent, name, to_parent, to_name, moved, old)
    }

    /// Takes a name away and makes another one stand for its node, in the place of what that stood for.
    fn move_name(
        &mut self,
        parent: Fid,
        name: &Name,
        to_parent: Fid,
        to_name: &Name,
        moved: Fid,
        old: Option<Fid>,
    ) -> Result<(), Memory>
        requires { same_node moved old ≡ false }
        ensures ok { OnOk result (self.new ≡ record {
          targets = self.old.targets;
          tree = changed_all self.old.tree (Change.DropName parent name.now
              ∷ (replaced self.old.tree old ++ (Change.PutName to_parent to_name.now moved ∷ moved_node parent to_parent moved (map.get self.old.tree.nodes moved))));
        }) }
        ensures targets { self.new.targets ≡ self.old.targets }
    {
        let to_name = to_name.copy(self.alloc())?;
        self.drop_name(parent, name);
        self.replace(old);
        self.put_name(to_parent, to_name, moved)?;
        self.move_node(parent, to_parent, moved);
        Ok(())
    }

    /// Takes a link of the node away that a name stood for.
    fn replace(&mut self, old: Option<Fid>)
        ensures { self.new ≡ record { targets = self.old.targets; tree = changed_all self.old.tree (replaced self.old.tree old) } }
    {
        if let Some(old) = old {
            self.release(old);
        }
    }

    /// Gives a directory its new parent.
    fn move_node(&mut self, parent: Fid, to_parent: Fid, fid: Fid)
        ensures { self.new ≡ record { targets = self.old.targets; tree = changed_all self.old.tree (moved_node parent to_parent fid (map.get self.old.tree.nodes fid)) } }
    {
        if self.is_dir(fid) && parent != to_parent {
            self.set_parent(fid, to_parent);
        }
    }

    /// Takes a link of a node away, and the node with its last one.
    fn release(&mut self, fid: Fid)
        ensures { self.new ≡ record { targets = self.old.targets; tree = changed_all self.old.tree (released fid (map.get self.old.tree.nodes fid)) } }
    {
        match self.node(fid) {
            Some(node) if node.dir || node.links <= 1 => self.drop_node(fid),
            Some(node) => {
                let links = node.links - 1;
                self.set_links(fid, links);
            }
            None => {}
        }
    }

    fn set_xattr(&mut self, fid: Fid, name: &Name, value: &Bytes) -> Result<(), Memory>
        ensures ok { OnOk result (self.new ≡ record { targets = self.old.targets; tree = changed_all self.old.tree (op_changes self.old.tree (ops.SetXattr fid name.now value.now)) }) }
        ensures targets { self.new.targets ≡ self.old.targets }
    {
        let name = name.copy(self.alloc())?;
        let mut bytes = Bytes::new(self.alloc());
        bytes.append(value.bytes())?;
        self.put_xattr(fid, name, bytes)
    }
}

/// Whether a name stands for this node.
fn is_same(moved: Fid, old: Option<Fid>) -> bool
    ensures { result ≡ same_node moved old }
{
    match old {
        Some(old) => moved == old,
        None => false,
    }
}
