ghost use Rattle.std.specs.Prelude.{◌≡◌};
ghost use Rattle.std.specs.Option.{option_map};
ghost use Rattle.std.specs.FinMap as map;
ghost use Rattle.tree_model.specs.Tree.{named};
ghost use Rattle.tree_model.specs.Step.{parent_fault, stripes_fault, layout_fault, is_dir, link_fault, file_fault, directory_fault, empty_fault, found_fault, there_fault, first_fault, loop_fault, walk_fault, kind_fault, over_fault, moved_fault, setxattr_fault, xattr_fault, migrate_fault, create_fault, absent_fault, taken_fault, parent_of, op_fault, same_place};
ghost use Rattle.tree_model.specs.declared.op.Op.TheVariants as ops;

use crate::errno::Errno;
use crate::name::Name;
use crate::op::Op;
use crate::plain_tree::PlainTree;
use fid_space::{Cluster, Fid, is_client};

impl PlainTree {
    /// The first check of an operation that fails.
    pub(crate) fn fault(&self, op: &Op) -> Option<Errno>
        ensures { result ≡ op_fault self.now.targets self.now.tree op.now }
    {
        match op {
            Op::Create { parent, name, fid } => self.create_fault(*parent, name, *fid, None),
            Op::Mkdir {
                parent,
                name,
                fid,
                stripes,
            } => self.create_fault(*parent, name, *fid, *stripes),
            Op::Link { parent, name, fid } => self.link_fault(*parent, name, *fid),
            Op::Unlink { parent, name } => self.unlink_fault(*parent, name),
            Op::Rmdir { parent, name } => self.rmdir_fault(*parent, name),
            Op::Rename {
                parent,
                name,
                to_parent,
                to_name,
            } => self.rename_fault(*parent, name, *to_parent, to_name),
            Op::SetAttr { fid, .. } => self.absent_fault(*fid),
            Op::SetXattr { fid, name, .. } => self.setxattr_fault(*fid, name),
            Op::DelXattr { fid, name } => self.xattr_fault(*fid, name),
            Op::Migrate { dir, count, index } => self.migrate_fault(*dir, *count, *index),
            Op::Lookup { parent, name } => self.lookup_fault(*parent, name),
            Op::GetAttr { fid } => self.absent_fault(*fid),
            Op::GetXattr { fid, name } => self.xattr_fault(*fid, name),
        }
    }

    fn create_fault(
        &self,
        parent: Fid,
        name: &Name,
        fid: Fid,
        stripes: Option<(u32, u32)>,
    ) -> Option<Errno>
        ensures { result ≡ create_fault self.now.targets self.now.tree parent name.now fid stripes }
    {
        if !is_client(self.cluster(), fid) {
            return Some(Errno::EINVAL);
        }
        if let Some(errno) = layout_fault(self.cluster(), stripes) {
            return Some(errno);
        }
        if let Some(errno) = self.parent_fault(parent) {
            return Some(errno);
        }
        if self.named(parent, name).is_some() || self.node(fid).is_some() {
            return Some(Errno::EEXIST);
        }
        None
    }

    fn link_fault(&self, parent: Fid, name: &Name, fid: Fid) -> Option<Errno>
        ensures { result ≡ op_fault self.now.targets self.now.tree (ops.Link parent name.now fid) }
    {
        if let Some(errno) = self.parent_fault(parent) {
            return Some(errno);
        }
        if self.named(parent, name).is_some() {
            return Some(Errno::EEXIST);
        }
        match self.node(fid) {
            None => Some(Errno::ENOENT),
            Some(node) if node.dir => Some(Errno::EPERM),
            Some(node) if node.links >= 65_000 => Some(Errno::EMLINK),
            Some(_) => None,
        }
    }

    fn unlink_fault(&self, parent: Fid, name: &Name) -> Option<Errno>
        ensures { result ≡ op_fault self.now.targets self.now.tree (ops.Unlink parent name.now) }
    {
        if let Some(errno) = self.parent_fault(parent) {
            return Some(errno);
        }
        match self.named(parent, name) {
            None => Some(Errno::ENOENT),
            Some(child) if self.is_dir(child) => Some(Errno::EISDIR),
            Some(_) => None,
        }
    }

    fn rmdir_fault(&self, parent: Fid, name: &Name) -> Option<Errno>
        ensures { result ≡ op_fault self.now.targets self.now.tree (ops.Rmdir parent name.now) }
    {
        if let Some(errno) = self.parent_fault(parent) {
            return Some(errno);
        }
        match self.named(parent, name) {
            None => Some(Errno::ENOENT),
            Some(child) if !self.is_dir(child) => Some(Errno::ENOTDIR),
            Some(child) => self.empty_fault(child),
        }
    }

    fn rename_fault(
        &self,
        parent: Fid,
        name: &Name,
        to_parent: Fid,
        to_name: &Name,
    ) -> Option<Errno>
        ensures { result ≡ op_fault self.now.targets self.now.tree (ops.Rename parent name.now to_parent to_name.now) }
    {
        if let Some(errno) = self.parent_fault(parent) {
            return Some(errno);
        }
        match self.named(parent, name) {
            None => Some(Errno::ENOENT),
            Some(moved) => self.moved_fault(parent, name, to_parent, to_name, moved),
        }
    }

    fn moved_fault(
        &self,
        parent: Fid,
        name: &Name,
        to_parent: Fid,
        to_name: &Name,
        moved: Fid,
    ) -> Option<Errno>
        ensures { result ≡ moved_fault self.now.tree parent name.now to_parent to_name.now moved }
    {
        if let Some(errno) = self.parent_fault(to_parent) {
            return Some(errno);
        }
        if parent == to_parent && name == to_name {
            return None;
        }
        if let Some(errno) = self.loop_fault(parent, to_parent, moved) {
            return Some(errno);
        }
        match self.named(to_parent, to_name) {
            Some(old) => self.over_fault(moved, old),
            None => None,
        }
    }

    fn over_fault(&self, moved: Fid, old: Fid) -> Option<Errno>
        ensures { result ≡ over_fault self.now.tree moved old }
    {
        if moved == old {
            return None;
        }
        match (self.is_dir(moved), self.is_dir(old)) {
            (true, false) => Some(Errno::ENOTDIR),
            (false, true) => Some(Errno::EISDIR),
            (true, true) => self.empty_fault(old),
            (false, false) => None,
        }
    }

    fn loop_fault(&self, parent: Fid, to_parent: Fid, moved: Fid) -> Option<Errno>
        ensures { result ≡ loop_fault self.now.tree parent to_parent moved }
    {
        if self.is_dir(moved) && parent != to_parent {
            self.walk_fault(moved, to_parent)
        } else {
            None
        }
    }

    /// Walks from a directory up to the root, past at most 1,024 directories.
    fn walk_fault(&self, moved: Fid, from: Fid) -> Option<Errno>
        ensures { result ≡ walk_fault self.now.tree moved 1023 from }
    {
        let mut at = from;
        for _asked in 0..1023_usize {
            if at == Fid::ROOT {
                return None;
            }
            if at == moved {
                return Some(Errno::EINVAL);
            }
            at = self.parent_of(at);
        }
        if at == Fid::ROOT {
            return None;
        }
        if at == moved {
            return Some(Errno::EINVAL);
        }
        Some(Errno::ELOOP)
    }

    fn setxattr_fault(&self, fid: Fid, name: &Name) -> Option<Errno>
        ensures { result ≡ setxattr_fault (map.get self.now.tree.nodes fid) name.now }
    {
        match self.node(fid) {
            None => Some(Errno::ENOENT),
            Some(node) if node.xattrs.get(name).is_some() => None,
            Some(node) if node.xattrs.len() >= 16 => Some(Errno::ENOSPC),
            Some(_) => None,
        }
    }

    fn xattr_fault(&self, fid: Fid, name: &Name) -> Option<Errno>
        ensures { result ≡ xattr_fault (map.get self.now.tree.nodes fid) name.now }
    {
        match self.node(fid) {
            None => Some(Errno::ENOENT),
            Some(node) if node.xattrs.get(name).is_some() => None,
            Some(_) => Some(Errno::ENODATA),
        }
    }

    fn migrate_fault(&self, directory: Fid, count: u32, index: u32) -> Option<Errno>
        ensures { result ≡ migrate_fault self.now.targets self.now.tree directory count index }
    {
        if let Some(errno) = self.parent_fault(directory) {
            return Some(errno);
        }
        if directory == Fid::ROOT {
            return Some(Errno::EINVAL);
        }
        if let Some(errno) = stripes_fault(self.cluster(), count, index) {
            return Some(errno);
        }
        if self.entry_count(directory) > 32 {
            return Some(Errno::EFBIG);
        }
        None
    }

    fn lookup_fault(&self, parent: Fid, name: &Name) -> Option<Errno>
        ensures { result ≡ op_fault self.now.targets self.now.tree (ops.Lookup parent name.now) }
    {
        if let Some(errno) = self.parent_fault(parent) {
            return Some(errno);
        }
        match self.named(parent, name) {
            None => Some(Errno::ENOENT),
            Some(_) => None,
        }
    }

    fn absent_fault(&self, fid: Fid) -> Option<Errno>
        ensures { result ≡ absent_fault (map.get self.now.tree.nodes fid) }
    {
        match self.node(fid) {
            None => Some(Errno::ENOENT),
            Some(_) => None,
        }
    }

    fn parent_fault(&self, fid: Fid) -> Option<Errno>
        ensures { result ≡ parent_fault (map.get self.now.tree.nodes fid) }
    {
        match self.node(fid) {
            None => Some(Errno::ENOENT),
            Some(node) if !node.dir => Some(Errno::ENOTDIR),
            Some(_) => None,
        }
    }

    fn empty_fault(&self, directory: Fid) -> Option<Errno>
        ensures { result ≡ empty_fault (Rattle.tree_model.specs.Tree.names_of self.now.tree directory) }
    {
        if self.entry_count(directory) == 0 {
            None
        } else {
            Some(Errno::ENOTEMPTY)
        }
    }

    pub(crate) fn is_dir(&self, fid: Fid) -> bool
        ensures { result ≡ is_dir (map.get self.now.tree.nodes fid) }
    {
        match self.node(fid) {
            Some(node) => node.dir,
            None => false,
        }
    }

    fn parent_of(&self, fid: Fid) -> Fid
        ensures { result ≡ parent_of (map.get self.now.tree.nodes fid) }
    {
        match self.node(fid) {
            Some(node) => node.parent,
            None => Fid::ROOT,
        }
    }
}

fn layout_fault(cluster: Cluster, stripes: Option<(u32, u32)>) -> Option<Errno>
    ensures { result ≡ layout_fault cluster stripes }
{
    match stripes {
        Some((count, index)) => stripes_fault(cluster, count, index),
        None => None,
    }
}

/// The check of a count of stripes and of the target of the first one.
fn stripes_fault(cluster: Cluster, count: u32, index: u32) -> Option<Errno>
    ensures { result ≡ stripes_fault cluster count index }
{
    let targets = u32::from(cluster.targets());
    if count <= targets && index < targets {
        None
    } else {
        Some(Errno::EINVAL)
    }
}
