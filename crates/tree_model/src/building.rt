ghost use Rattle.std.specs.Prelude.{◌≡◌, OnOk};
ghost use Rattle.std.specs.FinMap as map;
ghost use Rattle.tree_model.specs.Changes.{Change, changed, changed_all};
ghost use Rattle.tree_model.specs.Step.{changed_node};

use crate::name::Name;
use crate::node::Node;
use crate::plain_tree::PlainTree;
use fid_space::{Bytes, Fid};
use std::alloc::AllocError as Memory;

impl PlainTree {
    /// Puts a node, with the attributes that it has, under its FID; it takes the place of a node that is
    /// there. No entry comes with it. After want of memory it is some tree of the same cluster.
    pub fn add_node(&mut self, fid: Fid, node: Node) -> Result<(), Memory>
        ensures ok { OnOk result (self.new ≡ record { targets = self.old.targets; tree = changed self.old.tree (Change.PutNode fid node) }) }
        ensures targets { self.new.targets ≡ self.old.targets }
    {
        self.put_node(fid, node)
    }

    /// Puts an entry: from now on the name stands for the child in the directory, whatever it stood for.
    /// Neither the directory nor the child need be there, and no count of links changes. After want of
    /// memory it is some tree of the same cluster.
    pub fn add_entry(&mut self, directory: Fid, name: &Name, child: Fid) -> Result<(), Memory>
        ensures ok { OnOk result (self.new ≡ record { targets = self.old.targets; tree = changed self.old.tree (Change.PutName directory name.now child) }) }
        ensures targets { self.new.targets ≡ self.old.targets }
    {
        let name = name.copy(self.alloc())?;
        self.put_name(directory, name, child)
    }

    /// Sets an extended attribute of the node with this FID, in the place of one with the name. Where there
    /// is no such node, nothing changes, and the answer is Ok. After want of memory it is some tree of the
    /// same cluster.
    pub fn add_attribute(&mut self, fid: Fid, name: &Name, value: &[u8]) -> Result<(), Memory>
        ensures ok { OnOk result (self.new ≡ record {
          targets = self.old.targets;
          tree = changed_all self.old.tree
              (changed_node fid (map.get self.old.tree.nodes fid) (λ n. record n { xattrs = map.insert n.xattrs name.now value.now }));
        }) }
        ensures targets { self.new.targets ≡ self.old.targets }
    {
        let name = name.copy(self.alloc())?;
        let mut bytes = Bytes::new(self.alloc());
        bytes.append(value)?;
        self.put_xattr(fid, name, bytes)
    }
}
