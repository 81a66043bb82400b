ghost use Rattle.std.specs.Prelude.{◌≡◌, ◌++◌, IfOk, OnOk, OnErr};
ghost use Rattle.std.specs.Option.{option_map};
ghost use Rattle.std.specs.FinMap as map;
ghost use Rattle.tree_model.specs.Tree.{Tree, Grown, bare, base, named, names_of};
ghost use Rattle.fid_space.specs.Fronts.{IsFront};
ghost use Rattle.tree_model.specs.TreeText.{tree_text};
ghost use Rattle.tree_model.specs.Changes.{Change, changed, changed_all, taken_name};
ghost use Rattle.tree_model.specs.Step.{step, changed_node, released};

use crate::directory::Entries;
use crate::name::Name;
use crate::node::{Node, Xattrs};
use crate::op::Op;
use crate::reply::Reply;
use crate::text::{print_entries, print_head, print_nodes, print_xattrs};
use fid_space::{Bytes, Cluster, Fid};
use std::alloc::{AllocError as Memory, Global};
use std::collections::BTreeMap;
use std::marker::Model;

/// A tree of nodes and entries. A directory that has no entry isn't kept among the directories.
#[derive(Drop)]
pub struct PlainTree {
    alloc: Global,
    cluster: Cluster,
    nodes: BTreeMap<Fid, Node>,
    directories: BTreeMap<Fid, Entries>,
}

impl Model for PlainTree {
    ghost use Rattle.tree_model.specs.Tree.{Grown, coded_grown, made};

    ghost Value = { Grown };

    ghost coded = { coded_grown };

    ghost view = { λ t. record { targets = t.cluster; tree = made t.nodes.entries t.directories.entries } };
}

impl PlainTree {
    /// The tree of the root alone: a directory of mode 0755 without entries.
    pub fn new(alloc: Global, cluster: Cluster) -> Result<PlainTree, Memory>
        ensures { IfOk result (λ t. t ≡ record { targets = cluster; tree = base }) }
    {
        let mut nodes = BTreeMap::new(alloc);
        nodes.insert(Fid::ROOT, directory_in(alloc, Fid::ROOT))?;
        Ok(PlainTree {
            alloc,
            cluster,
            nodes,
            directories: BTreeMap::new(alloc),
        })
    }

    /// The tree without a node and without an entry, in which there isn't even the root. One that is kept in
    /// parts is built up from it by `add_node`, `add_entry` and `add_attribute`.
    pub fn empty(alloc: Global, cluster: Cluster) -> PlainTree
        ensures { result ≡ record { targets = cluster; tree = bare } }
    {
        PlainTree {
            alloc,
            cluster,
            nodes: BTreeMap::new(alloc),
            directories: BTreeMap::new(alloc),
        }
    }

    /// The cluster whose places the tree's FIDs have.
    pub fn cluster(&self) -> Cluster
        ensures { result ≡ self.now.targets }
    {
        self.cluster
    }

    /// Makes one step and answers its reply. After want of memory it is some tree of the same cluster.
    pub fn apply(&mut self, op: &Op) -> Result<Reply, Memory>
        ensures reply { IfOk result (λ reply. reply ≡ (step self.old.targets self.old.tree op.now).1) }
        ensures tree { OnOk result (self.new ≡ record { targets = self.old.targets; tree = (step self.old.targets self.old.tree op.now).0 }) }
        ensures targets { self.new.targets ≡ self.old.targets }
    {
        if let Some(errno) = self.fault(op) {
            return Ok(Reply::Err(errno));
        }
        let reply = self.answer(op)?;
        self.change(op)?;
        Ok(reply)
    }

    /// Adds the text: a line with the counts, then nodes by their FIDs, entries by directory and name,
    /// and extended attributes by FID and name. Want of memory leaves a front of it.
    pub fn print(&self, out: &mut Bytes) -> Result<(), Memory>
        ensures ok { OnOk result (out.new ≡ out.old ++ tree_text self.now.tree) }
        ensures front { OnErr result (IsFront out.old out.new (tree_text self.now.tree)) }
    {
        print_head(&self.nodes, &self.directories, out)?;
        print_nodes(&self.nodes, out)?;
        print_entries(&self.directories, out)?;
        print_xattrs(&self.nodes, out)?;
        Ok(())
    }

    pub(crate) fn alloc(&self) -> Global {
        self.alloc
    }

    pub(crate) fn node(&self, fid: Fid) -> Option<&Node>
        ensures { option_map (λ n. n.now) result ≡ map.get self.now.tree.nodes fid }
    {
        self.nodes.get(&fid)
    }

    /// What a name stands for.
    pub(crate) fn named(&self, directory: Fid, name: &Name) -> Option<Fid>
        ensures { result ≡ named self.now.tree directory name.now }
    {
        match self.directories.get(&directory) {
            Some(entries) => entries.get(name),
            None => None,
        }
    }

    /// How many entries a directory has.
    pub(crate) fn entry_count(&self, directory: Fid) -> usize
        ensures { result ≡ map.len (names_of self.now.tree directory) }
    {
        match self.directories.get(&directory) {
            Some(entries) => entries.len(),
            None => 0,
        }
    }

    pub(crate) fn put_node(&mut self, fid: Fid, node: Node) -> Result<(), Memory>
        ensures ok { OnOk result (self.new ≡ record { targets = self.old.targets; tree = changed self.old.tree (Change.PutNode fid node) }) }
        ensures targets { self.new.targets ≡ self.old.targets }
    {
        self.nodes.insert(fid, node)?;
        Ok(())
    }

    pub(crate) fn drop_node(&mut self, fid: Fid)
        ensures { self.new ≡ record { targets = self.old.targets; tree = changed self.old.tree (Change.DropNode fid) } }
    {
        self.nodes.remove(&fid);
    }

    pub(crate) fn put_name(&mut self, directory: Fid, name: Name, fid: Fid) -> Result<(), Memory>
        ensures ok { OnOk result (self.new ≡ record { targets = self.old.targets; tree = changed self.old.tree (Change.PutName directory name fid) }) }
        ensures targets { self.new.targets ≡ self.old.targets }
    {
        if let Some(entries) = self.directories.get_mut(&directory) {
            entries.insert(name, fid)?;
            return Ok(());
        }
        self.first_name(directory, name, fid)?;
        Ok(())
    }

    /// Puts the first name of a directory.
    fn first_name(&mut self, directory: Fid, name: Name, fid: Fid) -> Result<(), Memory>
        ensures ok { OnOk result (self.new ≡ record { targets = self.old.targets; tree = record { nodes = self.old.tree.nodes; entries = map.insert self.old.tree.entries directory (map.insert map.empty name fid) } }) }
        ensures targets { self.new.targets ≡ self.old.targets }
    {
        let mut entries = Entries::new(self.alloc);
        entries.insert(name, fid)?;
        self.directories.insert(directory, entries)?;
        Ok(())
    }

    pub(crate) fn drop_name(&mut self, directory: Fid, name: &Name)
        ensures { self.new ≡ record { targets = self.old.targets; tree = changed self.old.tree (Change.DropName directory name.now) } }
    {
        self.take_name(directory, name);
        if self.entry_count(directory) == 0 {
            self.forget(directory);
        }
    }

    /// Takes a name away, and leaves the directory among those with entries.
    fn take_name(&mut self, directory: Fid, name: &Name)
        ensures { self.new ≡ record { targets = self.old.targets; tree = record { nodes = self.old.tree.nodes; entries = taken_name self.old.tree directory name.now (map.get self.old.tree.entries directory) } } }
    {
        if let Some(entries) = self.directories.get_mut(&directory) {
            entries.remove(name);
        }
    }

    /// Takes a directory out of those with entries.
    fn forget(&mut self, directory: Fid)
        ensures { self.new ≡ record { targets = self.old.targets; tree = record { nodes = self.old.tree.nodes; entries = map.remove self.old.tree.entries directory } } }
    {
        self.directories.remove(&directory);
    }

    pub(crate) fn set_links(&mut self, fid: Fid, links: u32)
        ensures { self.new ≡ record {
          targets = self.old.targets;
          tree = changed_all self.old.tree
              (changed_node fid (map.get self.old.tree.nodes fid) (λ n. record n { links = links }));
        } }
    {
        if let Some(node) = self.nodes.get_mut(&fid) {
            node.links = links;
        }
    }

    pub(crate) fn set_parent(&mut self, fid: Fid, parent: Fid)
        ensures { self.new ≡ record {
          targets = self.old.targets;
          tree = changed_all self.old.tree
              (changed_node fid (map.get self.old.tree.nodes fid) (λ n. record n { parent = parent }));
        } }
    {
        if let Some(node) = self.nodes.get_mut(&fid) {
            node.parent = parent;
        }
    }

    pub(crate) fn set_attributes(&mut self, fid: Fid, mode: u16, uid: u32, gid: u32)
        ensures { self.new ≡ record {
          targets = self.old.targets;
          tree = changed_all self.old.tree
              (changed_node fid (map.get self.old.tree.nodes fid) (λ n. record n { mode = mode; uid = uid; gid = gid }));
        } }
    {
        if let Some(node) = self.nodes.get_mut(&fid) {
            node.mode = mode;
            node.uid = uid;
            node.gid = gid;
        }
    }

    pub(crate) fn put_xattr(&mut self, fid: Fid, name: Name, value: Bytes) -> Result<(), Memory>
        ensures ok { OnOk result (self.new ≡ record {
          targets = self.old.targets;
          tree = changed_all self.old.tree
              (changed_node fid (map.get self.old.tree.nodes fid) (λ n. record n { xattrs = map.insert n.xattrs name value }));
        }) }
        ensures targets { self.new.targets ≡ self.old.targets }
    {
        if let Some(node) = self.nodes.get_mut(&fid) {
            node.xattrs.insert(name, value)?;
        }
        Ok(())
    }

    pub(crate) fn drop_xattr(&mut self, fid: Fid, name: &Name)
        ensures { self.new ≡ record {
          targets = self.old.targets;
          tree = changed_all self.old.tree
              (changed_node fid (map.get self.old.tree.nodes fid) (λ n. record n { xattrs = map.remove n.xattrs name.now }));
        } }
    {
        if let Some(node) = self.nodes.get_mut(&fid) {
            node.xattrs.remove(name);
        }
    }
}

/// A new directory, in this parent.
pub(crate) fn directory_in(alloc: Global, parent: Fid) -> Node
    ensures { result ≡ Rattle.tree_model.specs.Tree.directory_in parent }
{
    Node {
        dir: true,
        mode: 0o755,
        uid: 0,
        gid: 0,
        links: 2,
        parent,
        xattrs: Xattrs::new(alloc),
    }
}
