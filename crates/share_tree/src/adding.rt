//! What the objects of a target add to a tree.

ghost use Rattle.std.specs.Prelude.{◌≡◌, OnOk};
ghost use Rattle.share_tree.specs.Told.{all_entries, all_attributes};
ghost use Rattle.share_tree.specs.Made.{with_entries, with_attributes, with_objects};

use crate::nodes::add_nodes;
use fid_space::Fid;
use object_store::Objects;
use std::alloc::{AllocError as Memory, Global};
use tree_model::{Name, PlainTree};

/// Adds the entries of a target.
fn add_entries(objects: &Objects, tree: &mut PlainTree) -> Result<(), Memory>
    ensures ok { OnOk result (tree.new ≡ record { targets = tree.old.targets; tree = with_entries tree.old.tree (all_entries objects.now) }) }
    ensures targets { tree.new.targets ≡ tree.old.targets }
{
    let mut after: Option<(Fid, &Name)> = None;
    for _entry in 0..u64::MAX {
        match objects.next_entry(after) {
            Some((object, directory, name, child)) => {
                tree.add_entry(directory, name, child)?;
                after = Some((object, name));
            }
            None => return Ok(()),
        }
    }
    Err(Memory)
}

/// Adds the extended attributes of a target.
fn add_attributes(objects: &Objects, tree: &mut PlainTree) -> Result<(), Memory>
    ensures ok { OnOk result (tree.new ≡ record { targets = tree.old.targets; tree = with_attributes tree.old.tree (all_attributes objects.now) }) }
    ensures targets { tree.new.targets ≡ tree.old.targets }
{
    let mut after: Option<(Fid, &Name)> = None;
    for _attribute in 0..u64::MAX {
        match objects.next_attribute(after) {
            Some((fid, name, value)) => {
                tree.add_attribute(fid, name, value)?;
                after = Some((fid, name));
            }
            None => return Ok(()),
        }
    }
    Err(Memory)
}

/// Adds to a tree what the objects of a target tell: their nodes, then the entries of directories and of
/// stripes, and then the attributes. What was there stays, unless the objects tell another of it. After want of
/// memory it is some tree of the same cluster.
#[tactic(auto, unfolding(crate::specs::Made::with_objects))]
pub fn add_objects(alloc: Global, objects: &Objects, tree: &mut PlainTree) -> Result<(), Memory>
    ensures ok { OnOk result (tree.new ≡ record { targets = tree.old.targets; tree = with_objects tree.old.tree objects.now }) }
    ensures targets { tree.new.targets ≡ tree.old.targets }
{
    add_nodes(alloc, objects, tree)?;
    add_entries(objects, tree)?;
    add_attributes(objects, tree)
}
