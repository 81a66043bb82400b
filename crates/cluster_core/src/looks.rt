//! What is shown of a cluster.

ghost use Rattle.std.specs.Prelude.{◌≡◌, ◌≤◌, ◌++◌, length, OnOk, IfOk};
ghost use Rattle.cluster_core.specs.Looks.{least, list_lines, message_lines, first_resting, first_in_flight, objects_in, tree_of};
ghost use Rattle.cluster_mail.specs.Mail.{sent_at};
ghost use Rattle.target_turns.specs.Showing.{objects_of};
ghost use Rattle.share_tree.specs.Made.{with_all};

use crate::members::Members;
use outside::Plant;
use scenario_text::Lines;
use share_tree::add_objects;
use std::alloc::{AllocError as Memory, Global};
use target_turns::{Target, message_line};
use tree_model::PlainTree;

/// The lesser of two numbers, of which either may be missing.
fn least(one: Option<u32>, other: Option<u32>) -> Option<u32>
    ensures { result ≡ least one other }
{
    match (one, other) {
        (Some(m), Some(n)) => {
            if n < m {
                return Some(n);
            }
            Some(m)
        }
        (Some(m), None) => Some(m),
        (None, other) => other,
    }
}

/// Adds to a tree what the objects of a target tell, where it isn't down.
fn add_target<D: Plant>(
    alloc: Global,
    target: &Target<D>,
    tree: &mut PlainTree,
) -> Result<(), Memory>
    ensures ok { OnOk result (tree.new ≡ record { targets = tree.old.targets; tree = with_all tree.old.tree (objects_in (objects_of target.now)) }) }
    ensures targets { tree.new.targets ≡ tree.old.targets }
{
    match target.objects() {
        Some(objects) => add_objects(alloc, objects, tree),
        None => Ok(()),
    }
}

impl<D: Plant> Members<D> {
    /// The lowest target that doesn't serve.
    #[tactic(auto, using(crate::proofs::Shown::resting_here, crate::proofs::Shown::resting_next, crate::proofs::Shown::resting_none))]
    pub fn first_resting(&self) -> Option<u8>
        ensures least { result ≡ first_resting 0 self.now.targets }
    {
        for index in 0..self.count() {
            if !self.targets[index as usize].is_serving() {
                return Some(index);
            }
        }
        None
    }

    /// The lowest request in flight.
    #[tactic(auto, using(crate::proofs::Shown::flight_next, crate::proofs::Shown::flight_done))]
    pub fn first_in_flight(&self) -> Option<u32>
        ensures { result ≡ first_in_flight self.now.targets }
    {
        let mut found = None;
        for target in &self.targets {
            found = least(found, target.holder());
        }
        found
    }

    /// Adds the line of the message of this number, where it waits.
    fn show_message(&self, k: u32, lines: &mut Lines) -> Result<(), Memory>
        requires low { 1 ≤ k }
        requires sent { k ≤ length self.now.sent }
        ensures { OnOk result (lines.new ≡ lines.old ++ message_lines k (sent_at self.now.sent k)) }
    {
        if !self.mail.waits(k) {
            return Ok(());
        }
        let message = self.mail.read(k)?;
        lines.push(message_line(k, &message))
    }

    /// Adds a line for each message that waits.
    #[tactic(auto, using(crate::proofs::Shown::shown_one, crate::proofs::Shown::shown_all))]
    pub fn show_list(&self, lines: &mut Lines) -> Result<(), Memory>
        ensures { OnOk result (lines.new ≡ lines.old ++ list_lines 1 self.now.sent) }
    {
        for index in 0..self.mail.len() {
            self.show_message(index + 1, lines)?;
        }
        Ok(())
    }

    /// The tree that the objects of all targets make up.
    #[tactic(auto, using(crate::proofs::Shown::grown_next, crate::proofs::Shown::grown_done))]
    pub fn tree(&self, alloc: Global) -> Result<PlainTree, Memory>
        ensures { IfOk result (λ t. t ≡ tree_of self.now.targets) }
    {
        let mut tree = PlainTree::empty(alloc, self.cluster);
        for target in &self.targets {
            add_target(alloc, target, &mut tree)?;
        }
        Ok(tree)
    }
}
