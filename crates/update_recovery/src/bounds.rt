//! Which records of the logs a recovery takes.

ghost use Rattle.std.specs.Prelude.{◌≡◌, ◌+◌, ◌||◌, ℕ, List, map, get_or, Some, IfOk, OnOk};
ghost use Rattle.update_record.specs.Values.{record_value};
ghost use Rattle.std.specs.List.{list_any};
ghost use Rattle.std.specs.BTreeSet.{contains, IsOrdered};
ghost use Rattle.target_state.specs.State.{TargetState};
ghost use Rattle.target_node.specs.Node.{NodeState};
ghost use Rattle.update_recovery.specs.declared.found.Found.{Found};
ghost use Rattle.update_recovery.specs.Live.{live_records, found_cmp, is_of};
ghost use Rattle.update_recovery.specs.Union.{greatest_from, is_open, AreBoundsOf, is_found, is_among, is_logged, AreFound};

use crate::found::{Found, record_in};
use outside::Disk;
use std::alloc::{AllocError as Memory, AllocFailed, Global};
use std::collections::BTreeSet;
use target_node::Node;
use update_record::Record;

/// Which operations a recovery may do again: those of the greatest epoch that aren't known to be durable on all
/// their targets.
#[derive(Debug, Drop)]
pub struct Bounds {
    pub(crate) epoch: u32,
    pub(crate) marks: Vec<u64>,
}

/// The index behind one. That the last index has none is answered as want of memory: no log goes so far.
fn behind(index: u32) -> Result<u32, Memory>
    ensures { IfOk result (λ next. next ≡ index + 1) }
{
    if index == u32::MAX {
        return Err(Memory);
    }
    Ok(index + 1)
}

impl Bounds {
    /// Those of the targets' greatest epoch, above the marks of their masters.
    pub(crate) fn of<D: Disk>(alloc: Global, nodes: &[Node<D>]) -> Result<Bounds, Memory>
        ensures { IfOk result (AreBoundsOf (map (λ (n : NodeState D). n.state) nodes.now)) }
    {
        let mut epoch = 0;
        let mut marks = Vec::new(alloc);
        for node in nodes {
            epoch = node.epoch().max(epoch);
            marks.push(node.mark())?;
        }
        Ok(Bounds { epoch, marks })
    }

    /// Whether a record is of an open operation.
    fn takes(&self, entry: &Record) -> bool
        ensures { result ≡ is_open self.now.epoch self.now.marks.items entry.now }
    {
        let mark = match self.marks.get(usize::from(entry.id.master)) {
            None => 0,
            Some(mark) => *mark,
        };
        entry.id.epoch == self.epoch && mark < entry.id.batch
    }

    /// Adds a record of a log, if it is of an open operation.
    fn add(&self, alloc: Global, payload: &[u8], found: &mut BTreeSet<Found>) -> Result<(), Memory>
        ensures { OnOk result ((k : Found) → contains found_cmp found.new k ≡ (is_found self.now.epoch self.now.marks.items k (record_value payload.now) payload.now || contains found_cmp found.old k)) }
    {
        let entry = record_in(alloc, payload)?;
        if !self.takes(&entry) {
            return Ok(());
        }
        match found.insert(Found::new(alloc, &entry, payload)?) {
            Ok(_) => Ok(()),
            Err(AllocFailed { .. }) => Err(Memory),
        }
    }

    /// Adds the live records of a target that are of open operations.
    pub(crate) fn add_live<D: Disk>(
        &self,
        alloc: Global,
        node: &Node<D>,
        found: &mut BTreeSet<Found>,
    ) -> Result<(), Memory>
        ensures { OnOk result ((k : Found) → contains found_cmp found.new k ≡ (is_logged self.now.epoch self.now.marks.items k node.now.state || contains found_cmp found.old k)) }
    {
        let mut from = 1;
        for _record in 0..node.live_count() {
            match node.live(from) {
                None => return Ok(()),
                Some((index, payload)) => {
                    self.add(alloc, payload, found)?;
                    from = behind(index)?;
                }
            }
        }
        Ok(())
    }

    /// The live records of a target that are of open operations.
    pub(crate) fn of_target<D: Disk>(
        &self,
        alloc: Global,
        node: &Node<D>,
    ) -> Result<BTreeSet<Found>, Memory>
        ensures { IfOk result (λ found. AreFound found (λ k. is_logged self.now.epoch self.now.marks.items k node.now.state)) }
    {
        let mut found = BTreeSet::new(alloc);
        self.add_live(alloc, node, &mut found)?;
        Ok(found)
    }

    /// Those of all targets, each once, in their order.
    pub(crate) fn of_targets<D: Disk>(
        &self,
        alloc: Global,
        nodes: &[Node<D>],
    ) -> Result<BTreeSet<Found>, Memory>
        ensures found { IfOk result (λ found. AreFound found (λ k. list_any (is_logged self.now.epoch self.now.marks.items k) (map (λ (n : NodeState D). n.state) nodes.now))) }
        ensures ordered { IfOk result (λ found. IsOrdered found_cmp found) }
    {
        let mut found = BTreeSet::new(alloc);
        for node in nodes {
            self.add_live(alloc, node, &mut found)?;
        }
        let _len = found.len();
        Ok(found)
    }
}
