//! What a recovery does again at a target.

ghost use Rattle.std.specs.Prelude.{◌≡◌, ◌≤◌, ◌++◌, ℕ, length, take, IfOk, OnOk};
ghost use Rattle.update_record.specs.Values.{record_value};
ghost use Rattle.update_recovery.specs.declared.found.Found.{Found};
ghost use Rattle.target_state.specs.Commit.{packed};
ghost use Rattle.update_recovery.specs.Disks.{Commits, Breaks, WhereDisk, WhereMemory};
ghost use Rattle.update_recovery.specs.Union.{is_logged, AreFound};
ghost use Rattle.update_recovery.specs.Redoing.{all_redone, naming, lacking_of, lacking, numbers_of, Redoes, RedoesAt, BreaksRedoing, KeepsDisk, redone_at};
ghost use Rattle.update_recovery.specs.Steps.{AllCame, HasStopped, HasLost, WhereHalted, WhereLost, told_from};

use crate::bounds::Bounds;
use crate::found::{Found, record_in};
use crate::halt::Halt;
use crate::listed::Listed;
use fid_space::Numbers;
use outside::Disk;
use std::alloc::{AllocError as Memory, Global};
use std::collections::BTreeSet;
use target_node::{Node, NodeFault};

/// The greatest transaction number at which a record is done again. No target comes so far.
const MOST_TRANSNO: u64 = 1 << 63;

/// Does a record again at a target, if the record names it, and adds its number.
fn redo_here<D: Disk>(
    alloc: Global,
    index: u8,
    node: &mut Node<D>,
    found: &Found,
    numbers: &mut Numbers,
) -> Result<(), Memory>
    ensures state { OnOk result (node.new.state ≡ all_redone node.old.state (naming index (record_value found.now.text.items))) }
    ensures disk { node.new.disk ≡ node.old.disk }
    ensures told { OnOk result (numbers.new ≡ numbers.old ++ numbers_of (naming index (record_value found.now.text.items))) }
{
    let entry = record_in(alloc, found.text.as_slice())?;
    if entry.part_of(index).is_none() {
        return Ok(());
    }
    if MOST_TRANSNO < node.transno() {
        return Err(Memory);
    }
    node.redo(&entry)?;
    numbers.push(entry.number)
}

/// Does the records of the union again that name a target and that its log lacks, in their order, and gives
/// their numbers.
fn redo_lacking<D: Disk>(
    alloc: Global,
    bounds: &Bounds,
    union: &BTreeSet<Found>,
    index: u8,
    node: &mut Node<D>,
) -> Result<Numbers, Memory>
    ensures state { OnOk result (node.new.state ≡ all_redone node.old.state (lacking bounds.now.epoch bounds.now.marks.items index node.old.state union.now.keys)) }
    ensures disk { node.new.disk ≡ node.old.disk }
    ensures told { IfOk result (λ numbers. numbers ≡ numbers_of (lacking bounds.now.epoch bounds.now.marks.items index node.old.state union.now.keys)) }
{
    let own = bounds.of_target(alloc, node)?;
    let mut numbers = Numbers::new(alloc);
    for found in union {
        if !own.contains(found) {
            redo_here(alloc, index, node, found, &mut numbers)?;
        }
    }
    Ok(numbers)
}

/// Does the records of the union again that name a target and that its log lacks, in their order. Where there is
/// one, the target is committed then. The numbers of the requests are given.
pub(crate) fn redo_target<D: Disk>(
    alloc: Global,
    bounds: &Bounds,
    union: &BTreeSet<Found>,
    index: u8,
    node: &mut Node<D>,
) -> Result<Numbers, NodeFault>
    ensures told { IfOk result (λ numbers. numbers ≡ numbers_of (lacking bounds.now.epoch bounds.now.marks.items index node.old.state union.now.keys)) }
    ensures done { OnOk result (Redoes D.shown (lacking bounds.now.epoch bounds.now.marks.items index node.old.state union.now.keys) node.old node.new) }
    ensures disk { WhereDisk result (Breaks (D.shown node.old.disk) (D.shown node.new.disk) (packed (all_redone node.old.state (lacking bounds.now.epoch bounds.now.marks.items index node.old.state union.now.keys)))) }
    ensures memory { WhereMemory result (node.new.disk ≡ node.old.disk) }
{
    let numbers = match redo_lacking(alloc, bounds, union, index, node) {
        Ok(numbers) => numbers,
        Err(_) => return Err(NodeFault::Memory),
    };
    if numbers.len() == 0 {
        return Ok(numbers);
    }
    node.commit()?;
    Ok(numbers)
}

/// Does what each of the targets lacks again, one after another, and lists those that lacked something with their
/// numbers. Want of memory leaves some of them so, and each other disk as it was.
pub(crate) fn redo_all<D: Disk>(
    alloc: Global,
    bounds: &Bounds,
    union: &BTreeSet<Found>,
    nodes: &mut [Node<D>],
    redone: &mut Listed,
) -> Result<(), Halt>
    requires { length nodes.old ≤ 16 }
    ensures done { OnOk result (AllCame (RedoesAt D.shown bounds.now.epoch bounds.now.marks.items union.now.keys) nodes.old nodes.new) }
    ensures stopped { WhereHalted result (λ place. HasStopped (RedoesAt D.shown bounds.now.epoch bounds.now.marks.items union.now.keys) (BreaksRedoing D.shown bounds.now.epoch bounds.now.marks.items union.now.keys) place nodes.old nodes.new) }
    ensures lost { WhereLost result (HasLost (RedoesAt D.shown bounds.now.epoch bounds.now.marks.items union.now.keys) KeepsDisk nodes.old nodes.new) }
    ensures told { OnOk result (redone.new ≡ redone.old ++ told_from (redone_at bounds.now.epoch bounds.now.marks.items union.now.keys) 0 nodes.old) }
    ensures told_before { WhereHalted result (λ place. redone.new ≡ redone.old ++ told_from (redone_at bounds.now.epoch bounds.now.marks.items union.now.keys) 0 (take place nodes.old)) }
{
    for place in 0..nodes.len() {
        match redo_target(alloc, bounds, union, place as u8, &mut nodes[place]) {
            Ok(numbers) => {
                if redone.tell(place as u8, numbers).is_err() {
                    return Err(Halt::Memory);
                }
            }
            Err(NodeFault::Disk) => return Err(Halt::Disk(place as u8)),
            Err(NodeFault::Memory) => return Err(Halt::Memory),
        }
    }
    Ok(())
}
