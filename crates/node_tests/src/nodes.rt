ghost use Rattle.std.specs.Prelude.{◌<◌, IfSome};
ghost use Rattle.update_record.specs.Spelling.{FitsRecord};

use crate::fixtures::attempt;
use fid_space::Cluster;
use out_update::UpdateRequest;
use outside::{Disk, MemoryDisk};
use reply_cache::Judgement;
use std::alloc::Global;
use std::test::Fail;
use target_node::Node;
use target_state::{ExecuteAnswer, HoldAnswer};
use tree_model::Reply;
use update_record::{Attempt, Record};

/// Epoch 1, master 0, number 1, batch 1, stamp 1, client 0: a directory `d` in the root. Target 0 gets an insert
/// of its name, target 1 a create.
const MKDIR: [u8; 240] = [
    85, 80, 68, 49, 1, 0, 0, 0, 0, 0, 0, 0, 1, 0, 0, 0, 1, 0, 0, 0, 0, 0, 0, 0, 1, 0, 0, 0, 0, 0,
    0, 0, 0, 0, 0, 0, 0, 0, 0, 0, 2, 0, 0, 0, 0, 0, 0, 0, 0, 0, 0, 0, 80, 0, 0, 0, 1, 0, 0xde,
    0xbd, 1, 0, 0, 0, 10, 0, 2, 0, 0, 0, 0, 0, 1, 0, 0, 0, 0, 0, 0, 0, 7, 0, 0, 0, 2, 0, 0, 0, 1,
    0, 0, 0, 0, 0, 0, 0, 1, 0, 0, 0, 0, 0, 0, 0, 100, 0, 0, 0, 0, 0, 0, 0, 16, 0, 0, 0, 0, 0, 0, 0,
    0, 4, 16, 0, 2, 0, 0, 0, 1, 0, 0, 0, 0, 0, 0, 0, 1, 0, 0, 0, 96, 0, 0, 0, 1, 0, 0xde, 0xbd, 1,
    0, 0, 0, 1, 0, 1, 0, 0, 0, 0, 0, 1, 0, 0, 0, 0, 0, 0, 0, 0, 4, 16, 0, 2, 0, 0, 0, 1, 0, 0, 0,
    0, 0, 0, 0, 48, 0, 0, 0, 0, 0, 0, 0, 2, 0, 0, 0, 0xed, 1, 0, 0, 0, 0, 0, 0, 0, 0, 0, 0, 2, 0,
    0, 0, 0, 0, 0, 0, 0, 0, 0, 0, 7, 0, 0, 0, 2, 0, 0, 0, 1, 0, 0, 0, 0, 0, 0, 0, 0, 0, 0, 0,
];

/// The record that the bytes begin with.
fn read(alloc: Global, bytes: &[u8]) -> Option<Record>
    ensures { IfSome result FitsRecord }
{
    match Record::decode(alloc, bytes) {
        Ok((record, _)) => Some(record),
        Err(_) => None,
    }
}

/// The bytes of that record with this batch.
fn numbered(batch: u8) -> [u8; 240] {
    let mut bytes = MKDIR;
    bytes[16] = batch;
    bytes[72] = batch;
    bytes[160] = batch;
    bytes
}

/// The record of that directory, with this batch.
fn made(alloc: Global, batch: u8) -> Option<Record>
    ensures { IfSome result FitsRecord }
{
    read(alloc, &numbered(batch))
}

/// A target of two over a new disk on which these calls fail.
fn formatted(alloc: Global, index: u8, failing: &[u64]) -> Option<Node<MemoryDisk>> {
    let disk = MemoryDisk::new(alloc, failing).ok()?;
    Node::format(alloc, Cluster::new(2)?, index, disk).ok()
}

/// Whether the attempt comes to hold the target.
fn held(alloc: Global, node: &mut Node<MemoryDisk>, by: Attempt) -> bool
    requires { by.master < 16 }
{
    matches!(
        node.hold(by, &UpdateRequest::new(alloc)),
        Ok(HoldAnswer::Held(_))
    )
}

/// Whether the attempt holds the target, and so executes the record there.
fn executed(node: &mut Node<MemoryDisk>, by: Attempt, entry: &Record) -> bool
    requires master { by.master < 16 }
    requires entry { FitsRecord entry.now }
{
    if node.load() > 5_111_808 || node.transno() > 1_000 || entry.id.batch > 1_000 {
        return false;
    }
    matches!(node.execute(by, entry), Ok(ExecuteAnswer::Done))
}

/// Whether the record is done again.
fn redone(node: &mut Node<MemoryDisk>, entry: &Record) -> bool
    requires { FitsRecord entry.now }
{
    node.transno() <= 1_000 && node.redo(entry).is_ok()
}

/// Whether the target comes to be held, and executes the record with this batch.
fn did(alloc: Global, node: &mut Node<MemoryDisk>, batch: u8) -> bool {
    let by = attempt(u64::from(batch));
    match made(alloc, batch) {
        None => false,
        Some(record) => held(alloc, node, by) && executed(node, by, &record),
    }
}

/// A target over a new disk on which these calls fail, which executed its part of the operation.
fn done_at(alloc: Global, index: u8, failing: &[u64]) -> Option<Node<MemoryDisk>> {
    let mut node = formatted(alloc, index, failing)?;
    if did(alloc, &mut node, 1) {
        Some(node)
    } else {
        None
    }
}

/// The target after a stop and a start.
fn restarted(alloc: Global, index: u8, node: Node<MemoryDisk>) -> Option<Node<MemoryDisk>> {
    let mut disk = node.crash();
    disk.power_cycle().ok()?;
    Node::open(alloc, Cluster::new(2)?, index, disk).ok()
}

/// Target 0, which executed its part, and stopped before it committed.
fn home_stopped(alloc: Global) -> Option<Node<MemoryDisk>> {
    restarted(alloc, 0, done_at(alloc, 0, &[])?)
}

/// Target 1, which executed its part and committed it, and stopped.
fn other_stopped(alloc: Global) -> Option<Node<MemoryDisk>> {
    let mut node = done_at(alloc, 1, &[])?;
    node.commit().ok()?;
    restarted(alloc, 1, node)
}

#[test]
fn a_stop_loses_what_was_not_committed(rt: HostRuntime) {
    let home = home_stopped(rt.alloc()).expect(&rt, "target 0");
    assert_eq!(rt; (home.transno(), home.epoch()), (0, 1));
    assert!(rt; home.live(0).is_none());
    assert!(rt; matches!(home.judge(0, 1), Judgement::New));
}

#[test]
fn a_stop_leaves_what_was_committed(rt: HostRuntime) {
    let other = other_stopped(rt.alloc()).expect(&rt, "target 1");
    assert_eq!(rt; (other.transno(), other.clock()), (1, 1));
    assert!(rt; other.live(0).is_some());
}

/// The first number and the count of batches that the commit of a recovery tells, in which the target did the
/// operation again.
fn recovered(alloc: Global, node: &mut Node<MemoryDisk>) -> Option<(Option<u32>, usize)> {
    node.enter_recovery();
    if !redone(node, &made(alloc, 1)?) {
        return None;
    }
    let committed = node.commit().ok()?;
    Some((committed.stable.get(0), committed.batches.len()))
}

/// The target after a recovery of epoch 2 ended, a stop and a start.
fn renewed(alloc: Global, index: u8, mut node: Node<MemoryDisk>) -> Option<Node<MemoryDisk>> {
    node.enter_recovery();
    node.reserve().ok()?;
    node.renew(2).ok()?;
    restarted(alloc, index, node)
}

#[test]
fn a_recovery_redoes_what_a_log_lacks(rt: HostRuntime) {
    let alloc = rt.alloc();
    let mut home = home_stopped(alloc).expect(&rt, "target 0");
    assert_eq!(rt; recovered(alloc, &mut home), Some((Some(1), 0)));
    let home = renewed(alloc, 0, home).expect(&rt, "target 0 again");
    assert_eq!(rt; (home.epoch(), home.transno(), home.clock()), (2, 1, 0));
    assert!(rt; home.live(0).is_none());
    assert!(rt; matches!(home.judge(0, 1), Judgement::Repeat(Reply::Ok)));
}

#[test]
fn a_recovery_empties_what_is_done_everywhere(rt: HostRuntime) {
    let alloc = rt.alloc();
    let other = other_stopped(alloc).expect(&rt, "target 1");
    let other = renewed(alloc, 1, other).expect(&rt, "target 1 again");
    assert_eq!(rt; (other.epoch(), other.transno(), other.clock()), (2, 1, 1));
    assert!(rt; other.live(0).is_none());
    assert!(rt; matches!(other.judge(0, 1), Judgement::New));
}

/// The index of the first live record of a target's log.
fn first_live(node: &Node<MemoryDisk>) -> Option<u32> {
    match node.live(0) {
        None => None,
        Some((index, _)) => Some(index),
    }
}

/// The index of the one live record before a commit, and after a stop and a start: two records were executed,
/// and the first of them was cancelled.
fn packed(alloc: Global) -> Option<(u32, u32)> {
    let mut node = done_at(alloc, 0, &[])?;
    if !did(alloc, &mut node, 2) {
        return None;
    }
    node.cancel(0, 1);
    let before = first_live(&node)?;
    node.commit().ok()?;
    let node = restarted(alloc, 0, node)?;
    Some((before, first_live(&node)?))
}

#[test]
fn a_commit_packs_a_log_that_is_half_cancelled(rt: HostRuntime) {
    assert_eq!(rt; packed(rt.alloc()), Some((2, 1)));
}

/// Whether a target committed the operation though this call of its disk failed, and how many records it had
/// executed by what was left.
fn stopped_at(alloc: Global, call: u64) -> Option<(bool, u64)> {
    let mut node = done_at(alloc, 0, &[call])?;
    let done = node.commit().is_ok();
    let node = restarted(alloc, 0, node)?;
    Some((done, node.transno()))
}

/// The first of the eighteen calls of a commit at which a stop was not as it must be: it leaves the state
/// before, and the state after once the gate is settled. Formatting makes twelve calls.
fn first_wrong(alloc: Global) -> Option<u64> {
    for call in 13..31u64 {
        let kept = if call < 27 { 0 } else { 1 };
        if stopped_at(alloc, call) != Some((false, kept)) {
            return Some(call);
        }
    }
    None
}

#[test]
fn a_stopped_commit_leaves_the_state_before_or_after(rt: HostRuntime) {
    assert_eq!(rt; first_wrong(rt.alloc()), None);
}
