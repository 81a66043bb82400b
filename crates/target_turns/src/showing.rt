//! What is shown of the update log of a target.

ghost use Rattle.std.specs.Prelude.{◌≡◌, ◌+◌, ◌++◌, Some, IfOk, OnOk};
ghost use Rattle.update_record.specs.Spelling.{FitsRecord};
ghost use Rattle.update_record.specs.Values.{record_value};
ghost use Rattle.target_turns.specs.Showing.{IsNext, held_numbers, logged, log_lines};

use fid_space::Numbers;
use outside::Disk;
use scenario_text::{Line, Lines, Logged};
use std::alloc::{AllocError as Memory, Global};
use target_node::Node;
use update_record::{Record, a_record_is_read_back};

/// The record that a payload is. A payload that is none is answered as want of memory: no log of a target has one.
fn record_in(alloc: Global, payload: &[u8]) -> Result<Record, Memory>
    ensures fits { IfOk result FitsRecord }
    ensures value { IfOk result (λ r. record_value payload.now ≡ Some r) }
{
    a_record_is_read_back();
    match Record::decode(alloc, payload) {
        Ok((entry, _)) => Ok(entry),
        Err(_) => Err(Memory),
    }
}

/// The index behind one. That the last index has none is answered as want of memory: no log goes so far.
fn behind(index: u32) -> Result<u32, Memory>
    ensures { IfOk result (λ next. next ≡ index + 1) }
{
    if index == u32::MAX {
        return Err(Memory);
    }
    Ok(index + 1)
}

/// The first live record at an index or behind it, with its index.
fn next_record<D: Disk>(
    alloc: Global,
    node: &Node<D>,
    from: u32,
) -> Result<Option<(u32, Record)>, Memory>
    ensures { IfOk result (IsNext from node.now.state.log.entries) }
{
    match node.live(from) {
        None => Ok(None),
        Some((index, payload)) => {
            let entry = record_in(alloc, payload)?;
            Ok(Some((index, entry)))
        }
    }
}

/// The numbers of the requests whose records are live, in the order of the log.
pub(crate) fn held_numbers<D: Disk>(alloc: Global, node: &Node<D>) -> Result<Numbers, Memory>
    ensures { IfOk result (λ ns. ns ≡ held_numbers node.now.state) }
{
    let mut numbers = Numbers::new(alloc);
    let mut from = 1;
    for _record in 0..node.live_count() {
        match next_record(alloc, node, from)? {
            None => return Ok(numbers),
            Some((index, entry)) => {
                numbers.push(entry.number)?;
                from = behind(index)?;
            }
        }
    }
    Ok(numbers)
}

/// What the log's lines show of a record.
fn logged(index: u32, entry: &Record) -> Logged
    requires { FitsRecord entry.now }
    ensures { result ≡ logged index entry.now }
{
    Logged {
        index,
        epoch: entry.id.epoch,
        master: entry.id.master,
        batch: entry.id.batch,
        number: entry.number,
        on: entry.targets(),
    }
}

/// Adds the lines of the log of a target.
pub(crate) fn show_log<D: Disk>(
    alloc: Global,
    target: u8,
    node: &Node<D>,
    lines: &mut Lines,
) -> Result<(), Memory>
    ensures { OnOk result (lines.new ≡ lines.old ++ log_lines target node.now.state.log.entries) }
{
    let live = node.live_count();
    lines.push(Line::Log { target, live })?;
    let mut from = 1;
    for _record in 0..live {
        match next_record(alloc, node, from)? {
            None => return Ok(()),
            Some((index, entry)) => {
                lines.push(Line::LogEntry(logged(index, &entry)))?;
                from = behind(index)?;
            }
        }
    }
    Ok(())
}
