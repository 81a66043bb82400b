ghost use Rattle.std.specs.Prelude.{◌≡◌};
ghost use Rattle.byte_grammar.specs.Values.{Gives, many};
ghost use Rattle.update_record.specs.Values.{small_at, part_value, record_at};

use crate::codes::answer_with;
use crate::operation::{OpId, Record};
use byte_grammar::{BuildFault, part, u32_at, u64_at};
use out_update::{Parts, UpdateRequest, request_of};
use std::alloc::Global;

#[tactic(auto, unfolding(crate::specs::Values::small_at))]
fn small_of(bytes: &[u8]) -> Result<(u8, &[u8]), BuildFault>
    ensures { Gives (λ x. (x.0, x.1.now)) result (small_at bytes.now) }
{
    let (number, rest) = u32_at(bytes)?;
    if number < 256 {
        Ok((number as u8, rest))
    } else {
        Err(BuildFault::Short)
    }
}

#[tactic(auto, unfolding(crate::specs::Values::part_value))]
fn part_of(alloc: Global, bytes: &[u8]) -> Result<((u8, UpdateRequest), &[u8]), BuildFault>
    ensures { Gives (λ x. (x.0, x.1.now)) result (part_value bytes.now) }
{
    let (target, rest) = small_of(bytes)?;
    let (_, rest) = u32_at(rest)?;
    let (request, rest) = request_of(alloc, rest)?;
    Ok(((target, request), rest))
}

fn parts_of(alloc: Global, count: u32, bytes: &[u8]) -> Result<(Parts, &[u8]), BuildFault>
    ensures { Gives (λ x. (x.0, x.1.now)) result (many part_value count bytes.now) }
{
    let mut parts = Parts::new(alloc);
    let mut rest = bytes;
    for _ in 0..count {
        let (part, after) = part_of(alloc, rest)?;
        parts.push(part)?;
        rest = after;
    }
    Ok((parts, rest))
}

/// The record that the first of these bytes spell, where they spell one, and the bytes behind it. Nothing
/// is judged: this is for bytes that were.
#[tactic(auto, unfolding(crate::specs::Values::record_at))]
pub fn record_of(alloc: Global, bytes: &[u8]) -> Result<(Record, &[u8]), BuildFault>
    ensures { Gives (λ x. (x.0, x.1.now)) result (record_at bytes.now) }
{
    let (_, rest) = part(4, bytes)?;
    let (epoch, rest) = u32_at(rest)?;
    let (master, rest) = small_of(rest)?;
    let (number, rest) = u32_at(rest)?;
    let (batch, rest) = u64_at(rest)?;
    let (stamp, rest) = u64_at(rest)?;
    let (client, rest) = small_of(rest)?;
    let (code, rest) = u32_at(rest)?;
    let Some(reply) = answer_with(code) else {
        return Err(BuildFault::Short);
    };
    let (count, rest) = u32_at(rest)?;
    let (_, rest) = part(4, rest)?;
    let (parts, rest) = parts_of(alloc, count, rest)?;
    let id = OpId {
        epoch,
        master,
        batch,
    };
    let record = Record {
        id,
        stamp,
        number,
        client,
        reply,
        parts,
    };
    Ok((record, rest))
}
