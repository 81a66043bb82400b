//! The body of a Held, which tells facts.

ghost use Rattle.std.specs.Prelude.{◌≡◌, ◌++◌, OnOk, OnErr};
ghost use Rattle.std.specs.Int.{w32, w64};
ghost use Rattle.byte_grammar.specs.Numbers.{word};
ghost use Rattle.byte_grammar.specs.Values.{Gives};
ghost use Rattle.update_record.specs.Decoding.{Decodes};
ghost use Rattle.update_record.specs.Messages.{writer_number, writer_targets, facts_text, spells_facts, FitsFacts};
ghost use Rattle.update_record.specs.FactsValues.{set_at, writer_with, facts_at};
ghost use Rattle.update_record.specs.MessageReading.{judge_facts};

use crate::decoder::{fault_of, verdict_on};
use crate::facts::FactsPosition;
use crate::fault::RecordFault;
use crate::message::Facts;
use byte_grammar::{BuildFault, Position, Verdict, put32, put64, u32_at, u64_at};
use fid_space::{Bytes, Targets};
use out_update::reply_of;
use std::alloc::{AllocError as Memory, Global};

#[tactic(auto, unfolding(crate::specs::FactsValues::set_at))]
fn set_of(bytes: &[u8]) -> Result<(u16, &[u8]), BuildFault>
    ensures { Gives (λ x. (x.0, x.1.now)) result (set_at bytes.now) }
{
    let (number, rest) = u32_at(bytes)?;
    if number < 65_536 {
        Ok((number as u16, rest))
    } else {
        Err(BuildFault::Short)
    }
}

fn writer_of(number: u32, set: u16) -> Option<(u32, Targets)>
    ensures { result ≡ writer_with number set }
{
    if number == 0 {
        None
    } else {
        Some((number, Targets::of_number(set)))
    }
}

/// The facts that the first of these bytes spell, where they spell some, and the bytes behind them. Nothing
/// is judged: this is for bytes that were.
#[tactic(auto, unfolding(crate::specs::FactsValues::facts_at))]
pub fn facts_of(alloc: Global, bytes: &[u8]) -> Result<(Facts, &[u8]), BuildFault>
    ensures { Gives (λ x. (x.0, x.1.now)) result (facts_at bytes.now) }
{
    let (load, rest) = u64_at(bytes)?;
    let (clock, rest) = u64_at(rest)?;
    let (number, rest) = u32_at(rest)?;
    let (set, rest) = set_of(rest)?;
    let (reply, rest) = reply_of(alloc, rest)?;
    let writer = writer_of(number, set);
    let facts = Facts {
        load,
        clock,
        writer,
        reply,
    };
    Ok((facts, rest))
}

/// The number of the last writer and that of its targets.
fn numbers_of(writer: &Option<(u32, Targets)>) -> (u32, u32)
    ensures { result ≡ (writer_number writer.now, writer_targets writer.now) }
{
    match writer {
        None => (0, 0),
        Some((number, set)) => (*number, u32::from(set.number())),
    }
}

fn put_numbers(out: &mut Vec<u8>, facts: &Facts) -> Result<(), Memory>
    ensures { OnOk result (out.new.items ≡ out.old.items ++ (word w64 facts.now.load ++ (word w64 facts.now.clock ++ (word w32 (writer_number facts.now.writer) ++ word w32 (writer_targets facts.now.writer))))) }
{
    let (number, set) = numbers_of(&facts.writer);
    put64(out, facts.load)?;
    put64(out, facts.clock)?;
    put32(out, number)?;
    put32(out, set)?;
    Ok(())
}

impl Facts {
    /// Adds the spelling of the facts at the end: the body of a Held. Want of memory adds nothing.
    pub fn encode(&self, out: &mut Bytes) -> Result<(), Memory>
        requires { FitsFacts self.now }
        ensures ok { OnOk result (out.new ≡ out.old ++ facts_text self.now) }
        ensures err { OnErr result (out.new ≡ out.old) }
    {
        let alloc = out.alloc();
        let mut reply = Bytes::new(alloc);
        self.reply.encode(&mut reply)?;
        let mut text = Vec::new(alloc);
        put_numbers(&mut text, self)?;
        text.extend_from_slice(reply.bytes())?;
        out.append(&text)
    }

    /// Reads the facts that the bytes begin with, and how many of them they have: at most 24,600. Bytes behind
    /// them are not looked at. A fault is the first field from the left that can't stand, and its place is
    /// counted from the first byte of the facts.
    pub fn decode(alloc: Global, bytes: &[u8]) -> Result<(Facts, usize), RecordFault>
        ensures { Decodes spells_facts (judge_facts bytes.now) bytes.now result }
    {
        match verdict_on::<FactsPosition>(bytes) {
            Verdict::Done(end) => match FactsPosition::build(alloc, &bytes[..end]) {
                Ok(facts) => Ok((facts, end)),
                Err(_) => Err(RecordFault::Memory),
            },
            Verdict::More => Err(RecordFault::Truncated(bytes.len())),
            Verdict::Refused(refusal) => Err(fault_of(refusal)),
        }
    }
}
