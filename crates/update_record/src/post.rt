ghost use Rattle.std.specs.Prelude.{◌≡◌, ◌<◌, ◌^◌, ◌++◌, OnOk, OnErr};
ghost use Rattle.byte_grammar.specs.declared.verdict.Refusal.{Refusal};
ghost use Rattle.byte_grammar.specs.Values.{Gives};
ghost use Rattle.update_record.specs.Decoding.{Decodes};
ghost use Rattle.update_record.specs.Messages.{spells_message, FitsMessage, address_text, content_text, message_text};
ghost use Rattle.update_record.specs.MessageReading.{measured, judge_body, judge_message};
ghost use Rattle.update_record.specs.MessageValues.{message_at};

use crate::decoder::{fault_of, verdict_on};
use crate::facts::FactsPosition;
use crate::fault::RecordFault;
use crate::head::{HeadPosition, head_of};
use crate::kinds::number_of_kind;
use crate::message::{Message, MessageKind};
use crate::position::RecordPosition;
use crate::question::QuestionPosition;
use byte_grammar::{BuildFault, Reason, Refusal, Verdict, part, put_zeros, put32, put64};
use fid_space::Bytes;
use std::alloc::{AllocError as Memory, Global};

/// The verdict on a body, counted from the message's start, with its length judged behind it.
fn measure(verdict: Verdict, size: u32) -> Verdict
    requires { (refusal : Refusal) → verdict ≡ Verdict.Refused refusal → refusal.place < 2 ^ 63 }
    ensures { result ≡ measured size verdict }
{
    match verdict {
        Verdict::More => Verdict::More,
        Verdict::Done(end) => {
            if end != size as usize {
                let (place, reason) = (48, Reason::BadLength);
                return Verdict::Refused(Refusal { place, reason });
            }
            Verdict::Done(56 + end)
        }
        Verdict::Refused(refusal) => Verdict::Refused(Refusal {
            place: 56 + refusal.place,
            reason: refusal.reason,
        }),
    }
}

/// The verdict on the bytes behind a head.
fn verdict_behind(kind: MessageKind, size: u32, rest: &[u8]) -> Verdict
    ensures { result ≡ judge_body kind size rest.now }
{
    match kind {
        MessageKind::Request => {
            if rest.len() < size as usize {
                return Verdict::More;
            }
            Verdict::Done(56 + size as usize)
        }
        MessageKind::Hold => measure(verdict_on::<QuestionPosition>(rest), size),
        MessageKind::Held => measure(verdict_on::<FactsPosition>(rest), size),
        MessageKind::Execute => measure(verdict_on::<RecordPosition>(rest), size),
        _ => Verdict::Done(56),
    }
}

fn verdict_of(bytes: &[u8]) -> Verdict
    ensures { result ≡ judge_message bytes.now }
{
    match verdict_on::<HeadPosition>(bytes) {
        Verdict::Done(_) => match head_of(bytes) {
            Ok((head, rest)) => verdict_behind(head.kind, head.size, rest),
            Err(_) => Verdict::More,
        },
        other => other,
    }
}

/// The message that the first of these bytes spell, where they spell one, and the bytes behind it.
#[tactic(auto, unfolding(crate::specs::MessageValues::message_at))]
fn message_of(alloc: Global, bytes: &[u8]) -> Result<(Message, &[u8]), BuildFault>
    ensures { Gives (λ x. (x.0, x.1.now)) result (message_at bytes.now) }
{
    let (head, rest) = head_of(bytes)?;
    let (text, rest) = part(head.size as usize, rest)?;
    let mut body = Bytes::new(alloc);
    body.append(text)?;
    let message = Message {
        kind: head.kind,
        epoch: head.epoch,
        from: head.from,
        to: head.to,
        number: head.number,
        attempt: head.attempt,
        ask: head.ask,
        value: head.value,
        body,
    };
    Ok((message, rest))
}

fn put_address(out: &mut Vec<u8>, message: &Message) -> Result<(), Memory>
    ensures { OnOk result (out.new.items ≡ out.old.items ++ address_text message.now) }
{
    put32(out, 0x4d4e_4531)?;
    put32(out, number_of_kind(message.kind))?;
    put32(out, message.epoch)?;
    put32(out, message.from)?;
    put32(out, message.to)?;
    put32(out, message.number)?;
    put64(out, message.attempt)?;
    Ok(())
}

fn put_content(out: &mut Vec<u8>, message: &Message) -> Result<(), Memory>
    requires { FitsMessage message.now }
    ensures { OnOk result (out.new.items ≡ out.old.items ++ content_text message.now) }
{
    put32(out, message.ask)?;
    put_zeros(out, 4)?;
    put64(out, message.value)?;
    put32(out, message.body.len() as u32)?;
    put_zeros(out, 4)?;
    Ok(())
}

impl Message {
    /// Adds the message's spelling at the end. Want of memory adds nothing.
    pub fn encode(&self, out: &mut Bytes) -> Result<(), Memory>
        requires { FitsMessage self.now }
        ensures ok { OnOk result (out.new ≡ out.old ++ message_text self.now) }
        ensures err { OnErr result (out.new ≡ out.old) }
    {
        let mut text = Vec::new(out.alloc());
        put_address(&mut text, self)?;
        put_content(&mut text, self)?;
        text.extend_from_slice(self.body.bytes())?;
        out.append(&text)
    }

    /// Reads the message that the bytes begin with, and how many of them it has. Bytes behind it are not
    /// looked at. A fault is the first field from the left that can't stand, also inside the body, counted
    /// from the message's start; the length of a body that is a question, facts or a record is judged behind
    /// it. The text of an operation is not judged.
    pub fn decode(alloc: Global, bytes: &[u8]) -> Result<(Message, usize), RecordFault>
        ensures { Decodes spells_message (judge_message bytes.now) bytes.now result }
    {
        match verdict_of(bytes) {
            Verdict::Done(end) => match message_of(alloc, bytes) {
                Ok((message, _)) => Ok((message, end)),
                Err(BuildFault::Memory) => Err(RecordFault::Memory),
                Err(BuildFault::Short) => unreachable!(),
            },
            Verdict::More => Err(RecordFault::Truncated(bytes.len())),
            Verdict::Refused(refusal) => Err(fault_of(refusal)),
        }
    }
}
