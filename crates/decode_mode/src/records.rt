ghost use Rattle.std.specs.Prelude.{true, false, ◌≡◌, ◌⊎◌, ◌++◌, ℕ, List, IfOk, OnOk, codes};
ghost use Rattle.std.specs.Io.KnownBytes.{Appends, Consumes, IsAtEnd};
ghost use Rattle.outside.specs.Causes.{Rose};
ghost use Rattle.byte_grammar.specs.declared.verdict.Verdict.{Verdict};
ghost use Rattle.update_record.specs.Decoding.{IsFault};
ghost use Rattle.decode_mode.specs.Lines.{rest_line};
ghost use Rattle.decode_mode.specs.Refusing.{RefusesBy};
ghost use Rattle.decode_mode.specs.Records.{id_text, labelled, head_line, part_lines, parts_lines, record_lines, AnswersRecord};

use crate::answer::{Answer, print_rest, refusal};
use crate::format::{Format, decode};
use fid_space::{Bytes, print_number};
use out_update::UpdateRequest;
use outside::{Sink, Source, Status};
use std::alloc::{AllocError as Memory, Global};
use update_record::{OpId, Record, RecordFault};

/// Update records.
pub struct Records;

#[tactic(auto, unfolding(crate::specs::Records::labelled))]
fn print_labelled(label: &[u8], n: u64, out: &mut Bytes) -> Result<(), Memory>
    ensures { OnOk result (out.new ≡ out.old ++ labelled label.now n) }
{
    out.append(label)?;
    print_number(n, out)
}

#[tactic(auto, unfolding(crate::specs::Records::id_text))]
fn print_id(id: OpId, out: &mut Bytes) -> Result<(), Memory>
    ensures { OnOk result (out.new ≡ out.old ++ id_text id) }
{
    print_number(u64::from(id.epoch), out)?;
    out.push(b'.')?;
    print_number(u64::from(id.master), out)?;
    out.push(b'.')?;
    print_number(id.batch, out)
}

#[tactic(auto, unfolding(crate::specs::Records::head_line))]
fn print_head(record: &Record, out: &mut Bytes) -> Result<(), Memory>
    ensures { OnOk result (out.new ≡ out.old ++ head_line record.now) }
{
    out.append(b"record ")?;
    print_id(record.id, out)?;
    print_labelled(b" number ", u64::from(record.number), out)?;
    print_labelled(b" client ", u64::from(record.client), out)?;
    print_labelled(b" stamp ", record.stamp, out)?;
    out.append(b" reply ")?;
    record.reply.print(out)?;
    out.push(b'\n')?;
    Ok(())
}

fn print_part(part: &(u8, UpdateRequest), out: &mut Bytes) -> Result<(), Memory>
    ensures { OnOk result (out.new ≡ out.old ++ part_lines part.now) }
{
    out.append(b"part ")?;
    print_number(u64::from(part.0), out)?;
    out.push(b'\n')?;
    part.1.print(out)
}

#[tactic(auto, unfolding(crate::specs::Records::parts_lines))]
fn print_parts(parts: &[(u8, UpdateRequest)], out: &mut Bytes) -> Result<(), Memory>
    ensures { OnOk result (out.new ≡ out.old ++ parts_lines parts.now) }
{
    for part in parts {
        print_part(part, out)?;
    }
    Ok(())
}

fn print_record(record: &Record, out: &mut Bytes) -> Result<(), Memory>
    ensures { OnOk result (out.new ≡ out.old ++ record_lines record.now) }
{
    print_head(record, out)?;
    print_parts(record.parts.items(), out)
}

fn show(alloc: Global, record: &Record, rest: usize) -> Result<Answer, Memory>
    ensures text { IfOk result (λ a. a.text ≡ record_lines record.now ++ rest_line rest) }
    ensures shown { IfOk result (λ a. a.shown ≡ true) }
{
    let mut text = Bytes::new(alloc);
    print_record(record, &mut text)?;
    print_rest(rest, &mut text)?;
    Ok(Answer { text, shown: true })
}

fn refuse(alloc: Global, fault: RecordFault) -> Result<Answer, Memory>
    ensures text { (v : Verdict) (len : ℕ) → IsFault fault len v → IfOk result (λ a. RefusesBy v len a.text) }
    ensures refused { IfOk result (λ a. a.shown ≡ false) }
{
    match fault {
        RecordFault::Memory => Err(Memory),
        RecordFault::BadMagic(place) => refusal(alloc, place, "BadMagic"),
        RecordFault::BadType(place) => refusal(alloc, place, "BadType"),
        RecordFault::BadCount(place) => refusal(alloc, place, "BadCount"),
        RecordFault::BadLength(place) => refusal(alloc, place, "BadLength"),
        RecordFault::BadPadding(place) => refusal(alloc, place, "BadPadding"),
        RecordFault::BadValue(place) => refusal(alloc, place, "BadValue"),
        RecordFault::TooLong(place) => refusal(alloc, place, "TooLong"),
        RecordFault::Truncated(place) => refusal(alloc, place, "Truncated"),
    }
}

impl Format for Records {
    ghost use Rattle.decode_mode.specs.Records.{ShowsRecord, RefusesRecord};

    ghost shows = { ShowsRecord };

    ghost refuses = { RefusesRecord };

    fn answer(alloc: Global, bytes: &[u8]) -> Result<Answer, Memory> {
        match Record::decode(alloc, bytes) {
            Ok((record, used)) => show(alloc, &record, bytes.len() - used),
            Err(fault) => refuse(alloc, fault),
        }
    }
}

/// Reads the whole input, at most 67,108,864 bytes, and writes the update record that it begins with, after
/// its lines how many bytes are left behind it: Done. Where a field can't stand, or the input ends inside the
/// record, or is longer, it writes the place and the fault in place of them: Refused.
pub fn decode_record<I: Source, O: Sink>(alloc: Global, input: &mut I, output: &mut O) -> Status
    // What is written is the answer to the bytes that are read.
    ensures answers { (read : List ℕ) × (more : List ℕ) × Consumes (I.left input.old) (I.left input.new) read
        × Appends (O.written output.old) (O.written output.new) more
        × AnswersRecord (IsAtEnd (I.left input.new)) result read more }
    ensures source { result ≡ Status.Source → Rose (I.source_faults input.old) (I.source_faults input.new) }
    ensures sink { result ≡ Status.Sink → Rose (O.sink_faults output.old) (O.sink_faults output.new) }
    // Where neither the input nor the output fails, there is an answer, unless memory runs out.
    ensures complete { ¬ Rose (I.source_faults input.old) (I.source_faults input.new)
        → ¬ Rose (O.sink_faults output.old) (O.sink_faults output.new)
        → (result ≡ Status.Done) ⊎ ((result ≡ Status.Refused) ⊎ (result ≡ Status.Memory)) }
{
    decode::<Records, I, O>(alloc, input, output)
}
