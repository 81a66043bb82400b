ghost use Rattle.std.specs.Prelude.{true, false, ◌≡◌, ◌≢◌, ◌⊎◌, ◌++◌, ℕ, List, Some, IfOk};
ghost use Rattle.std.specs.Io.KnownBytes.{Appends, Consumes, IsAtEnd};
ghost use Rattle.outside.specs.Causes.{Rose};
ghost use Rattle.out_update.specs.Decoding.{judge_request, IsFault};
ghost use Rattle.out_update.specs.Text.{decoded_text};
ghost use Rattle.decode_mode.specs.Lines.{rest_line};
ghost use Rattle.decode_mode.specs.Answering.{Says};
ghost use Rattle.decode_mode.specs.Refusing.{RefusesBy};
ghost use Rattle.decode_mode.specs.Requests.{ShowsRequest, RefusesRequest, AnswersRequest};
ghost use Rattle.byte_grammar.specs.declared.verdict.Verdict.{Verdict};

use crate::answer::{Answer, print_rest, refusal};
use crate::format::{Format, decode};
use byte_grammar::Fed;
use fid_space::Bytes;
use out_update::{Decoder, UpdateFault, UpdateRequest};
use outside::{Sink, Source, Status};
use std::alloc::{AllocError as Memory, Global};

/// Update requests.
pub struct Requests;

fn show(alloc: Global, value: &UpdateRequest, rest: usize) -> Result<Answer, Memory>
    ensures text { IfOk result (λ a. a.text ≡ decoded_text value.now ++ rest_line rest) }
    ensures shown { IfOk result (λ a. a.shown ≡ true) }
{
    let mut text = Bytes::new(alloc);
    value.print(&mut text)?;
    print_rest(rest, &mut text)?;
    Ok(Answer { text, shown: true })
}

fn refuse(alloc: Global, fault: UpdateFault) -> Result<Answer, Memory>
    ensures text { (v : Verdict) (len : ℕ) → IsFault fault v → IfOk result (λ a. RefusesBy v len a.text) }
    ensures refused { IfOk result (λ a. a.shown ≡ false) }
{
    match fault.told() {
        Some((place, word)) => refusal(alloc, place, word),
        None => Err(Memory),
    }
}

impl Format for Requests {
    ghost use Rattle.decode_mode.specs.Requests.{ShowsRequest, RefusesRequest};

    ghost shows = { ShowsRequest };

    ghost refuses = { RefusesRequest };

    fn answer(alloc: Global, bytes: &[u8]) -> Result<Answer, Memory> {
        match Decoder::new(alloc).feed(bytes) {
            Ok(Fed::Done { value, used }) => show(alloc, &value, bytes.len() - used),
            Ok(Fed::More) => refusal(alloc, bytes.len(), "Truncated"),
            Err(fault) => refuse(alloc, fault),
        }
    }
}

/// Reads the whole input, at most 67,108,864 bytes, and writes the update request that it begins with, after
/// its lines how many bytes are left behind it: Done. Where a field can't stand, or the input ends inside the
/// request, or is longer, it writes the place and the fault in place of them: Refused.
pub fn decode_request<I: Source, O: Sink>(alloc: Global, input: &mut I, output: &mut O) -> Status
    // What is written is the answer to the bytes that are read.
    ensures answers { (read : List ℕ) × (more : List ℕ) × Consumes (I.left input.old) (I.left input.new) read
        × Appends (O.written output.old) (O.written output.new) more
        × AnswersRequest (IsAtEnd (I.left input.new)) result read more }
    ensures source { result ≡ Status.Source → Rose (I.source_faults input.old) (I.source_faults input.new) }
    ensures sink { result ≡ Status.Sink → Rose (O.sink_faults output.old) (O.sink_faults output.new) }
    // Where neither the input nor the output fails, there is an answer, unless memory runs out.
    ensures complete { ¬ Rose (I.source_faults input.old) (I.source_faults input.new)
        → ¬ Rose (O.sink_faults output.old) (O.sink_faults output.new)
        → (result ≡ Status.Done) ⊎ ((result ≡ Status.Refused) ⊎ (result ≡ Status.Memory)) }
{
    decode::<Requests, I, O>(alloc, input, output)
}
