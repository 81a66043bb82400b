ghost use Rattle.std.specs.Prelude.{◌≡◌, ◌⊎◌, ℕ, List, IfOk};
ghost use Rattle.std.specs.Io.KnownBytes.{Appends, Consumes, IsAtEnd};
ghost use Rattle.outside.specs.Causes.{Rose};
ghost use Rattle.decode_mode.specs.Answering.{Says, Answers};

use crate::answer::{Answer, refusal, say};
use outside::{Sink, Source, Status, TakeFault, take_all};
use std::alloc::{AllocError as Memory, Global};

/// The most bytes that are decoded.
const MOST: usize = 67_108_864;

/// A format whose values are shown as text.
pub trait Format {
    // which text shows the value that bytes hold
    ghost shows: { List ℕ → List ℕ → Type 0 };

    // which text refuses bytes
    ghost refuses: { List ℕ → List ℕ → Type 0 };

    /// The answer to all bytes of an input.
    fn answer(alloc: Global, bytes: &[u8]) -> Result<Answer, Memory>
        ensures { IfOk result (λ a. Says shows refuses a.shown bytes.now a.text) };
}

/// Reads the whole input and writes the answer to it.
pub fn decode<F: Format, I: Source, O: Sink>(alloc: Global, input: &mut I, output: &mut O) -> Status
    ensures answers { (read : List ℕ) × (more : List ℕ) × Consumes (I.left input.old) (I.left input.new) read
        × Appends (O.written output.old) (O.written output.new) more
        × Answers (IsAtEnd (I.left input.new)) F.shows F.refuses result read more }
    ensures source { result ≡ Status.Source → Rose (I.source_faults input.old) (I.source_faults input.new) }
    ensures sink { result ≡ Status.Sink → Rose (O.sink_faults output.old) (O.sink_faults output.new) }
{
    match take_all(alloc, input, MOST) {
        Ok(bytes) => say(F::answer(alloc, bytes.as_slice()), output),
        Err(TakeFault::TooMuch) => say(refusal(alloc, MOST, "TooMuch"), output),
        Err(TakeFault::Memory) => Status::Memory,
        Err(TakeFault::Source) => Status::Source,
    }
}
