ghost use Rattle.std.specs.Prelude.{◌≡◌, ◌⊎◌, Some, ℕ, List};
ghost use Rattle.std.specs.Io.KnownBytes.{Appends, Consumes, IsAtEnd};
ghost use Rattle.outside.specs.Causes.{Rose};
ghost use Rattle.outside.specs.declared.status.Status.{Status};
ghost use Rattle.model_mode.specs.Outcome.{Outcome, IsScenario};

use crate::session::Session;
use line_player::play_lines;
use outside::{Sink, Source, Status};
use std::alloc::Global;

/// Runs the scenario that the input has on the plain tree, and answers how that ended: `Done` where its
/// `end` was read and nothing follows, `Refused` where a line was refused or `end` is missing, `Memory`
/// for want of memory, `Source` and `Sink` where the input or the output failed. Commands that speak of
/// deliveries and of targets are read and do nothing.
pub fn play_model<I: Source, O: Sink>(alloc: Global, input: &mut I, output: &mut O) -> Status
    // What was written is the transcript of the plain tree over the bytes that were read.
    ensures outcome { (read : List ℕ) × (more : List ℕ) × Consumes (I.left input.old) (I.left input.new) read
        × Appends (O.written output.old) (O.written output.new) more
        × Outcome (IsAtEnd (I.left input.new)) result read more }
    // A scenario in the grammar is run to its end, unless memory runs out or the input or output fails.
    ensures complete { (bytes : List ℕ) → I.left input.old ≡ Some bytes → IsScenario bytes
        → ¬ Rose (I.source_faults input.old) (I.source_faults input.new)
        → ¬ Rose (O.sink_faults output.old) (O.sink_faults output.new)
        → (result ≡ Status.Done) ⊎ (result ≡ Status.Memory) }
    ensures source { result ≡ Status.Source → Rose (I.source_faults input.old) (I.source_faults input.new) }
    ensures sink { result ≡ Status.Sink → Rose (O.sink_faults output.old) (O.sink_faults output.new) }
{
    let mut session = match Session::new(alloc) {
        Ok(session) => session,
        Err(_) => return Status::Memory,
    };
    play_lines(alloc, &mut session, input, output)
}
