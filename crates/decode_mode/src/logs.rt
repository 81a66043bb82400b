ghost use Rattle.std.specs.Prelude.{true, false, IsErr, ◌≡◌, ◌⊎◌, ◌++◌, ℕ, List, IfOk};
ghost use Rattle.std.specs.Io.KnownBytes.{Appends, Consumes, IsAtEnd};
ghost use Rattle.outside.specs.Causes.{Rose};
ghost use Rattle.llog_store.specs.DecodedText.{decoded_text, fault_text};
ghost use Rattle.decode_mode.specs.Lines.{rest_line};
ghost use Rattle.decode_mode.specs.Logs.{AnswersLog};

use crate::answer::{Answer, print_rest};
use crate::format::{Format, decode};
use fid_space::Bytes;
use llog_store::{Llog, LlogFault};
use outside::{Sink, Source, Status};
use std::alloc::{AllocError as Memory, Global};

/// Update logs.
pub struct Logs;

fn show(alloc: Global, log: &Llog) -> Result<Answer, Memory>
    ensures text { IfOk result (λ a. a.text ≡ decoded_text log.now ++ rest_line 0) }
    ensures shown { IfOk result (λ a. a.shown ≡ true) }
{
    let mut text = Bytes::new(alloc);
    log.print(&mut text)?;
    print_rest(0, &mut text)?;
    Ok(Answer { text, shown: true })
}

fn refuse(alloc: Global, fault: LlogFault) -> Result<Answer, Memory>
    ensures text { IfOk result (λ a. a.text ≡ fault_text fault) }
    ensures refused { IfOk result (λ a. a.shown ≡ false) }
    ensures known { fault ≡ LlogFault.Memory → IsErr result }
{
    if matches!(fault, LlogFault::Memory) {
        return Err(Memory);
    }
    let mut text = Bytes::new(alloc);
    fault.print(&mut text)?;
    Ok(Answer { text, shown: false })
}

impl Format for Logs {
    ghost use Rattle.decode_mode.specs.Logs.{ShowsLog, RefusesLog};

    ghost shows = { ShowsLog };

    ghost refuses = { RefusesLog };

    fn answer(alloc: Global, bytes: &[u8]) -> Result<Answer, Memory> {
        match Llog::read(alloc, bytes) {
            Ok(log) => show(alloc, &log),
            Err(fault) => refuse(alloc, fault),
        }
    }
}

/// Reads the whole input, at most 67,108,864 bytes, and writes the update log that it is, after its lines that
/// nothing is left behind it: Done. Where a field can't stand, or the input ends inside the log, or is longer,
/// it writes the place and the fault in place of them: Refused.
pub fn decode_log<I: Source, O: Sink>(alloc: Global, input: &mut I, output: &mut O) -> Status
    // What is written is the answer to the bytes that are read.
    ensures answers { (read : List ℕ) × (more : List ℕ) × Consumes (I.left input.old) (I.left input.new) read
        × Appends (O.written output.old) (O.written output.new) more
        × AnswersLog (IsAtEnd (I.left input.new)) result read more }
    ensures source { result ≡ Status.Source → Rose (I.source_faults input.old) (I.source_faults input.new) }
    ensures sink { result ≡ Status.Sink → Rose (O.sink_faults output.old) (O.sink_faults output.new) }
    // Where neither the input nor the output fails, there is an answer, unless memory runs out.
    ensures complete { ¬ Rose (I.source_faults input.old) (I.source_faults input.new)
        → ¬ Rose (O.sink_faults output.old) (O.sink_faults output.new)
        → (result ≡ Status.Done) ⊎ ((result ≡ Status.Refused) ⊎ (result ≡ Status.Memory)) }
{
    decode::<Logs, I, O>(alloc, input, output)
}
