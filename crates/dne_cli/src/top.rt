ghost use Rattle.std.specs.Prelude.{◌≡◌, ◌≢◌, ◌⊎◌, ◌≤◌, ◌∷◌, Some, ℕ, List, length, map};
ghost use Rattle.std.specs.Io.KnownBytes.{Appends, Consumes, IsAtEnd};
ghost use Rattle.outside.specs.Causes.{Rose};
ghost use Rattle.outside.specs.Disk.{Shown};
ghost use Rattle.line_player.specs.Played.{StopsNear};
ghost use Rattle.dne_cli.specs.Disks.{Touches, calls_of};
ghost use Rattle.dne_cli.specs.Transcript.{Outcome, IsScenario};
ghost use Rattle.dne_cli.specs.Words.{IsPlay, IsModel, IsDecodeRequest, IsDecodeRecord, IsDecodeLog, IsOther, Answers, all_bytes};
ghost use Rattle.model_mode.specs.Outcome.{Outcome as RunsPlainly, IsScenario as IsPlainScenario};
ghost use Rattle.decode_mode.specs.Requests.{AnswersRequest};
ghost use Rattle.decode_mode.specs.Records.{AnswersRecord};
ghost use Rattle.decode_mode.specs.Logs.{AnswersLog};
ghost use Rattle.outside.specs.Status.{code_of};
ghost use Rattle.outside.specs.declared.status.Status.{Status};

use crate::modes::{Mode, answer, mode_of};
use crate::session::Session;
use decode_mode::{decode_log, decode_record, decode_request};
use line_player::play_lines;
use model_mode::play_model;
use outside::{Plant, Sink, Source, Status};
use std::alloc::Global;

/// Plays the scenario that the input has over a disk, and gives the disk back.
fn play<I: Source, O: Sink, D: Plant>(
    alloc: Global,
    input: &mut I,
    output: &mut O,
    disk: D,
) -> (Status, D)
    ensures touches { Touches (D.shown disk) (D.shown result.1) }
    ensures outcome { (read : List ℕ) × (more : List ℕ) × Consumes (I.left input.old) (I.left input.new) read
        × Appends (O.written output.old) (O.written output.new) more
        × Outcome (calls_of D.cycled D.armed) (IsAtEnd (I.left input.new)) (D.shown disk) (D.shown result.1) result.0 read more }
    ensures source { result.0 ≡ Status.Source → Rose (I.source_faults input.old) (I.source_faults input.new) }
    ensures sink { result.0 ≡ Status.Sink → Rose (O.sink_faults output.old) (O.sink_faults output.new) }
{
    let mut session = match Session::new(alloc, disk) {
        Ok(session) => session,
        Err(disk) => return (Status::Memory, disk),
    };
    let status = play_lines(alloc, &mut session, input, output);
    (status, session.into_disk())
}

/// Plays over the first of the disks, which comes back to its place.
fn play_first<I: Source, O: Sink, D: Plant>(
    alloc: Global,
    input: &mut I,
    output: &mut O,
    disks: &mut Vec<D>,
) -> Status
    requires { 1 ≤ length disks.old.items }
    ensures disks { (old : D) × (new : D) × (rest : List D) × (disks.old.items ≡ old ∷ rest) × (disks.new.items ≡ new ∷ rest)
        × Touches (D.shown old) (D.shown new)
        × ((read : List ℕ) × (more : List ℕ) × Consumes (I.left input.old) (I.left input.new) read
        × Appends (O.written output.old) (O.written output.new) more
        × Outcome (calls_of D.cycled D.armed) (IsAtEnd (I.left input.new)) (D.shown old) (D.shown new) result read more) }
    ensures source { result ≡ Status.Source → Rose (I.source_faults input.old) (I.source_faults input.new) }
    ensures sink { result ≡ Status.Sink → Rose (O.sink_faults output.old) (O.sink_faults output.new) }
{
    let disk = disks.remove(0);
    let (status, disk) = play(alloc, input, output, disk);
    match disks.insert(0, disk) {
        Ok(()) => status,
        Err(_) => unreachable!(),
    }
}

/// Does all that the program does, and answers its status: 0 where the scenario was run to its `end` or what
/// the words ask for was written, 2 where the words, a line or the bytes were refused, 3 for want of memory, 4
/// and 5 where the input or the output failed. There are sixteen disks, and a cluster of one target uses the
/// first of them.
pub fn dne_main<I: Source, O: Sink, D: Plant>(
    alloc: Global,
    words: &[String],
    input: &mut I,
    output: &mut O,
    disks: &mut Vec<D>,
) -> u8
    requires { length disks.old.items ≡ 16 }
    // What was written is the transcript of a run over the bytes that were read, and the first disk keeps
    // the run.
    ensures play { IsPlay words.now → (old : D) × (new : D) × (rest : List D) × (disks.old.items ≡ old ∷ rest) × (disks.new.items ≡ new ∷ rest)
        × Touches (D.shown old) (D.shown new)
        × ((status : Status) × (result ≡ code_of status) × (read : List ℕ) × (more : List ℕ)
        × Consumes (I.left input.old) (I.left input.new) read × Appends (O.written output.old) (O.written output.new) more
        × Outcome (calls_of D.cycled D.armed) (IsAtEnd (I.left input.new)) (D.shown old) (D.shown new) status read more) }
    // A scenario in the grammar is played to its end, unless memory runs out or the input or output fails.
    ensures complete { IsPlay words.now → (bytes : List ℕ) → I.left input.old ≡ Some bytes → IsScenario bytes
        → ¬ Rose (I.source_faults input.old) (I.source_faults input.new)
        → ¬ Rose (O.sink_faults output.old) (O.sink_faults output.new) → (result ≡ 0) ⊎ (result ≡ 3) }
    // Where a line is refused, at most 65,536 bytes behind it were read, or behind its byte 16,385.
    ensures near { IsPlay words.now → result ≡ 2 → (read : List ℕ) × (more : List ℕ)
        × Consumes (I.left input.old) (I.left input.new) read × Appends (O.written output.old) (O.written output.new) more
        × StopsNear (IsAtEnd (I.left input.new)) read more }
    ensures near_model { IsModel words.now → result ≡ 2 → (read : List ℕ) × (more : List ℕ)
        × Consumes (I.left input.old) (I.left input.new) read × Appends (O.written output.old) (O.written output.new) more
        × StopsNear (IsAtEnd (I.left input.new)) read more }
    // What was written is the transcript of the plain tree over the bytes that were read.
    ensures model { IsModel words.now → (status : Status) × (result ≡ code_of status) × (read : List ℕ) × (more : List ℕ)
        × Consumes (I.left input.old) (I.left input.new) read × Appends (O.written output.old) (O.written output.new) more
        × RunsPlainly (IsAtEnd (I.left input.new)) status read more }
    // A scenario in the grammar is run to its end on the plain tree, with the same exceptions.
    ensures complete_model { IsModel words.now → (bytes : List ℕ) → I.left input.old ≡ Some bytes → IsPlainScenario bytes
        → ¬ Rose (I.source_faults input.old) (I.source_faults input.new)
        → ¬ Rose (O.sink_faults output.old) (O.sink_faults output.new) → (result ≡ 0) ⊎ (result ≡ 3) }
    // What was written is the answer to the bytes that were read, which are to begin with a request or a
    // record, or to be a log.
    ensures decode_request { IsDecodeRequest words.now → (status : Status) × (result ≡ code_of status) × (read : List ℕ) × (more : List ℕ)
        × Consumes (I.left input.old) (I.left input.new) read × Appends (O.written output.old) (O.written output.new) more
        × AnswersRequest (IsAtEnd (I.left input.new)) status read more }
    ensures decode_record { IsDecodeRecord words.now → (status : Status) × (result ≡ code_of status) × (read : List ℕ) × (more : List ℕ)
        × Consumes (I.left input.old) (I.left input.new) read × Appends (O.written output.old) (O.written output.new) more
        × AnswersRecord (IsAtEnd (I.left input.new)) status read more }
    ensures decode_log { IsDecodeLog words.now → (status : Status) × (result ≡ code_of status) × (read : List ℕ) × (more : List ℕ)
        × Consumes (I.left input.old) (I.left input.new) read × Appends (O.written output.old) (O.written output.new) more
        × AnswersLog (IsAtEnd (I.left input.new)) status read more }
    // All other words are answered by themselves: a hash, a place, or that they are bad. The input isn't read.
    ensures answers { IsOther (all_bytes words.now) → (status : Status) × (result ≡ code_of status)
        × Answers (all_bytes words.now) (O.written output.old) (O.written output.new) status }
    ensures unread { IsOther (all_bytes words.now) → I.left input.new ≡ I.left input.old }
    // Only `play` touches a disk.
    ensures untouched { ¬ IsPlay words.now → disks.new.items ≡ disks.old.items }
    ensures source { result ≡ 4 → Rose (I.source_faults input.old) (I.source_faults input.new) }
    ensures sink { result ≡ 5 → Rose (O.sink_faults output.old) (O.sink_faults output.new) }
    // The disks come back in their order.
    ensures disks { map (λ d. (D.shown d).name) disks.new.items ≡ map (λ d. (D.shown d).name) disks.old.items }
{
    match mode_of(words) {
        Mode::Play => play_first(alloc, input, output, disks).code(),
        Mode::Model => play_model(alloc, input, output).code(),
        Mode::DecodeRequest => decode_request(alloc, input, output).code(),
        Mode::DecodeRecord => decode_record(alloc, input, output).code(),
        Mode::DecodeLog => decode_log(alloc, input, output).code(),
        Mode::Query => answer(alloc, words, output).code(),
    }
}
