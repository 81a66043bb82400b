ghost use Rattle.std.specs.Prelude.{◌≡◌, ◌≢◌, ◌++◌, ◌+◌, ◌-◌, ◌<◌, ◌≤◌, ◌⊎◌, ◌↔◌, length, take, [], ℕ, List, IfOk, OnOk, IfErr, IsTrue, is_some, Err};
ghost use Rattle.std.specs.Io.KnownBytes.{Appends, Consumes, IsAtEnd};
ghost use Rattle.outside.specs.Causes.{Rose};
ghost use Rattle.outside.specs.declared.status.Status.{Status};
ghost use Rattle.scenario_text.specs.Refusals.{refusal, no_end};
ghost use Rattle.scenario_text.specs.Cutting.{open_line};
ghost use Rattle.line_player.specs.Played.{Played, rules_of};
ghost use Rattle.line_player.specs.Reached.{At, Ended, StopsAt, Told, status_of};

use crate::runner::LineRunner;
use crate::stop::{Stop, status_of};
use fid_space::Bytes;
use outside::{Sink, Source, Status, put_all};
use scenario_text::{Cut, LineCutter, TextFault, print_no_end, print_refusal};
use std::alloc::Global;

/// How many bytes are read at once.
const PIECE: usize = 65_536;

/// How many lines a scenario has at most.
const MOST_LINES: u64 = 1_000_000;

/// How many bytes a scenario has at most.
const MOST_BYTES: u64 = 67_108_864;

/// A scenario while its bytes come in: the line that hasn't ended, and how many lines and bytes came.
#[derive(Drop)]
struct Player {
    alloc: Global,
    cutter: LineCutter,
    count: u64,
    total: u64,
    ghost few: { count ≤ 1000000 },
    ghost limited: { total ≤ 67108864 },
    ghost last: { 1000000 ≤ count → length (open_line cutter) ≡ 0 },
}

impl Player {
    /// Whether no byte more may come.
    fn is_full(&self) -> bool
        ensures { IsTrue result ↔ ((1000000 ≤ self.now.count) ⊎ (67108864 ≤ self.now.total)) }
    {
        self.count >= MOST_LINES || self.total >= MOST_BYTES
    }

    /// The bytes of a piece that may still come.
    fn inside<'a>(&self, piece: &'a [u8]) -> &'a [u8]
        ensures { result.now ≡ take (67108864 - self.now.total) piece.now }
    {
        let room = (MOST_BYTES - self.total) as usize;
        if piece.len() <= room {
            piece
        } else {
            &piece[..room]
        }
    }

    /// Takes the bytes of a piece up to the end of a line, which it runs. It answers how many these were.
    fn step<S: LineRunner, O: Sink>(
        &mut self,
        piece: &[u8],
        stage: &mut S,
        output: &mut O,
    ) -> Result<usize, Stop>
        requires some { 0 < length piece.now }
        requires small { length piece.now ≤ 65536 }
        ensures ok { IfOk result (λ used. (first : S) (read text : List ℕ)
            → At S.takes first stage.old read text (open_line self.old.cutter) self.old.count self.old.total
            → (more : List ℕ) × Appends (O.written output.old) (O.written output.new) more
            × At S.takes first stage.new (read ++ take used piece.now) (text ++ more) (open_line self.new.cutter) self.new.count self.new.total) }
        ensures uses { IfOk result (λ used. (0 < used) × (used ≤ length piece.now)) }
        ensures grows { IfOk result (λ used. self.new.total ≡ self.old.total + used) }
        ensures stop { IfErr result (λ stop. (first : S) (read text : List ℕ)
            → At S.takes first stage.old read text (open_line self.old.cutter) self.old.count self.old.total
            → (more : List ℕ) × Appends (O.written output.old) (O.written output.new) more
            × Played (rules_of S.takes S.refuses S.leaves S.ended first stage.new) ⊥ (status_of stop) (read ++ piece.now) (text ++ more)) }
        ensures later { O.sink_faults output.old ≤ O.sink_faults output.new }
        ensures sink { result ≡ Err Stop.Sink → Rose (O.sink_faults output.old) (O.sink_faults output.new) }
        ensures tells { is_some (O.written output.new) ≡ is_some (O.written output.old) }
    {
        if self.is_full() {
            return Err(refuse(self.alloc, self.count + 1, output));
        }
        let inside = self.inside(piece);
        match self.cutter.feed(inside) {
            Err(_) => Err(Stop::Memory),
            Ok(Cut::Long { .. }) => Err(refuse(self.alloc, self.count + 1, output)),
            Ok(Cut::More) => {
                self.total += inside.len() as u64;
                Ok(inside.len())
            }
            Ok(Cut::Line { used }) => {
                let line = self.cutter.line();
                match run_line(self.alloc, line, self.count + 1, stage, output) {
                    Ok(()) => {}
                    Err(stop) => return Err(stop),
                }
                self.total += used as u64;
                self.count += 1;
                Ok(used)
            }
        }
    }

    /// Takes the bytes of a piece.
    fn feed<S: LineRunner, O: Sink>(
        &mut self,
        piece: &[u8],
        stage: &mut S,
        output: &mut O,
    ) -> Result<(), Stop>
        requires { length piece.now ≤ 65536 }
        ensures ok { OnOk result ((first : S) (read text : List ℕ)
            → At S.takes first stage.old read text (open_line self.old.cutter) self.old.count self.old.total
            → (more : List ℕ) × Appends (O.written output.old) (O.written output.new) more
            × At S.takes first stage.new (read ++ piece.now) (text ++ more) (open_line self.new.cutter) self.new.count self.new.total) }
        ensures grows { OnOk result (self.new.total ≡ self.old.total + length piece.now) }
        ensures stop { IfErr result (λ stop. (first : S) (read text : List ℕ)
            → At S.takes first stage.old read text (open_line self.old.cutter) self.old.count self.old.total
            → (more : List ℕ) × Appends (O.written output.old) (O.written output.new) more
            × Played (rules_of S.takes S.refuses S.leaves S.ended first stage.new) ⊥ (status_of stop) (read ++ piece.now) (text ++ more)) }
        ensures later { O.sink_faults output.old ≤ O.sink_faults output.new }
        ensures sink { result ≡ Err Stop.Sink → Rose (O.sink_faults output.old) (O.sink_faults output.new) }
        ensures tells { is_some (O.written output.new) ≡ is_some (O.written output.old) }
    {
        let mut at = 0;
        while at < piece.len() {
            match self.step(&piece[at..], stage, output) {
                Ok(used) => at += used,
                Err(stop) => return Err(stop),
            }
        }
        Ok(())
    }

    /// Runs the last line where it lacks its line feed, and answers how many lines there were.
    fn close<S: LineRunner, O: Sink>(&self, stage: &mut S, output: &mut O) -> Result<u64, Stop>
        ensures ok { IfOk result (λ count. (first : S) (read text : List ℕ)
            → At S.takes first stage.old read text (open_line self.now.cutter) self.now.count self.now.total
            → (more : List ℕ) × Appends (O.written output.old) (O.written output.new) more
            × Ended S.takes first stage.new read (text ++ more) count) }
        ensures few { IfOk result (λ count. count ≤ 1000000) }
        ensures stop { IfErr result (λ stop. (first : S) (read text : List ℕ)
            → At S.takes first stage.old read text (open_line self.now.cutter) self.now.count self.now.total
            → (more : List ℕ) × Appends (O.written output.old) (O.written output.new) more
            × Played (rules_of S.takes S.refuses S.leaves S.ended first stage.new) (Unit {0}) (status_of stop) read (text ++ more)) }
        ensures later { O.sink_faults output.old ≤ O.sink_faults output.new }
        ensures sink { result ≡ Err Stop.Sink → Rose (O.sink_faults output.old) (O.sink_faults output.new) }
        ensures tells { is_some (O.written output.new) ≡ is_some (O.written output.old) }
    {
        if !self.cutter.is_open() {
            return Ok(self.count);
        }
        match run_line(
            self.alloc,
            self.cutter.line(),
            self.count + 1,
            stage,
            output,
        ) {
            Ok(()) => Ok(self.count + 1),
            Err(stop) => Err(stop),
        }
    }

    /// Ends the run at the end of its bytes.
    fn finish<S: LineRunner, O: Sink>(&self, stage: &mut S, output: &mut O) -> Status
        ensures ends { (first : S) (read text : List ℕ)
            → At S.takes first stage.old read text (open_line self.now.cutter) self.now.count self.now.total
            → (more : List ℕ) × Appends (O.written output.old) (O.written output.new) more
            × Played (rules_of S.takes S.refuses S.leaves S.ended first stage.new) (Unit {0}) result read (text ++ more) }
        ensures later { O.sink_faults output.old ≤ O.sink_faults output.new }
        ensures never { result ≢ Status.Source }
        ensures sink { result ≡ Status.Sink → Rose (O.sink_faults output.old) (O.sink_faults output.new) }
        ensures tells { is_some (O.written output.new) ≡ is_some (O.written output.old) }
    {
        match self.close(stage, output) {
            Ok(count) => end(self.alloc, count, stage, output),
            Err(stop) => status_of(stop),
        }
    }
}

/// Runs a line, and writes what comes of it, or its refusal.
fn run_line<S: LineRunner, O: Sink>(
    alloc: Global,
    line: &[u8],
    number: u64,
    stage: &mut S,
    output: &mut O,
) -> Result<(), Stop>
    ensures ok { OnOk result ((more : List ℕ) × S.takes stage.old line.now stage.new more × Appends (O.written output.old) (O.written output.new) more) }
    ensures stop { IfErr result (λ stop. (more : List ℕ) × Appends (O.written output.old) (O.written output.new) more
        × StopsAt S.takes S.refuses S.leaves stop stage.old stage.new line.now number more) }
    ensures later { O.sink_faults output.old ≤ O.sink_faults output.new }
    ensures sink { result ≡ Err Stop.Sink → Rose (O.sink_faults output.old) (O.sink_faults output.new) }
    ensures tells { is_some (O.written output.new) ≡ is_some (O.written output.old) }
{
    let mut out = Bytes::new(alloc);
    match stage.take_line(line, &mut out) {
        Ok(()) => {}
        Err(TextFault::NotYet) => return Err(refuse(alloc, number, output)),
        Err(TextFault::Memory) => return Err(Stop::Memory),
    }
    match put_all(output, out.bytes()) {
        Ok(()) => {}
        Err(_) => return Err(Stop::Sink),
    }
    Ok(())
}

/// Ends the run after its last line, which has this number.
fn end<S: LineRunner, O: Sink>(alloc: Global, count: u64, stage: &S, output: &mut O) -> Status
    requires { count ≤ 1000000 }
    ensures ends { (first : S) (read text : List ℕ) → Ended S.takes first stage.now read text count
        → (more : List ℕ) × Appends (O.written output.old) (O.written output.new) more
        × Played (rules_of S.takes S.refuses S.leaves S.ended first stage.now) (Unit {0}) result read (text ++ more) }
    ensures later { O.sink_faults output.old ≤ O.sink_faults output.new }
    ensures never { result ≢ Status.Source }
    ensures sink { result ≡ Status.Sink → Rose (O.sink_faults output.old) (O.sink_faults output.new) }
    ensures tells { is_some (O.written output.new) ≡ is_some (O.written output.old) }
{
    if stage.has_ended() {
        return Status::Done;
    }
    status_of(lack_end(alloc, count + 1, output))
}

/// Writes the refusal of a line.
fn refuse<O: Sink>(alloc: Global, line: u64, output: &mut O) -> Stop
    ensures told { (more : List ℕ) × Appends (O.written output.old) (O.written output.new) more × Told result (refusal line) more }
    ensures later { O.sink_faults output.old ≤ O.sink_faults output.new }
    ensures sink { result ≡ Stop.Sink → Rose (O.sink_faults output.old) (O.sink_faults output.new) }
    ensures tells { is_some (O.written output.new) ≡ is_some (O.written output.old) }
{
    let mut out = Bytes::new(alloc);
    match print_refusal(line, &mut out) {
        Ok(()) => {}
        Err(_) => return Stop::Memory,
    }
    match put_all(output, out.bytes()) {
        Ok(()) => Stop::Refused,
        Err(_) => Stop::Sink,
    }
}

/// Writes the line for a scenario that lacks its `end`.
fn lack_end<O: Sink>(alloc: Global, line: u64, output: &mut O) -> Stop
    ensures told { (more : List ℕ) × Appends (O.written output.old) (O.written output.new) more × Told result (no_end line) more }
    ensures later { O.sink_faults output.old ≤ O.sink_faults output.new }
    ensures sink { result ≡ Stop.Sink → Rose (O.sink_faults output.old) (O.sink_faults output.new) }
    ensures tells { is_some (O.written output.new) ≡ is_some (O.written output.old) }
{
    let mut out = Bytes::new(alloc);
    match print_no_end(line, &mut out) {
        Ok(()) => {}
        Err(_) => return Stop::Memory,
    }
    match put_all(output, out.bytes()) {
        Ok(()) => Stop::Refused,
        Err(_) => Stop::Sink,
    }
}

/// Reads all that the input has and plays it.
fn read_all<S: LineRunner, I: Source, O: Sink>(
    player: &mut Player,
    buffer: &mut [u8],
    stage: &mut S,
    input: &mut I,
    output: &mut O,
) -> Status
    requires { length buffer.old ≡ 65536 }
    ensures outcome { (first : S) (before text : List ℕ)
        → At S.takes first stage.old before text (open_line player.old.cutter) player.old.count player.old.total
        → (read : List ℕ) × (more : List ℕ) × Consumes (I.left input.old) (I.left input.new) read
        × Appends (O.written output.old) (O.written output.new) more
        × Played (rules_of S.takes S.refuses S.leaves S.ended first stage.new) (IsAtEnd (I.left input.new)) result (before ++ read) (text ++ more) }
    ensures source { result ≡ Status.Source → Rose (I.source_faults input.old) (I.source_faults input.new) }
    ensures sink { result ≡ Status.Sink → Rose (O.sink_faults output.old) (O.sink_faults output.new) }
{
    loop {
        match input.read(buffer) {
            Err(_) => return Status::Source,
            Ok(0) => return player.finish(stage, output),
            Ok(count) => match player.feed(&buffer[..count], stage, output) {
                Ok(()) => {}
                Err(stop) => return status_of(stop),
            },
        }
    }
}

/// Plays the scenario that the input has, and answers how that ended: `Done` where the end was read and
/// nothing follows, `Refused` where a line was refused or the end is missing, `Memory` for want of memory,
/// `Source` and `Sink` where the input or the output failed. It asks for 65,536 bytes a read.
pub fn play_lines<S: LineRunner, I: Source, O: Sink>(
    alloc: Global,
    stage: &mut S,
    input: &mut I,
    output: &mut O,
) -> Status
    ensures outcome { (read : List ℕ) × (more : List ℕ) × Consumes (I.left input.old) (I.left input.new) read
        × Appends (O.written output.old) (O.written output.new) more
        × Played (rules_of S.takes S.refuses S.leaves S.ended stage.old stage.new) (IsAtEnd (I.left input.new)) result read more }
    ensures source { result ≡ Status.Source → Rose (I.source_faults input.old) (I.source_faults input.new) }
    ensures sink { result ≡ Status.Sink → Rose (O.sink_faults output.old) (O.sink_faults output.new) }
{
    let mut buffer = match vec![in alloc; 0u8; PIECE] {
        Ok(buffer) => buffer,
        Err(_) => return Status::Memory,
    };
    let mut player = Player {
        alloc,
        cutter: LineCutter::new(alloc),
        count: 0,
        total: 0,
    };
    read_all(&mut player, buffer.as_mut_slice(), stage, input, output)
}
