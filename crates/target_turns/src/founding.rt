//! How a target begins: with its cluster, and again from its disk.

ghost use Rattle.std.specs.Prelude.{◌≡◌, ◌<◌, true, false, ◌++◌, ◌∷◌, [], IfOk, IfErr, OnOk};
ghost use Rattle.scenario_text.specs.declared.line.Line.{Line};
ghost use Rattle.target_state.specs.State.{first_state};
ghost use Rattle.target_turns.specs.Target.{target_down, target_opened};
ghost use Rattle.target_turns.specs.Touching.{Touches};
ghost use Rattle.target_turns.specs.Disks.{Cycled, StaysOff, calls_of};
ghost use Rattle.target_turns.specs.Showing.{is_down};
ghost use Rattle.target_turns.specs.Placing.{target_as, IsPlacedAs};
ghost use Rattle.target_turns.specs.Founding.{founded, FoundsOn, Founds, Opens, Reformats, Begins, Restarts, says_up};

use crate::served::Served;
use crate::showing::held_numbers;
use crate::target::{Halted, State, Target};
use fid_space::Cluster;
use outside::Plant;
use scenario_text::{Line, Lines};
use std::alloc::{AllocError as Memory, Global};
use target_node::{Node, NodeDown, NodeOpenFault};
use update_coordinator::Coordinator;

/// A target that serves, and has heard of no request.
fn serving<D: Plant>(alloc: Global, cluster: Cluster, index: u8, node: Node<D>) -> State<D>
    requires here { index < cluster }
    requires new { node.state ≡ first_state cluster index }
    ensures after { target_as D.shown cluster index result ≡ founded cluster index (D.shown node.disk) }
    ensures place { IsPlacedAs cluster index result }
{
    State::Serving(Served {
        alloc,
        cluster,
        index,
        node,
        coordinator: Coordinator::new(alloc, cluster, index, 1),
        sent_mark: 0,
    })
}

/// Formats a disk as that of a target of a new cluster, which serves then.
fn format<D: Plant>(
    alloc: Global,
    cluster: Cluster,
    index: u8,
    disk: D,
) -> (State<D>, Result<(), Memory>)
    requires here { index < cluster }
    ensures founds { OnOk result.1 (FoundsOn cluster index (D.shown disk) (target_as D.shown cluster index result.0)) }
    ensures touches { Touches (D.shown disk) (target_as D.shown cluster index result.0).disk }
    ensures place { IsPlacedAs cluster index result.0 }
{
    match Node::format(alloc, cluster, index, disk) {
        Ok(node) => (serving(alloc, cluster, index, node), Ok(())),
        Err(NodeDown::Disk(disk)) => (State::Down(Halted::new(disk, false)), Ok(())),
        Err(NodeDown::Memory(disk)) => (State::Down(Halted::new(disk, false)), Err(Memory)),
    }
}

/// A target that was opened, with the line that says so.
fn opened<D: Plant>(
    alloc: Global,
    cluster: Cluster,
    index: u8,
    node: Node<D>,
) -> (State<D>, Result<Line, Memory>)
    ensures line { IfOk result.1 (λ line. line ≡ says_up (target_opened cluster index node.state (D.shown node.disk))) }
    ensures after { result.0 ≡ State.Opened node }
{
    match held_numbers(alloc, &node) {
        Ok(numbers) => {
            let line = Line::Up {
                target: index,
                transno: node.transno(),
                numbers,
            };
            (State::Opened(node), Ok(line))
        }
        Err(_) => (State::Opened(node), Err(Memory)),
    }
}

/// Starts from what a disk holds.
fn open<D: Plant>(
    alloc: Global,
    cluster: Cluster,
    index: u8,
    disk: D,
) -> (State<D>, Result<Line, Memory>)
    ensures opens { IfOk result.1 (λ line. Opens cluster index (D.shown disk) line (target_as D.shown cluster index result.0)) }
    ensures touches { Touches (D.shown disk) (target_as D.shown cluster index result.0).disk }
    ensures place { IsPlacedAs cluster index result.0 }
{
    match Node::open(alloc, cluster, index, disk) {
        Ok(node) => opened(alloc, cluster, index, node),
        Err(NodeOpenFault::Disk(disk)) => {
            (State::Down(Halted::new(disk, true)), Ok(Line::Down(index)))
        }
        Err(NodeOpenFault::Damaged(disk, gates)) => (
            State::Down(Halted::new(disk, true)),
            Ok(Line::DamagedGates {
                target: index,
                gates,
            }),
        ),
        Err(NodeOpenFault::BadImage(disk, place)) => (
            State::Down(Halted::new(disk, true)),
            Ok(Line::DamagedImage {
                target: index,
                place,
            }),
        ),
        Err(NodeOpenFault::Memory(disk)) => (State::Down(Halted::new(disk, true)), Err(Memory)),
    }
}

/// Formats a disk whose formatting failed.
fn format_again<D: Plant>(
    alloc: Global,
    cluster: Cluster,
    index: u8,
    disk: D,
) -> (State<D>, Result<Line, Memory>)
    ensures reformats { IfOk result.1 (λ line. Reformats cluster index (D.shown disk) line (target_as D.shown cluster index result.0)) }
    ensures touches { Touches (D.shown disk) (target_as D.shown cluster index result.0).disk }
    ensures place { IsPlacedAs cluster index result.0 }
{
    match Node::format(alloc, cluster, index, disk) {
        Ok(node) => opened(alloc, cluster, index, node),
        Err(NodeDown::Disk(disk)) => (State::Down(Halted::new(disk, false)), Ok(Line::Down(index))),
        Err(NodeDown::Memory(disk)) => (State::Down(Halted::new(disk, false)), Err(Memory)),
    }
}

/// Starts from a disk that was stopped and started: from what it holds, or, where its formatting had failed, by
/// formatting it again.
fn begin<D: Plant>(
    alloc: Global,
    cluster: Cluster,
    index: u8,
    halted: Halted<D>,
) -> (State<D>, Result<Line, Memory>)
    ensures begins { IfOk result.1 (λ line. Begins halted.formatted cluster index (D.shown halted.disk) line (target_as D.shown cluster index result.0)) }
    ensures touches { Touches (D.shown halted.disk) (target_as D.shown cluster index result.0).disk }
    ensures place { IsPlacedAs cluster index result.0 }
{
    let Halted { disk, formatted } = halted;
    if formatted {
        open(alloc, cluster, index, disk)
    } else {
        format_again(alloc, cluster, index, disk)
    }
}

/// Stops a disk and starts it again. After a fault it is given back as it is.
fn cycle<D: Plant>(disk: D) -> Result<D, D>
    ensures ok { IfOk result (λ d. Cycled (calls_of D.cycled D.armed) (D.shown disk) (D.shown d)) }
    ensures err { IfErr result (λ d. StaysOff (calls_of D.cycled D.armed) (D.shown disk) (D.shown d)) }
{
    let mut disk = disk;
    match disk.power_cycle() {
        Ok(()) => Ok(disk),
        Err(_) => Err(disk),
    }
}

/// Stops and starts a disk, and starts from it.
fn start<D: Plant>(
    alloc: Global,
    cluster: Cluster,
    index: u8,
    stopped: Halted<D>,
) -> (State<D>, Result<Line, Memory>)
    ensures does { IfOk result.1 (λ line. Restarts (calls_of D.cycled D.armed) (target_down cluster index stopped.formatted (D.shown stopped.disk)) line (target_as D.shown cluster index result.0)) }
    ensures touches { Touches (D.shown stopped.disk) (target_as D.shown cluster index result.0).disk }
    ensures place { IsPlacedAs cluster index result.0 }
{
    let Halted { disk, formatted } = stopped;
    match cycle(disk) {
        Ok(disk) => begin(alloc, cluster, index, Halted::new(disk, formatted)),
        Err(disk) => (
            State::Down(Halted::new(disk, formatted)),
            Ok(Line::Down(index)),
        ),
    }
}

impl<D: Plant> Target<D> {
    /// Makes it a target of a new cluster, which serves then, or stays down where its disk fails.
    #[tactic(auto, using(crate::proofs::Placed::placed_here, crate::proofs::Placed::placed_founds, crate::proofs::Placed::placed_touches, crate::proofs::Placed::placed_same))]
    pub fn found(&mut self) -> Result<(), Memory>
        requires here { self.old.index < self.old.targets }
        ensures founds { OnOk result (Founds self.old self.new) }
        ensures touches { Touches self.old.disk self.new.disk }
        ensures place { (self.new.targets ≡ self.old.targets) × (self.new.index ≡ self.old.index) }
    {
        match self.state.take() {
            Some(state) => {
                let disk = state.into_halted().disk;
                let (state, made) = format(self.alloc, self.cluster, self.index, disk);
                self.state = Some(state);
                made
            }
            None => unreachable!(),
        }
    }

    /// Starts it from its disk, and gives the line that says what came of it. For want of memory it stays down.
    #[tactic(auto, using(crate::proofs::Placed::placed_restarts, crate::proofs::Placed::placed_touches, crate::proofs::Placed::placed_same))]
    fn start(&mut self) -> Result<Line, Memory>
        requires down { is_down self.old.standing ≡ true }
        ensures does { IfOk result (λ line. Restarts (calls_of D.cycled D.armed) self.old line self.new) }
        ensures touches { Touches self.old.disk self.new.disk }
        ensures place { (self.new.targets ≡ self.old.targets) × (self.new.index ≡ self.old.index) }
    {
        match self.state.take() {
            Some(state) => {
                let (state, line) = start(
                    self.alloc,
                    self.cluster,
                    self.index,
                    state.into_halted(),
                );
                self.state = Some(state);
                line
            }
            None => unreachable!(),
        }
    }

    /// Starts it, where it is down, and adds the line that says what came of it, or what it does where it isn't.
    pub fn restart(&mut self, lines: &mut Lines) -> Result<(), Memory>
        ensures does { OnOk result ((line : Line) × Restarts (calls_of D.cycled D.armed) self.old line self.new × (lines.new ≡ lines.old ++ line ∷ [])) }
        ensures touches { Touches self.old.disk self.new.disk }
        ensures place { (self.new.targets ≡ self.old.targets) × (self.new.index ≡ self.old.index) }
    {
        if !self.is_down() {
            return lines.push(self.state_line());
        }
        let line = self.start()?;
        lines.push(line)
    }
}
