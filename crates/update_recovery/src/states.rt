//! The states of a recovery. Each owns all targets of a cluster, and only from the one before comes the next.

ghost use Rattle.std.specs.Prelude.{◌≡◌, ◌⊎◌, ◌≤◌, ◌++◌, ℕ, None, Some, ◌+◌, [], length, map, take, false, IfOk, OnOk};
ghost use Rattle.std.specs.List.{flat_map, list_any};
ghost use Rattle.std.specs.Vec.{vec_len, vec_capacity};
ghost use Rattle.update_recovery.specs.declared.standing.Standing.TheVariants as standing;
ghost use Rattle.update_recovery.specs.declared.report.Report.{Report};
ghost use Rattle.update_recovery.specs.Steps.{AllCame};
ghost use Rattle.update_recovery.specs.Gathering.{is_down};
ghost use Rattle.update_recovery.specs.Resuming.{Resumes};
ghost use Rattle.update_recovery.specs.States.{lowest_down, AreIdle, IsUnionOf, states, WhereStopped, StopsAt, WhereNoMemory, HasAll, HandsAll, NothingDone, HandsBack, GatheredAs, StoppedGathering, LostGathering, RedoneAs, StoppedRedoing, LostRedoing, StoppedResuming};

use crate::bounds::Bounds;
use crate::found::Found;
use crate::gathering::gather_targets;
use crate::halt::Halt;
use crate::listed::Listed;
use crate::nodes::{Nodes, reserved};
use crate::report::{Report, Stop};
use crate::standing::Standing;
use outside::Disk;
use std::alloc::{AllocError as Memory, Global};
use std::collections::BTreeSet;
use std::marker::Model;
use target_node::Node;

/// All targets of a cluster, in their order, before a recovery.
#[derive(Drop)]
pub struct Closed<D: Disk> {
    alloc: Global,
    targets: Vec<Standing<D>>,
}

impl<D: Disk> Model for Closed<D> {
    ghost use Rattle.std.specs.Prelude.{◌≤◌, List};
    ghost use Rattle.std.specs.Vec.{vec_len};
    ghost use Rattle.std.specs.Coded.{codes};
    ghost use Rattle.object_store.specs.Objects.{coded_objects};
    ghost use Rattle.commit_sharing.specs.Pending.{coded_writers};
    ghost use Rattle.update_recovery.specs.declared.standing.Standing.{Standing};

    ghost Value = { List (Standing D) };

    ghost coded = { Prim.hlevel (codes, coded_objects, coded_writers) };

    ghost view = { λ c. c.targets.items };

    ghost invariant = { λ c. vec_len c.targets ≤ 16 };
}

/// All targets, none of which serves and nothing of which waits to be committed, with the records that are to be
/// durable on all of them.
#[derive(Drop)]
pub struct Gathered<D: Disk> {
    alloc: Global,
    nodes: Nodes<D>,
    bounds: Bounds,
    union: BTreeSet<Found>,
    next: u32,
    report: Report,
}

impl<D: Disk> Model for Gathered<D> {
    ghost use Rattle.std.specs.Coded.{codes};
    ghost use Rattle.object_store.specs.Objects.{coded_objects};
    ghost use Rattle.commit_sharing.specs.Pending.{coded_writers};
    ghost use Rattle.update_recovery.specs.States.{Gathering, AreIdle};

    ghost Value = { Gathering D };

    ghost coded = { Prim.hlevel (codes, coded_objects, coded_writers) };

    ghost view = { λ g. record { nodes = g.nodes; bounds = g.bounds; union = g.union; next = g.next; report = g.report } };

    ghost invariant = { λ g. AreIdle g.nodes };
}

/// All targets, on each of which these records are durable.
#[derive(Drop)]
pub struct Redone<D: Disk> {
    nodes: Nodes<D>,
    epoch: u32,
    report: Report,
}

impl<D: Disk> Model for Redone<D> {
    ghost use Rattle.std.specs.Coded.{codes};
    ghost use Rattle.object_store.specs.Objects.{coded_objects};
    ghost use Rattle.commit_sharing.specs.Pending.{coded_writers};
    ghost use Rattle.update_recovery.specs.States.{Renewing};

    ghost Value = { Renewing D };

    ghost coded = { Prim.hlevel (codes, coded_objects, coded_writers) };

    ghost view = { λ g. record { nodes = g.nodes; epoch = g.epoch; report = g.report } };
}

/// All targets, in a new epoch and with empty logs.
#[derive(Drop)]
pub struct Serving<D: Disk> {
    nodes: Nodes<D>,
    epoch: u32,
    report: Report,
}

impl<D: Disk> Model for Serving<D> {
    ghost use Rattle.std.specs.Coded.{codes};
    ghost use Rattle.object_store.specs.Objects.{coded_objects};
    ghost use Rattle.commit_sharing.specs.Pending.{coded_writers};
    ghost use Rattle.update_recovery.specs.States.{Renewing};

    ghost Value = { Renewing D };

    ghost coded = { Prim.hlevel (codes, coded_objects, coded_writers) };

    ghost view = { λ g. record { nodes = g.nodes; epoch = g.epoch; report = g.report } };
}

/// Whether a target is down.
fn is_down<D: Disk>(target: &Standing<D>) -> bool
    ensures { result ≡ is_down target.now }
{
    match target {
        Standing::Serving(_) => false,
        Standing::Opened(_) => false,
        Standing::Down(_) => true,
    }
}

/// The lowest target that is down.
fn lowest_down<D: Disk>(targets: &[Standing<D>]) -> Option<u8>
    requires { length targets.now ≤ 16 }
    ensures lowest { result ≡ lowest_down 0 targets.now }
    ensures none { result ≡ None → list_any is_down targets.now ≡ false }
{
    for place in 0..targets.len() {
        if is_down(&targets[place]) {
            return Some(place as u8);
        }
    }
    None
}

/// Hands the targets back where a step stopped.
fn stopped<D: Disk>(nodes: Nodes<D>, halt: Halt, report: Report) -> Stop<D>
    ensures hands { HandsBack halt nodes report result }
    ensures long { HasAll (length nodes) result }
{
    match halt {
        Halt::Disk(missing) => Stop::Stopped {
            targets: nodes.stopped(missing),
            missing,
            report,
        },
        Halt::Memory => Stop::Memory {
            targets: nodes.opened(),
        },
    }
}

/// The bounds of what a recovery does again, the union of the logs, and the epoch above the greatest. That there is
/// none above it is answered as want of memory: no cluster comes so far.
fn union_of<D: Disk>(
    alloc: Global,
    nodes: &Nodes<D>,
) -> Result<(Bounds, BTreeSet<Found>, u32), Memory>
    ensures taken { IfOk result (λ r. IsUnionOf (states nodes.now) r.0 r.1) }
    ensures above { IfOk result (λ r. r.2 ≡ r.0.epoch + 1) }
{
    let bounds = Bounds::of(alloc, nodes.as_slice())?;
    let union = bounds.of_targets(alloc, nodes.as_slice())?;
    match bounds.epoch.checked_add(1) {
        None => Err(Memory),
        Some(next) => Ok((bounds, union, next)),
    }
}

/// Commits what is to be committed at first, and takes the union from all logs, in the memory that was reserved.
fn gather_up<D: Disk>(
    alloc: Global,
    targets: Vec<Standing<D>>,
    memory: (Vec<Node<D>>, Vec<Standing<D>>),
    report: Report,
) -> Result<Gathered<D>, Stop<D>>
    requires few { vec_len targets ≤ 16 }
    requires up { list_any is_down targets.items ≡ false }
    requires nodes { (memory.0.items ≡ []) × (vec_len memory.0 + vec_len targets ≤ vec_capacity memory.0) }
    requires room { (memory.1.items ≡ []) × (vec_len memory.1 + vec_len targets ≤ vec_capacity memory.1) }
    requires none { (report.stable ≡ []) × (report.redone ≡ []) }
    ensures done { IfOk result (λ g. GatheredAs D.shown targets.items g.nodes g.bounds g.union g.next g.report) }
    ensures stopped { WhereStopped result (λ handed missing told. StoppedGathering D.shown targets.items handed missing told) }
    ensures lost { WhereNoMemory result (λ handed. LostGathering D.shown targets.items handed) }
    ensures long { HandsAll (length targets.items) result }
{
    let mut targets = targets;
    let mut report = report;
    let (nodes, room) = memory;
    let gathered = gather_targets(&mut targets, &mut report.stable);
    let nodes = Nodes::of(targets, nodes, room);
    match gathered {
        Err(halt) => Err(stopped(nodes, halt, report)),
        Ok(()) => match union_of(alloc, &nodes) {
            Ok((bounds, union, next)) => Ok(Gathered {
                alloc,
                nodes,
                bounds,
                union,
                next,
                report,
            }),
            Err(_) => Err(Stop::Memory {
                targets: nodes.opened(),
            }),
        },
    }
}

impl<D: Disk> Closed<D> {
    /// The targets of a cluster, 16 at most, each at its place.
    pub fn new(alloc: Global, targets: Vec<Standing<D>>) -> Closed<D>
        requires { vec_len targets ≤ 16 }
        ensures { result ≡ targets.items }
    {
        Closed { alloc, targets }
    }

    /// Commits each target that serves, and each that was opened and has what waits, and takes from all logs the
    /// live records that are to be durable on all their targets. Where a target is down, nothing is done.
    pub fn gather(self) -> Result<Gathered<D>, Stop<D>>
        ensures down { (place : ℕ) → lowest_down 0 self ≡ Some place → StopsAt result (λ targets missing report. NothingDone self place targets missing report) }
        ensures done { IfOk result (λ g. GatheredAs D.shown self g.nodes g.bounds g.union g.next g.report) }
        ensures stopped { lowest_down 0 self ≡ None → WhereStopped result (λ targets missing report. StoppedGathering D.shown self targets missing report) }
        ensures lost { WhereNoMemory result (λ targets. (targets ≡ self) ⊎ LostGathering D.shown self targets) }
        ensures long { HandsAll (length self) result }
    {
        let Closed { alloc, targets } = self;
        let report = Report {
            stable: Listed::new(alloc),
            redone: Listed::new(alloc),
        };
        if let Some(missing) = lowest_down(targets.as_slice()) {
            return Err(Stop::Stopped {
                targets,
                missing,
                report,
            });
        }
        match reserved(alloc, targets.len()) {
            Ok(memory) => gather_up(alloc, targets, memory, report),
            Err(_) => Err(Stop::Memory { targets }),
        }
    }
}

impl<D: Disk> Gathered<D> {
    /// Does on each target, one after another, what its log lacks of these records again, in their order, and
    /// commits a target that lacked one.
    pub fn redo(self) -> Result<Redone<D>, Stop<D>>
        ensures done { IfOk result (λ r. RedoneAs D.shown self.bounds self.union self.nodes r.nodes self.report r.report) }
        ensures epoch { IfOk result (λ r. r.epoch ≡ self.next) }
        // Nothing waits to be committed.
        ensures idle { IfOk result (λ r. AreIdle r.nodes) }
        ensures stopped { WhereStopped result (λ targets missing report. StoppedRedoing D.shown self.bounds self.union self.nodes targets missing self.report report) }
        ensures lost { WhereNoMemory result (λ targets. LostRedoing D.shown self.bounds self.union self.nodes targets) }
        ensures long { HandsAll (length self.nodes) result }
    {
        let Gathered {
            alloc,
            nodes,
            bounds,
            union,
            next,
            report,
        } = self;
        let mut nodes = nodes;
        let mut report = report;
        match nodes.redo(alloc, &bounds, &union, &mut report.redone) {
            Ok(()) => Ok(Redone {
                nodes,
                epoch: next,
                report,
            }),
            Err(halt) => Err(stopped(nodes, halt, report)),
        }
    }
}

impl<D: Disk> Redone<D> {
    /// Empties on each target, one after another, the log, sets the epoch and commits. It takes no memory.
    pub fn resume(self) -> Result<Serving<D>, Stop<D>>
        ensures done { IfOk result (λ s. AllCame (Resumes D.shown self.epoch) self.nodes s.nodes × (s.epoch ≡ self.epoch) × (s.report ≡ self.report)) }
        ensures stopped { WhereStopped result (λ targets missing report. StoppedResuming D.shown self.epoch self.nodes targets missing × (report ≡ self.report)) }
        ensures never { WhereNoMemory result (λ targets. ⊥) }
        ensures long { HandsAll (length self.nodes) result }
    {
        let Redone {
            nodes,
            epoch,
            report,
        } = self;
        let mut nodes = nodes;
        match nodes.resume(epoch) {
            Ok(()) => Ok(Serving {
                nodes,
                epoch,
                report,
            }),
            Err(missing) => Err(Stop::Stopped {
                targets: nodes.stopped(missing),
                missing,
                report,
            }),
        }
    }
}

impl<D: Disk> Serving<D> {
    /// The targets, which all serve, their epoch, and the report.
    pub fn finish(self) -> (Vec<Standing<D>>, u32, Report)
        ensures targets { result.0.items ≡ map standing.Serving self.nodes }
        ensures long { length result.0.items ≡ length self.nodes }
        ensures epoch { result.1 ≡ self.epoch }
        ensures report { result.2 ≡ self.report }
    {
        let Serving {
            nodes,
            epoch,
            report,
        } = self;
        (nodes.serving(), epoch, report)
    }
}
