//! The targets of a cluster while none serves, and how they are handed back.

ghost use Rattle.std.specs.Prelude.{◌≡◌, ◌≤◌, ◌<◌, ◌+◌, ◌++◌, ℕ, length, map, take, true, false, [], IfOk, IfErr, OnOk, if◌then◌else◌};
ghost use Rattle.std.specs.List.{flat_map, list_any};
ghost use Rattle.std.specs.Vec.{vec_len, vec_capacity};
ghost use Rattle.target_node.specs.Node.{NodeState};
ghost use Rattle.update_recovery.specs.declared.standing.Standing.{Standing};
ghost use Rattle.update_recovery.specs.declared.standing.Standing.TheVariants as standing;
ghost use Rattle.update_recovery.specs.Steps.{AllCame, HasStopped, HasLost, WhereHalted, WhereLost, told_from};
ghost use Rattle.update_recovery.specs.Redoing.{RedoesAt, BreaksRedoing, KeepsDisk, redone_at};
ghost use Rattle.update_recovery.specs.Resuming.{Resumes, BreaksResuming};
ghost use Rattle.update_recovery.specs.Gathering.{is_down, nodes_in, stopped_at};

use crate::bounds::Bounds;
use crate::found::Found;
use crate::halt::Halt;
use crate::listed::Listed;
use crate::redoing::redo_all;
use crate::resuming::resume_all;
use crate::standing::Standing;
use outside::Disk;
use std::alloc::{AllocError as Memory, Global};
use std::collections::BTreeSet;
use std::marker::Model;
use target_node::Node;

/// The nodes of all targets, in their order. Contracts see these alone; beside them is the memory in which the
/// targets are handed back.
#[derive(Drop)]
pub(crate) struct Nodes<D: Disk> {
    nodes: Vec<Node<D>>,
    room: Vec<Standing<D>>,
}

impl<D: Disk> Model for Nodes<D> {
    ghost use Rattle.std.specs.Prelude.{◌≡◌, ◌≤◌, ◌+◌, List, []};
    ghost use Rattle.std.specs.Vec.{vec_len, vec_capacity};
    ghost use Rattle.std.specs.Coded.{codes};
    ghost use Rattle.object_store.specs.Objects.{coded_objects};
    ghost use Rattle.commit_sharing.specs.Pending.{coded_writers};
    ghost use Rattle.target_node.specs.Node.{NodeState};

    ghost Value = { List (NodeState D) };

    ghost coded = { Prim.hlevel (codes, coded_objects, coded_writers) };

    ghost view = { λ n. n.nodes.items };

    ghost invariant = { λ n. (vec_len n.nodes ≤ 16) × (n.room.items ≡ []) × (vec_len n.room + vec_len n.nodes ≤ vec_capacity n.room) };
}

/// Moves the nodes of targets, none of which is down, to the end of others. No one holds them any more.
fn moved<D: Disk>(targets: Vec<Standing<D>>, nodes: Vec<Node<D>>) -> Vec<Node<D>>
    requires up { list_any is_down targets.items ≡ false }
    requires none { nodes.items ≡ [] }
    requires room { vec_len nodes + vec_len targets ≤ vec_capacity nodes }
    ensures items { result.items ≡ flat_map nodes_in targets.items }
    ensures len { vec_len result ≡ vec_len targets }
{
    let mut nodes = nodes;
    for target in targets {
        match target {
            Standing::Serving(node) => {
                let mut node = node;
                node.enter_recovery();
                nodes.push_reserved(node);
            }
            Standing::Opened(node) => {
                let mut node = node;
                node.enter_recovery();
                nodes.push_reserved(node);
            }
            Standing::Down(_) => unreachable!(),
        }
    }
    nodes
}

/// A target that has stopped: down, or opened.
fn stopped_one<D: Disk>(node: Node<D>, down: bool) -> Standing<D>
    ensures { result ≡ (if down then standing.Down node.disk else standing.Opened node) }
{
    if down {
        Standing::Down(node.crash())
    } else {
        Standing::Opened(node)
    }
}

/// Moves nodes into a list, in which the target at a place is down and the others are opened.
fn stopped<D: Disk>(nodes: Vec<Node<D>>, room: Vec<Standing<D>>, down: u8) -> Vec<Standing<D>>
    requires few { vec_len nodes ≤ 16 }
    requires none { room.items ≡ [] }
    requires room { vec_len room + vec_len nodes ≤ vec_capacity room }
    ensures { result.items ≡ told_from (stopped_at down) 0 nodes.items }
{
    let mut targets = room;
    let mut place = 0;
    for node in nodes {
        targets.push_reserved(stopped_one(node, place == down));
        place += 1;
    }
    targets
}

/// Moves nodes into a list, in which all are opened.
fn opened<D: Disk>(nodes: Vec<Node<D>>, room: Vec<Standing<D>>) -> Vec<Standing<D>>
    requires none { room.items ≡ [] }
    requires room { vec_len room + vec_len nodes ≤ vec_capacity room }
    ensures { result.items ≡ map standing.Opened nodes.items }
{
    let mut targets = room;
    for node in nodes {
        targets.push_reserved(Standing::Opened(node));
    }
    targets
}

/// Moves nodes into a list, in which all serve.
fn serving<D: Disk>(nodes: Vec<Node<D>>, room: Vec<Standing<D>>) -> Vec<Standing<D>>
    requires none { room.items ≡ [] }
    requires room { vec_len room + vec_len nodes ≤ vec_capacity room }
    ensures { result.items ≡ map standing.Serving nodes.items }
{
    let mut targets = room;
    for node in nodes {
        targets.push_reserved(Standing::Serving(node));
    }
    targets
}

/// The memory for the nodes of so many targets, and that in which these are handed back.
pub(crate) fn reserved<D: Disk>(
    alloc: Global,
    count: usize,
) -> Result<(Vec<Node<D>>, Vec<Standing<D>>), Memory>
    ensures nodes { IfOk result (λ r. (r.0.items ≡ []) × (vec_len r.0 + count ≤ vec_capacity r.0)) }
    ensures room { IfOk result (λ r. (r.1.items ≡ []) × (vec_len r.1 + count ≤ vec_capacity r.1)) }
{
    let nodes = Vec::with_capacity(alloc, count)?;
    let room = Vec::with_capacity(alloc, count)?;
    Ok((nodes, room))
}

impl<D: Disk> Nodes<D> {
    /// Those of targets none of which is down, in the memory that was reserved. No one holds them any more.
    #[tactic(auto, using(crate::proofs::Begun::nodes_long))]
    pub(crate) fn of(
        targets: Vec<Standing<D>>,
        nodes: Vec<Node<D>>,
        room: Vec<Standing<D>>,
    ) -> Nodes<D>
        requires few { vec_len targets ≤ 16 }
        requires up { list_any is_down targets.items ≡ false }
        requires none { nodes.items ≡ [] }
        requires memory { vec_len nodes + vec_len targets ≤ vec_capacity nodes }
        requires no_room { room.items ≡ [] }
        requires room { vec_len room + vec_len targets ≤ vec_capacity room }
        ensures nodes { result ≡ flat_map nodes_in targets.items }
        ensures long { length result ≡ length targets.items }
    {
        let nodes = moved(targets, nodes);
        Nodes { nodes, room }
    }

    /// Lends the nodes.
    pub(crate) fn as_slice(&self) -> &[Node<D>]
        ensures { result.now ≡ self.now }
    {
        self.nodes.as_slice()
    }

    /// Does what each lacks again, as [`redo_all`] does.
    pub(crate) fn redo(
        &mut self,
        alloc: Global,
        bounds: &Bounds,
        union: &BTreeSet<Found>,
        redone: &mut Listed,
    ) -> Result<(), Halt>
        ensures done { OnOk result (AllCame (RedoesAt D.shown bounds.now.epoch bounds.now.marks.items union.now.keys) self.old self.new) }
        ensures stopped { WhereHalted result (λ place. HasStopped (RedoesAt D.shown bounds.now.epoch bounds.now.marks.items union.now.keys) (BreaksRedoing D.shown bounds.now.epoch bounds.now.marks.items union.now.keys) place self.old self.new) }
        ensures lost { WhereLost result (HasLost (RedoesAt D.shown bounds.now.epoch bounds.now.marks.items union.now.keys) KeepsDisk self.old self.new) }
        ensures told { OnOk result (redone.new ≡ redone.old ++ told_from (redone_at bounds.now.epoch bounds.now.marks.items union.now.keys) 0 self.old) }
        ensures told_before { WhereHalted result (λ place. redone.new ≡ redone.old ++ told_from (redone_at bounds.now.epoch bounds.now.marks.items union.now.keys) 0 (take place self.old)) }
    {
        redo_all(alloc, bounds, union, self.nodes.as_mut_slice(), redone)
    }

    /// Ends the recovery of each, as [`resume_all`] does.
    pub(crate) fn resume(&mut self, epoch: u32) -> Result<(), u8>
        ensures done { OnOk result (AllCame (Resumes D.shown epoch) self.old self.new) }
        ensures stopped { IfErr result (λ place. HasStopped (Resumes D.shown epoch) (BreaksResuming D.shown epoch) place self.old self.new) }
    {
        resume_all(self.nodes.as_mut_slice(), epoch)
    }

    /// Hands the targets back, one of them down and the others opened.
    #[tactic(auto, using(crate::proofs::Coming::stopped_long))]
    pub(crate) fn stopped(self, down: u8) -> Vec<Standing<D>>
        ensures items { result.items ≡ told_from (stopped_at down) 0 self }
        ensures long { length result.items ≡ length self }
    {
        let Nodes { nodes, room } = self;
        stopped(nodes, room, down)
    }

    /// Hands the targets back, all opened.
    pub(crate) fn opened(self) -> Vec<Standing<D>>
        ensures items { result.items ≡ map standing.Opened self }
        ensures long { length result.items ≡ length self }
    {
        let Nodes { nodes, room } = self;
        opened(nodes, room)
    }

    /// Hands the targets back, which serve all.
    pub(crate) fn serving(self) -> Vec<Standing<D>>
        ensures items { result.items ≡ map standing.Serving self }
        ensures long { length result.items ≡ length self }
    {
        let Nodes { nodes, room } = self;
        serving(nodes, room)
    }
}
