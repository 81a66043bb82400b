ghost use Rattle.std.specs.Prelude.{◌≡◌, [], IfOk};
ghost use Rattle.tree_model.specs.Step.{kind_fault};
ghost use Rattle.tree_model.specs.declared.reply.Reply.TheVariants as replies;
ghost use Rattle.plan_base.specs.Stops.{Reaches};
ghost use Rattle.plan_base.specs.Asks.{answer};
ghost use Rattle.plan_base.specs.Planning.{settled, is_dir_seen, layout_seen, released, changes_parent, parent_change, moved_with, over_asks, place_asks, move_asks, rename_asks};
ghost use Rattle.cross_rename.specs.Moves.{move_of};
ghost use Rattle.cross_rename.specs.Kept.{MayKeep};

use crate::walks::{Walked, walk};
use fid_space::Fid;
use out_update::Parts;
use plan_base::{Outcome, PlanState, Seen, Stop, entry_at, is_directory, node_place, stripes_gone};
use std::alloc::{AllocError as Memory, Global};
use striped_dir::Layout;
use tree_model::{Errno, Name, Reply};

/// A name of one directory that goes to another one, and stands for the moved node.
#[derive(Clone, Copy)]
pub(crate) struct Moving {
    pub(crate) parent: Fid,
    pub(crate) from: Seen,
    pub(crate) to_parent: Fid,
    pub(crate) to: Seen,
    pub(crate) moved: Fid,
    pub(crate) node: Option<Seen>,
}

fn is_dir(seen: Option<Seen>) -> bool
    ensures { result ≡ is_dir_seen seen }
{
    match seen {
        Some(seen) => is_directory(&seen),
        None => false,
    }
}

fn layout_of(seen: Option<Seen>) -> Layout
    ensures { result ≡ layout_seen seen }
{
    match seen {
        Some(seen) => seen.body.layout,
        None => Layout {
            count: 0,
            start: 0,
            generation: 0,
        },
    }
}

/// Whether a node of this kind may come in the place of one of that kind.
fn kind_fault(moved: bool, old: bool) -> Option<Errno>
    ensures { result ≡ kind_fault moved old }
{
    match (moved, old) {
        (true, false) => Some(Errno::ENOTDIR),
        (false, true) => Some(Errno::EISDIR),
        _ => None,
    }
}

/// The answer of a rename without change.
fn nothing(alloc: Global) -> Outcome
    ensures { result ≡ settled replies.Ok [] }
{
    Outcome {
        reply: Reply::Ok,
        placed: Parts::new(alloc),
    }
}

/// Moves a name.
pub(crate) fn rename(
    plan: &PlanState,
    walked: &mut Option<Walked>,
    parent: Fid,
    name: &Name,
    to_parent: Fid,
    to_name: &Name,
) -> Result<Outcome, Stop>
    requires { MayKeep plan.now.told walked.old }
    ensures reaches { Reaches (λ x. x) result (answer plan.now.told (rename_asks plan.now.targets plan.now.batch parent name.now to_parent to_name.now)) }
    ensures walked { MayKeep plan.now.told walked.new }
{
    let facts = plan.facts();
    let from = facts.directory(parent)?;
    let Some(moved) = facts.entry(plan.alloc(), parent, from.body.layout, name)? else {
        return Err(Stop::Refused(Errno::ENOENT));
    };
    let to = facts.directory(to_parent)?;
    if parent == to_parent && *name == *to_name {
        return Ok(nothing(plan.alloc()));
    }
    let node = facts.node(moved)?;
    let moving = Moving {
        parent,
        from,
        to_parent,
        to,
        moved,
        node,
    };
    move_to(plan, walked, moving, name, to_name)
}

/// The walk, where a directory changes its parent, and what comes behind it.
fn move_to(
    plan: &PlanState,
    walked: &mut Option<Walked>,
    m: Moving,
    name: &Name,
    to_name: &Name,
) -> Result<Outcome, Stop>
    requires { MayKeep plan.now.told walked.old }
    ensures reaches { Reaches (λ x. x) result (answer plan.now.told (move_asks (move_of plan.now.targets plan.now.batch m name.now to_name.now))) }
    ensures walked { MayKeep plan.now.told walked.new }
{
    if !changes_parent(m) {
        return place(plan, m, name, to_name);
    }
    walk(plan.facts(), walked, m.moved, m.to_parent)?;
    place(plan, m, name, to_name)
}

/// What stands at the new name, and what comes behind it.
fn place(plan: &PlanState, m: Moving, name: &Name, to_name: &Name) -> Result<Outcome, Stop>
    ensures { Reaches (λ x. x) result (answer plan.now.told (place_asks (move_of plan.now.targets plan.now.batch m name.now to_name.now))) }
{
    match plan
        .facts()
        .entry(plan.alloc(), m.to_parent, m.to.body.layout, to_name)?
    {
        None => Ok(moved(plan, m, name, to_name, &Parts::new(plan.alloc()))?),
        Some(old) => replace(plan, m, name, to_name, old),
    }
}

/// Whether the old node may be replaced.
fn replace(
    plan: &PlanState,
    m: Moving,
    name: &Name,
    to_name: &Name,
    old: Fid,
) -> Result<Outcome, Stop>
    ensures { Reaches (λ x. x) result (answer plan.now.told (over_asks (move_of plan.now.targets plan.now.batch m name.now to_name.now) old)) }
{
    if m.moved == old {
        return Ok(nothing(plan.alloc()));
    }
    let other = plan.facts().node(old)?;
    if let Some(errno) = kind_fault(is_dir(m.node), is_dir(other)) {
        return Err(Stop::Refused(errno));
    }
    if is_dir(other) && !plan.facts().is_empty(old, layout_of(other))? {
        return Err(Stop::Refused(Errno::ENOTEMPTY));
    }
    let gone = released(plan, old, other)?;
    Ok(moved(plan, m, name, to_name, &gone)?)
}

/// The updates of a node whose name goes.
fn released(plan: &PlanState, fid: Fid, seen: Option<Seen>) -> Result<Parts, Memory>
    ensures { IfOk result (λ placed. placed ≡ released plan.now.targets plan.now.batch fid seen) }
{
    let maker = plan.maker();
    let target = node_place(plan.cluster(), fid);
    if !is_dir(seen) {
        let mut placed = Parts::new(plan.alloc());
        maker.put(&mut placed, target, maker.take_link(fid))?;
        return Ok(placed);
    }
    let mut placed = stripes_gone(
        plan.alloc(),
        plan.cluster(),
        fid,
        layout_of(seen),
        maker.batch,
    )?;
    maker.put(&mut placed, target, maker.destroy(fid))?;
    Ok(placed)
}

/// The update of a directory that gets another parent.
fn parent_change(plan: &PlanState, m: Moving) -> Result<Parts, Memory>
    ensures { IfOk result (λ placed. placed ≡ parent_change plan.now.targets plan.now.batch m.moved m.node m.parent m.to_parent) }
{
    let mut placed = Parts::new(plan.alloc());
    if !changes_parent(m) {
        return Ok(placed);
    }
    let maker = plan.maker();
    let target = node_place(plan.cluster(), m.moved);
    maker.put(&mut placed, target, maker.set_parent(m.moved, m.to_parent)?)?;
    Ok(placed)
}

/// The outcome of a rename that changes something.
#[tactic(auto, unfolding(plan_base::specs::Planning::moved_with))]
fn moved(
    plan: &PlanState,
    m: Moving,
    name: &Name,
    to_name: &Name,
    gone: &Parts,
) -> Result<Outcome, Memory>
    ensures { IfOk result (λ o. o ≡ moved_with (move_of plan.now.targets plan.now.batch m name.now to_name.now) gone.now) }
{
    let maker = plan.maker();
    let cluster = plan.cluster();
    let (target, object) = entry_at(cluster, m.parent, m.from.body.layout, name);
    let (to_target, to_object) = entry_at(cluster, m.to_parent, m.to.body.layout, to_name);
    let mut placed = Parts::new(plan.alloc());
    maker.put(&mut placed, target, maker.delete(object, name)?)?;
    maker.put_all(&mut placed, gone)?;
    maker.put(
        &mut placed,
        to_target,
        maker.insert(to_object, to_name, m.moved)?,
    )?;
    maker.put_all(&mut placed, &parent_change(plan, m)?)?;
    Ok(Outcome {
        reply: Reply::Ok,
        placed,
    })
}

/// Whether a directory gets another parent.
fn changes_parent(m: Moving) -> bool
    ensures { result ≡ changes_parent m.node m.parent m.to_parent }
{
    is_dir(m.node) && m.parent != m.to_parent
}
