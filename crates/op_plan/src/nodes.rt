ghost use Rattle.std.specs.Prelude.{◌≡◌};
ghost use Rattle.plan_base.specs.Stops.{Reaches};
ghost use Rattle.plan_base.specs.Asks.{answer};
ghost use Rattle.plan_base.specs.Planning.{setattr_asks, setxattr_asks, delxattr_asks, getattr_asks, getxattr_asks};

use fid_space::{Bytes, Fid};
use out_update::Parts;
use plan_base::{Outcome, PlanState, Stop, copied, is_directory, node_place};
use tree_model::{Errno, Name, Reply};

/// Sets the mode, the owner and the group of a node.
pub(crate) fn set_access(
    plan: &PlanState,
    fid: Fid,
    mode: u16,
    uid: u32,
    gid: u32,
) -> Result<Outcome, Stop>
    ensures { Reaches (λ x. x) result (answer plan.now.told (setattr_asks plan.now.targets plan.now.batch fid mode uid gid)) }
{
    if plan.facts().node(fid)?.is_none() {
        return Err(Stop::Refused(Errno::ENOENT));
    }
    let maker = plan.maker();
    let mut placed = Parts::new(plan.alloc());
    maker.put(
        &mut placed,
        node_place(plan.cluster(), fid),
        maker.set_access(fid, mode, uid, gid)?,
    )?;
    Ok(Outcome {
        reply: Reply::Ok,
        placed,
    })
}

/// Sets an extended attribute.
pub(crate) fn set_value(
    plan: &PlanState,
    fid: Fid,
    name: &Name,
    value: &Bytes,
) -> Result<Outcome, Stop>
    ensures { Reaches (λ x. x) result (answer plan.now.told (setxattr_asks plan.now.targets plan.now.batch fid name.now value.now)) }
{
    let Some(seen) = plan.facts().node(fid)? else {
        return Err(Stop::Refused(Errno::ENOENT));
    };
    let is_new = plan.facts().value(plan.alloc(), fid, name)?.is_none();
    if is_new && seen.attributes >= 16 {
        return Err(Stop::Refused(Errno::ENOSPC));
    }
    let maker = plan.maker();
    let mut placed = Parts::new(plan.alloc());
    maker.put(
        &mut placed,
        node_place(plan.cluster(), fid),
        maker.set_value(fid, name, value)?,
    )?;
    Ok(Outcome {
        reply: Reply::Ok,
        placed,
    })
}

/// Removes an extended attribute.
pub(crate) fn take_value(plan: &PlanState, fid: Fid, name: &Name) -> Result<Outcome, Stop>
    ensures { Reaches (λ x. x) result (answer plan.now.told (delxattr_asks plan.now.targets plan.now.batch fid name.now)) }
{
    if plan.facts().node(fid)?.is_none() {
        return Err(Stop::Refused(Errno::ENOENT));
    }
    if plan.facts().value(plan.alloc(), fid, name)?.is_none() {
        return Err(Stop::Refused(Errno::ENODATA));
    }
    let maker = plan.maker();
    let mut placed = Parts::new(plan.alloc());
    maker.put(
        &mut placed,
        node_place(plan.cluster(), fid),
        maker.take_value(fid, name)?,
    )?;
    Ok(Outcome {
        reply: Reply::Ok,
        placed,
    })
}

/// What a node is, and who may do what with it.
pub(crate) fn get_access(plan: &PlanState, fid: Fid) -> Result<Outcome, Stop>
    ensures { Reaches (λ x. x) result (answer plan.now.told (getattr_asks fid)) }
{
    let Some(seen) = plan.facts().node(fid)? else {
        return Err(Stop::Refused(Errno::ENOENT));
    };
    Ok(Outcome {
        reply: Reply::Attr {
            dir: is_directory(&seen),
            mode: (seen.body.mode & 0xffff) as u16,
            uid: seen.body.uid,
            gid: seen.body.gid,
            links: seen.body.links,
        },
        placed: Parts::new(plan.alloc()),
    })
}

/// The value of an extended attribute.
pub(crate) fn get_value(plan: &PlanState, fid: Fid, name: &Name) -> Result<Outcome, Stop>
    ensures { Reaches (λ x. x) result (answer plan.now.told (getxattr_asks fid name.now)) }
{
    if plan.facts().node(fid)?.is_none() {
        return Err(Stop::Refused(Errno::ENOENT));
    }
    let Some(value) = plan.facts().value(plan.alloc(), fid, name)? else {
        return Err(Stop::Refused(Errno::ENODATA));
    };
    Ok(Outcome {
        reply: Reply::Value(copied(plan.alloc(), value.bytes())?),
        placed: Parts::new(plan.alloc()),
    })
}
