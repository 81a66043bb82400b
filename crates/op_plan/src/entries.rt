ghost use Rattle.std.specs.Prelude.{◌≡◌};
ghost use Rattle.plan_base.specs.Stops.{Reaches};
ghost use Rattle.plan_base.specs.Asks.{answer};
ghost use Rattle.plan_base.specs.Planning.{create_asks, mkdir_asks, rmdir_asks, lookup_asks, link_fault, link_asks, unlink_asks};

use crate::bodies::{directory_body, file_body, first_layout};
use fid_space::{Fid, is_client};
use out_update::Parts;
use plan_base::{
    Outcome, PlanState, Seen, Stop, entry_at, is_directory, layout_fault, node_place, stripes_gone,
};
use striped_dir::make_parts;
use tree_model::{Errno, Name, Reply};

/// Makes a file.
pub(crate) fn create(plan: &PlanState, parent: Fid, name: &Name, fid: Fid) -> Result<Outcome, Stop>
    ensures { Reaches (λ x. x) result (answer plan.now.told (create_asks plan.now.targets plan.now.batch parent name.now fid)) }
{
    let cluster = plan.cluster();
    if !is_client(cluster, fid) {
        return Err(Stop::Refused(Errno::EINVAL));
    }
    let seen = plan.facts().directory(parent)?;
    if plan
        .facts()
        .entry(plan.alloc(), parent, seen.body.layout, name)?
        .is_some()
    {
        return Err(Stop::Refused(Errno::EEXIST));
    }
    if plan.facts().node(fid)?.is_some() {
        return Err(Stop::Refused(Errno::EEXIST));
    }
    let maker = plan.maker();
    let (target, object) = entry_at(cluster, parent, seen.body.layout, name);
    let mut placed = Parts::new(plan.alloc());
    maker.put(
        &mut placed,
        node_place(cluster, fid),
        maker.create(fid, &file_body())?,
    )?;
    maker.put(&mut placed, target, maker.insert(object, name, fid)?)?;
    Ok(Outcome {
        reply: Reply::Ok,
        placed,
    })
}

/// Makes a directory.
pub(crate) fn mkdir(
    plan: &PlanState,
    parent: Fid,
    name: &Name,
    fid: Fid,
    stripes: Option<(u32, u32)>,
) -> Result<Outcome, Stop>
    ensures { Reaches (λ x. x) result (answer plan.now.told (mkdir_asks plan.now.targets plan.now.batch parent name.now fid stripes)) }
{
    let cluster = plan.cluster();
    if !is_client(cluster, fid) {
        return Err(Stop::Refused(Errno::EINVAL));
    }
    if let Some(errno) = layout_fault(cluster, stripes) {
        return Err(Stop::Refused(errno));
    }
    let seen = plan.facts().directory(parent)?;
    if plan
        .facts()
        .entry(plan.alloc(), parent, seen.body.layout, name)?
        .is_some()
    {
        return Err(Stop::Refused(Errno::EEXIST));
    }
    if plan.facts().node(fid)?.is_some() {
        return Err(Stop::Refused(Errno::EEXIST));
    }
    let maker = plan.maker();
    let layout = first_layout(stripes);
    let (target, object) = entry_at(cluster, parent, seen.body.layout, name);
    let mut placed = Parts::new(plan.alloc());
    maker.put(
        &mut placed,
        node_place(cluster, fid),
        maker.create(fid, &directory_body(parent, layout))?,
    )?;
    maker.put_all(
        &mut placed,
        &make_parts(plan.alloc(), cluster, fid, layout, maker.batch)?,
    )?;
    maker.put(&mut placed, target, maker.insert(object, name, fid)?)?;
    Ok(Outcome {
        reply: Reply::Ok,
        placed,
    })
}

/// Removes a directory.
pub(crate) fn rmdir(plan: &PlanState, parent: Fid, name: &Name) -> Result<Outcome, Stop>
    ensures { Reaches (λ x. x) result (answer plan.now.told (rmdir_asks plan.now.targets plan.now.batch parent name.now)) }
{
    let cluster = plan.cluster();
    let seen = plan.facts().directory(parent)?;
    let Some(child) = plan
        .facts()
        .entry(plan.alloc(), parent, seen.body.layout, name)?
    else {
        return Err(Stop::Refused(Errno::ENOENT));
    };
    let old = match plan.facts().node(child)? {
        Some(old) if is_directory(&old) => old,
        _ => return Err(Stop::Refused(Errno::ENOTDIR)),
    };
    if !plan.facts().is_empty(child, old.body.layout)? {
        return Err(Stop::Refused(Errno::ENOTEMPTY));
    }
    let maker = plan.maker();
    let (target, object) = entry_at(cluster, parent, seen.body.layout, name);
    let mut placed = Parts::new(plan.alloc());
    maker.put(&mut placed, target, maker.delete(object, name)?)?;
    maker.put_all(
        &mut placed,
        &stripes_gone(plan.alloc(), cluster, child, old.body.layout, maker.batch)?,
    )?;
    maker.put(
        &mut placed,
        node_place(cluster, child),
        maker.destroy(child),
    )?;
    Ok(Outcome {
        reply: Reply::Ok,
        placed,
    })
}

/// What a name stands for.
pub(crate) fn lookup(plan: &PlanState, parent: Fid, name: &Name) -> Result<Outcome, Stop>
    ensures { Reaches (λ x. x) result (answer plan.now.told (lookup_asks parent name.now)) }
{
    let seen = plan.facts().directory(parent)?;
    match plan
        .facts()
        .entry(plan.alloc(), parent, seen.body.layout, name)?
    {
        None => Err(Stop::Refused(Errno::ENOENT)),
        Some(child) => Ok(Outcome {
            reply: Reply::Fid(child),
            placed: Parts::new(plan.alloc()),
        }),
    }
}

/// The check of a file that gets one link more.
fn link_fault(seen: Option<Seen>) -> Option<Errno>
    ensures { result ≡ link_fault seen }
{
    match seen {
        None => Some(Errno::ENOENT),
        Some(seen) if is_directory(&seen) => Some(Errno::EPERM),
        Some(seen) if seen.body.links >= 65_000 => Some(Errno::EMLINK),
        Some(_) => None,
    }
}

/// Gives a file a name more.
pub(crate) fn link(plan: &PlanState, parent: Fid, name: &Name, fid: Fid) -> Result<Outcome, Stop>
    ensures { Reaches (λ x. x) result (answer plan.now.told (link_asks plan.now.targets plan.now.batch parent name.now fid)) }
{
    let seen = plan.facts().directory(parent)?;
    if plan
        .facts()
        .entry(plan.alloc(), parent, seen.body.layout, name)?
        .is_some()
    {
        return Err(Stop::Refused(Errno::EEXIST));
    }
    if let Some(errno) = link_fault(plan.facts().node(fid)?) {
        return Err(Stop::Refused(errno));
    }
    let cluster = plan.cluster();
    let maker = plan.maker();
    let (target, object) = entry_at(cluster, parent, seen.body.layout, name);
    let mut placed = Parts::new(plan.alloc());
    maker.put(&mut placed, node_place(cluster, fid), maker.add_link(fid))?;
    maker.put(&mut placed, target, maker.insert(object, name, fid)?)?;
    Ok(Outcome {
        reply: Reply::Ok,
        placed,
    })
}

/// Takes a name of a file.
pub(crate) fn unlink(plan: &PlanState, parent: Fid, name: &Name) -> Result<Outcome, Stop>
    ensures { Reaches (λ x. x) result (answer plan.now.told (unlink_asks plan.now.targets plan.now.batch parent name.now)) }
{
    let seen = plan.facts().directory(parent)?;
    let Some(child) = plan
        .facts()
        .entry(plan.alloc(), parent, seen.body.layout, name)?
    else {
        return Err(Stop::Refused(Errno::ENOENT));
    };
    match plan.facts().node(child)? {
        Some(node) if is_directory(&node) => return Err(Stop::Refused(Errno::EISDIR)),
        _ => {}
    }
    let cluster = plan.cluster();
    let maker = plan.maker();
    let (target, object) = entry_at(cluster, parent, seen.body.layout, name);
    let mut placed = Parts::new(plan.alloc());
    maker.put(&mut placed, target, maker.delete(object, name)?)?;
    maker.put(
        &mut placed,
        node_place(cluster, child),
        maker.take_link(child),
    )?;
    Ok(Outcome {
        reply: Reply::Ok,
        placed,
    })
}
