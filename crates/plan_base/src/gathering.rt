ghost use Rattle.std.specs.Prelude.{◌≡◌, ◌||◌, ◌++◌, IfOk, OnOk};
ghost use Rattle.update_record.specs.Spelling.{targets_from};
ghost use Rattle.plan_base.specs.Planners.{part_for, has_part, is_home, parts_from};

use fid_space::{Cluster, Targets};
use out_update::{Parts, UpdateRequest};
use std::alloc::{AllocError as Memory, Global};

/// Whether a target has an update.
fn has_part(target: u8, placed: &[(u8, UpdateRequest)]) -> bool
    ensures { result ≡ has_part target placed.now }
{
    for pair in placed {
        if pair.0 == target {
            return true;
        }
    }
    false
}

/// The updates of a target.
fn part_for(
    alloc: Global,
    target: u8,
    placed: &[(u8, UpdateRequest)],
) -> Result<UpdateRequest, Memory>
    ensures { IfOk result (λ r. r ≡ part_for target placed.now) }
{
    let mut part = UpdateRequest::new(alloc);
    for pair in placed {
        if pair.0 == target {
            extend(alloc, &mut part, &pair.1)?;
        }
    }
    Ok(part)
}

/// Adds copies of updates.
fn extend(alloc: Global, part: &mut UpdateRequest, more: &UpdateRequest) -> Result<(), Memory>
    ensures { OnOk result (part.new ≡ part.old ++ more.now) }
{
    for i in 0..more.len() {
        let Some(update) = more.get(i) else {
            return Err(Memory);
        };
        part.push(update.copy(alloc)?)?;
    }
    Ok(())
}

/// Whether a target takes part: the home does, and each that has an update.
fn takes_part(home: Option<u8>, target: u8, placed: &[(u8, UpdateRequest)]) -> bool
    ensures { result ≡ (is_home home target || has_part target placed.now) }
{
    match home {
        Some(home) if home == target => true,
        _ => has_part(target, placed),
    }
}

/// The parts of the home and of the targets that have updates, ascending, and the set of these targets.
pub(crate) fn parts_of(
    alloc: Global,
    cluster: Cluster,
    home: Option<u8>,
    placed: &Parts,
) -> Result<(Parts, Targets), Memory>
    ensures parts { IfOk result (λ x. x.0 ≡ parts_from home placed.now 0 cluster) }
    ensures on { IfOk result (λ x. x.1 ≡ targets_from 0 x.0) }
{
    let mut parts = Parts::new(alloc);
    let mut on = Targets::none();
    for target in 0..cluster.targets() {
        if !takes_part(home, target, placed.items()) {
            continue;
        }
        parts.push((target, part_for(alloc, target, placed.items())?))?;
        on = on.with(target);
    }
    Ok((parts, on))
}
