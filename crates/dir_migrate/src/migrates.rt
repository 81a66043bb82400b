ghost use Rattle.std.specs.Prelude.{◌≡◌, ◌≤◌, IfOk};
ghost use Rattle.plan_base.specs.Stops.{Reaches};
ghost use Rattle.plan_base.specs.Asks.{answer};
ghost use Rattle.plan_base.specs.Planning.{next_generation, next_layout, migrate_fault, migrated, migrate_asks};
ghost use Rattle.dir_migrate.specs.Migrations.{migration_of};

use crate::moves::{Migrating, moved_entries};
use fid_space::{Cluster, Fid};
use out_update::Parts;
use plan_base::{
    EntryList, Outcome, PlanState, Stop, layout_fault, node_place, stripes_gone, stripes_made,
};
use std::alloc::AllocError as Memory;
use striped_dir::Layout;
use tree_model::{Errno, Reply};

/// The next generation of a layout; the last one stays.
fn next_generation(generation: u32) -> u32
    ensures { result ≡ next_generation generation }
{
    if generation < 0x0fff_fffe {
        generation + 1
    } else {
        generation
    }
}

/// The layout after another one, with so many stripes, the first on the target with this index.
fn next_layout(old: Layout, count: u32, index: u32) -> Layout
    requires count { count ≤ 16 }
    requires index { index ≤ 15 }
    ensures { result ≡ next_layout old count index }
{
    let generation = next_generation(old.generation);
    if count == 0 {
        return Layout {
            count: 0,
            start: 0,
            generation,
        };
    }
    Layout {
        count: count as u8,
        start: index as u8,
        generation,
    }
}

/// The check of the directory and of its new stripes. The root keeps its layout.
fn migrate_fault(cluster: Cluster, directory: Fid, count: u32, index: u32) -> Option<Errno>
    ensures { result ≡ migrate_fault cluster directory count index }
{
    if directory == Fid::ROOT {
        return Some(Errno::EINVAL);
    }
    layout_fault(cluster, Some((count, index)))
}

/// Gives a directory another layout.
pub(crate) fn migrate(
    plan: &PlanState,
    directory: Fid,
    count: u32,
    index: u32,
) -> Result<Outcome, Stop>
    ensures { Reaches (λ x. x) result (answer plan.now.told (migrate_asks plan.now.targets plan.now.batch directory count index)) }
{
    let seen = plan.facts().directory(directory)?;
    if let Some(errno) = migrate_fault(plan.cluster(), directory, count, index) {
        return Err(Stop::Refused(errno));
    }
    let old = seen.body.layout;
    let told = plan.facts().all_names(plan.alloc(), directory, old)?;
    if told.len() > 32 {
        return Err(Stop::Refused(Errno::EFBIG));
    }
    let migrating = Migrating {
        directory,
        old,
        new: next_layout(old, count, index),
    };
    Ok(migrated(plan, migrating, &told)?)
}

/// The outcome: the new layout and its stripes, the entries that move, and the old stripes, which go.
#[tactic(auto, unfolding(plan_base::specs::Planning::migrated))]
fn migrated(plan: &PlanState, m: Migrating, told: &EntryList) -> Result<Outcome, Memory>
    ensures { IfOk result (λ o. o ≡ migrated (migration_of plan.now.targets plan.now.batch m) told.now) }
{
    let alloc = plan.alloc();
    let maker = plan.maker();
    let cluster = plan.cluster();
    let mut placed = Parts::new(alloc);
    maker.put(
        &mut placed,
        node_place(cluster, m.directory),
        maker.set_layout(m.directory, m.new)?,
    )?;
    maker.put_all(
        &mut placed,
        &stripes_made(alloc, cluster, m.directory, m.new, maker.batch)?,
    )?;
    maker.put_all(&mut placed, &moved_entries(plan, m, told)?)?;
    maker.put_all(
        &mut placed,
        &stripes_gone(alloc, cluster, m.directory, m.old, maker.batch)?,
    )?;
    Ok(Outcome {
        reply: Reply::Ok,
        placed,
    })
}
