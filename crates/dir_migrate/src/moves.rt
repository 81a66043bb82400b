ghost use Rattle.std.specs.Prelude.{◌≡◌, ◌++◌, ◌∷◌, [], IfOk, OnOk};
ghost use Rattle.std.specs.List.{flat_map};
ghost use Rattle.std.specs.FinMap.{entries, from_entries};
ghost use Rattle.tree_model.specs.Fids.{name_cmp};
ghost use Rattle.plan_base.specs.Planning.{taken_from, brought_to, moved_entry, moved_entries};
ghost use Rattle.dir_migrate.specs.Migrations.{migration_of};

use fid_space::Fid;
use out_update::Parts;
use plan_base::{EntryList, PlanState, entry_at};
use std::alloc::{AllocError as Memory, Global};
use striped_dir::Layout;
use tree_model::{Entries, Name};

/// A directory whose layout becomes another one.
#[derive(Clone, Copy)]
pub(crate) struct Migrating {
    pub(crate) directory: Fid,
    pub(crate) old: Layout,
    pub(crate) new: Layout,
}

/// Entries by their names; of a name that comes twice the first one.
fn by_name(alloc: Global, told: &EntryList) -> Result<Entries, Memory>
    ensures { IfOk result (λ m. m ≡ from_entries {R = name_cmp} told.now) }
{
    let items = told.items();
    let mut sorted = Entries::new(alloc);
    for read in 0..items.len() {
        let (name, child) = &items[items.len() - 1 - read];
        sorted.insert(name.copy(alloc)?, *child)?;
    }
    Ok(sorted)
}

/// Takes a name from its old place.
fn take(plan: &PlanState, m: Migrating, placed: &mut Parts, name: &Name) -> Result<(), Memory>
    ensures { OnOk result (placed.new ≡ placed.old ++ taken_from (migration_of plan.now.targets plan.now.batch m) name.now ∷ []) }
{
    let maker = plan.maker();
    let (target, object) = entry_at(plan.cluster(), m.directory, m.old, name);
    maker.put(placed, target, maker.delete(object, name)?)
}

/// Brings a name to its new place.
fn bring(
    plan: &PlanState,
    m: Migrating,
    placed: &mut Parts,
    name: &Name,
    child: Fid,
) -> Result<(), Memory>
    ensures { OnOk result (placed.new ≡ placed.old ++ brought_to (migration_of plan.now.targets plan.now.batch m) name.now child ∷ []) }
{
    let maker = plan.maker();
    let (target, object) = entry_at(plan.cluster(), m.directory, m.new, name);
    maker.put(placed, target, maker.insert(object, name, child)?)
}

/// Moves an entry. The old stripes go with their entries, so a name is taken from a plain directory alone.
fn move_entry(
    plan: &PlanState,
    m: Migrating,
    placed: &mut Parts,
    name: &Name,
    child: Fid,
) -> Result<(), Memory>
    ensures { OnOk result (placed.new ≡ placed.old ++ moved_entry (migration_of plan.now.targets plan.now.batch m) (name.now, child)) }
{
    if m.old.count != 0 {
        return bring(plan, m, placed, name, child);
    }
    take(plan, m, placed, name)?;
    bring(plan, m, placed, name, child)
}

/// Moves all entries by the bytes of their names.
fn move_all(plan: &PlanState, m: Migrating, names: &Entries) -> Result<Parts, Memory>
    ensures { IfOk result (λ placed. placed ≡ flat_map (moved_entry (migration_of plan.now.targets plan.now.batch m)) (entries names.now)) }
{
    let sorted = names.inner();
    let _len = sorted.len();
    let mut placed = Parts::new(plan.alloc());
    for (name, child) in sorted {
        move_entry(plan, m, &mut placed, name, *child)?;
    }
    Ok(placed)
}

/// The updates of the entries that move; those of a plain directory that stays plain stand where they are.
pub(crate) fn moved_entries(
    plan: &PlanState,
    m: Migrating,
    told: &EntryList,
) -> Result<Parts, Memory>
    ensures { IfOk result (λ placed. placed ≡ moved_entries (migration_of plan.now.targets plan.now.batch m) told.now) }
{
    if m.old.count == 0 && m.new.count == 0 {
        return Ok(Parts::new(plan.alloc()));
    }
    move_all(plan, m, &by_name(plan.alloc(), told)?)
}
