//! What a recovery begins with.

ghost use Rattle.std.specs.Prelude.{◌≡◌, ◌⊎◌, ◌≤◌, ◌++◌, ℕ, length, take, false, IfOk, OnOk};
ghost use Rattle.update_recovery.specs.Disks.{WhereDisk, WhereMemory};
ghost use Rattle.update_recovery.specs.Steps.{AllCame, HasStopped, HasLost, WhereHalted, WhereLost, told_from};
ghost use Rattle.update_recovery.specs.Gathering.{is_down, CommitsNode, BreaksNode, Gathers, BreaksGathering, KeepsAll, stable_of, stable_at};
ghost use Rattle.std.specs.List.{list_any};
ghost use Rattle.std.specs.Vec.{vec_len};

use crate::halt::Halt;
use crate::listed::Listed;
use crate::standing::Standing;
use outside::Disk;
use target_node::{Node, NodeFault};

/// Commits a target, and lists what became stable.
fn commit_target<D: Disk>(
    place: u8,
    node: &mut Node<D>,
    stable: &mut Listed,
) -> Result<(), NodeFault>
    ensures told { OnOk result (stable.new ≡ stable.old ++ stable_of place node.old) }
    ensures same { WhereDisk result (stable.new ≡ stable.old) }
    ensures done { OnOk result (CommitsNode D.shown node.old node.new) }
    ensures disk { WhereDisk result (BreaksNode D.shown node.old node.new) }
    ensures memory { WhereMemory result (CommitsNode D.shown node.old node.new ⊎ (node.new ≡ node.old)) }
{
    let committed = node.commit()?;
    match stable.push((place, committed.stable)) {
        Ok(()) => Ok(()),
        Err(_) => Err(NodeFault::Memory),
    }
}

/// Commits a target that serves, or was opened and isn't idle, and lists what became stable.
fn gather_target<D: Disk>(
    place: u8,
    target: &mut Standing<D>,
    stable: &mut Listed,
) -> Result<(), NodeFault>
    ensures told { OnOk result (stable.new ≡ stable.old ++ stable_at place target.old) }
    ensures same { WhereDisk result (stable.new ≡ stable.old) }
    ensures done { OnOk result (Gathers D.shown place target.old target.new) }
    ensures disk { WhereDisk result (BreaksGathering D.shown place target.old target.new) }
    ensures up { is_down target.new ≡ is_down target.old }
    ensures memory { WhereMemory result (Gathers D.shown place target.old target.new ⊎ KeepsAll place target.old target.new) }
{
    match target {
        Standing::Serving(node) => commit_target(place, node, stable),
        Standing::Opened(node) => {
            if node.is_idle() {
                return Ok(());
            }
            commit_target(place, node, stable)
        }
        Standing::Down(_) => Ok(()),
    }
}

/// Commits each of the targets that serves, or was opened and isn't idle, one after another, and lists these with
/// what became stable there.
fn gather_all<D: Disk>(targets: &mut [Standing<D>], stable: &mut Listed) -> Result<(), Halt>
    requires { length targets.old ≤ 16 }
    ensures done { OnOk result (AllCame (Gathers D.shown) targets.old targets.new) }
    ensures stopped { WhereHalted result (λ place. HasStopped (Gathers D.shown) (BreaksGathering D.shown) place targets.old targets.new) }
    ensures lost { WhereLost result (HasLost (Gathers D.shown) KeepsAll targets.old targets.new) }
    ensures told { OnOk result (stable.new ≡ stable.old ++ told_from stable_at 0 targets.old) }
    ensures told_before { WhereHalted result (λ place. stable.new ≡ stable.old ++ told_from stable_at 0 (take place targets.old)) }
    ensures up { list_any is_down targets.old ≡ false → list_any is_down targets.new ≡ false }
    ensures long { length targets.new ≡ length targets.old }
{
    for place in 0..targets.len() {
        match gather_target(place as u8, &mut targets[place], stable) {
            Ok(()) => {}
            Err(NodeFault::Disk) => return Err(Halt::Disk(place as u8)),
            Err(NodeFault::Memory) => return Err(Halt::Memory),
        }
    }
    Ok(())
}

/// The same of a list of targets.
pub(crate) fn gather_targets<D: Disk>(
    targets: &mut Vec<Standing<D>>,
    stable: &mut Listed,
) -> Result<(), Halt>
    requires { vec_len targets.old ≤ 16 }
    ensures done { OnOk result (AllCame (Gathers D.shown) targets.old.items targets.new.items) }
    ensures stopped { WhereHalted result (λ place. HasStopped (Gathers D.shown) (BreaksGathering D.shown) place targets.old.items targets.new.items) }
    ensures lost { WhereLost result (HasLost (Gathers D.shown) KeepsAll targets.old.items targets.new.items) }
    ensures told { OnOk result (stable.new ≡ stable.old ++ told_from stable_at 0 targets.old.items) }
    ensures told_before { WhereHalted result (λ place. stable.new ≡ stable.old ++ told_from stable_at 0 (take place targets.old.items)) }
    ensures up { list_any is_down targets.old.items ≡ false → list_any is_down targets.new.items ≡ false }
    ensures long { length targets.new.items ≡ length targets.old.items }
    ensures len { vec_len targets.new ≡ vec_len targets.old }
{
    gather_all(targets.as_mut_slice(), stable)
}
