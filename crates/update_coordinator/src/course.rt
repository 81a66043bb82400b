ghost use Rattle.std.specs.Prelude.{◌≡◌, ◌<◌, ◌≤◌, ◌+◌, ◌^◌, ℕ, List, All, IfSome, nat_lt};
ghost use Rattle.out_update.specs.declared.update.Update.{Update};
ghost use Rattle.update_coordinator.specs.declared.words.Held.{Held};
ghost use Rattle.plan_record.specs.Recorded.{reads};
ghost use Rattle.update_coordinator.specs.Rules.{alone, room_for, is_held, load_of, stamp_of, unheld, full, unsynced, next_sync};

use crate::words::Held;
use commit_sharing::{Seen, must_sync};
use fid_space::Targets;
use out_update::UpdateRequest;
use tree_model::Op;

/// Every number of a target.
pub const ALL: [u8; 16] = [0, 1, 2, 3, 4, 5, 6, 7, 8, 9, 10, 11, 12, 13, 14, 15];

/// The bytes that a target's image may have for new requests.
const MOST_LOAD: u64 = 5_242_880;

/// Whether the operation changes nothing and isn't recorded.
pub fn is_read(op: &Op) -> bool
    ensures { result ≡ reads op.now }
{
    match op {
        Op::Lookup { .. } | Op::GetAttr { .. } | Op::GetXattr { .. } => true,
        _ => false,
    }
}

/// The room that a target needs for the operation, in bytes.
pub fn room_for(op: &Op) -> u64
    ensures value { result ≡ room_for op.now }
    ensures small { result < 5242880 }
{
    match op {
        Op::Unlink { .. } | Op::Rmdir { .. } | Op::SetAttr { .. } | Op::DelXattr { .. } => 131_072,
        _ => 1_179_648,
    }
}

fn is_held(held: &[Held], target: u8) -> bool
    ensures { result ≡ is_held held.now target }
{
    for one in held {
        if one.target == target {
            return true;
        }
    }
    false
}

fn load_of(held: &[Held], target: u8) -> u64
    ensures { result ≡ load_of held.now target }
{
    let mut load = 0;
    for one in held {
        if one.target == target {
            load = one.load;
        }
    }
    load
}

/// One more than the greatest clock of the held targets.
pub fn stamp_of(held: &[Held]) -> u64
    requires { All (λ (h : Held). h.clock < 2 ^ 63) held.now }
    ensures value { result ≡ stamp_of held.now }
    ensures set { 1 ≤ result }
{
    let mut clock = 0;
    for one in held {
        clock = clock.max(one.clock);
    }
    clock + 1
}

/// The set of one target.
pub fn alone(target: u8) -> Targets
    requires { target < 16 }
    ensures { result ≡ alone target }
{
    Targets::none().with(target)
}

/// The first participant that isn't held.
pub fn unheld(held: &[Held], parts: &[(u8, UpdateRequest)]) -> Option<u8>
    requires { All (λ (part : ℕ × List Update). part.0 < 16) parts.now }
    ensures value { result ≡ unheld held.now parts.now }
    ensures below { IfSome result (λ (target : ℕ). target < 16) }
{
    for part in parts {
        if !is_held(held, part.0) {
            return Some(part.0);
        }
    }
    None
}

/// Whether a load leaves no room.
fn is_full(need: u64, load: u64) -> bool
    requires { need < 5242880 }
    ensures { result ≡ nat_lt 5242880 (load + need) }
{
    load > MOST_LOAD - need
}

/// The first participant without room, and its load.
pub fn full(need: u64, held: &[Held], parts: &[(u8, UpdateRequest)]) -> Option<(u8, u64)>
    requires { need < 5242880 }
    ensures { result ≡ full need held.now parts.now }
{
    for part in parts {
        let load = load_of(held, part.0);
        if is_full(need, load) {
            return Some((part.0, load));
        }
    }
    None
}

fn unsynced_of(targets: &[u8], seen: &[Seen], on: Targets, synced: Targets) -> Option<(u8, u32)>
    requires { All (λ (t : ℕ). t < 16) targets.now }
    ensures value { result ≡ unsynced targets.now seen.now on synced }
    ensures below { IfSome result (λ (x : ℕ × ℕ). x.0 < 16) }
{
    for target in targets {
        if synced.has(*target) {
            continue;
        }
        if let Some(writer) = must_sync(seen, on, *target) {
            return Some((*target, writer));
        }
    }
    None
}

/// The first target that has to commit and hasn't, and the writer that it has to commit.
#[tactic(auto, unfolding(crate::specs::Rules::next_sync))]
pub fn unsynced(seen: &[Seen], on: Targets, synced: Targets) -> Option<(u8, u32)>
    ensures value { result ≡ next_sync seen.now on synced }
    ensures below { IfSome result (λ (x : ℕ × ℕ). x.0 < 16) }
{
    unsynced_of(&ALL, seen, on, synced)
}
