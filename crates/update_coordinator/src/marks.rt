ghost use Rattle.std.specs.Prelude.{◌≡◌, ◌≤◌, ◌<◌, ◌+◌, ◌^◌, ◌&&◌, ℕ, All, length, drop, get_or, nat_lt, is_none};
ghost use Rattle.fid_space.specs.Targets.{is_member};
ghost use Rattle.update_coordinator.specs.Marks.{is_everywhere, is_stable, mark_from, noted, between_from, waits_at, is_awaited, is_owed};

use crate::coordinator::Coordinator;
use crate::course::ALL;
use crate::words::Waits;
use fid_space::{Cluster, Targets};

fn lacks(stable: &[u64; 16], target: u8, batch: u64, on: Targets) -> bool
    requires { target < 16 }
    ensures { result ≡ (is_member on target && nat_lt (get_or stable.now target 0) batch) }
{
    on.has(target) && stable[target as usize] < batch
}

fn is_everywhere(targets: &[u8], stable: &[u64; 16], batch: u64, on: Targets) -> bool
    requires { All (λ (t : ℕ). t < 16) targets.now }
    ensures { result ≡ is_everywhere targets.now stable.now batch on }
{
    for target in targets {
        if lacks(stable, *target, batch, on) {
            return false;
        }
    }
    true
}

#[tactic(auto, unfolding(crate::specs::Marks::is_stable))]
fn is_stable(stable: &[u64; 16], batch: u64, on: Targets) -> bool
    ensures { result ≡ is_stable stable.now batch on }
{
    is_everywhere(&ALL, stable, batch, on)
}

/// The last of a row of batches that are stable everywhere.
fn mark_from(stable: &[u64; 16], mark: u64, ons: &[Targets]) -> u64
    requires { mark + length ons.now < 2 ^ 64 }
    ensures value { result ≡ mark_from stable.now mark ons.now }
    ensures bound { result ≤ mark + length ons.now }
{
    let mut reached = mark;
    for on in ons {
        if !is_stable(stable, reached + 1, *on) {
            return reached;
        }
        reached += 1;
    }
    reached
}

/// The mark after the batches above it were looked at.
fn raised(stable: &[u64; 16], mark: u64, batches: &[Targets]) -> u64
    ensures { result ≡ mark_from stable.now mark (drop mark batches.now) }
{
    if mark as usize >= batches.len() {
        return mark;
    }
    mark_from(stable, mark, &batches[mark as usize..])
}

fn between(ons: &[Targets], least: u64, most: u64) -> Targets
    ensures { result ≡ between_from ons.now 0 least most 0 }
{
    let mut so_far = Targets::none();
    let mut n = 0;
    for on in ons {
        if least <= n && n < most {
            so_far = so_far.union(*on);
        }
        n += 1;
    }
    so_far
}

impl Waits {
    /// The target that is asked.
    pub fn target(&self) -> u8
        ensures { result ≡ waits_at self.now }
    {
        match self {
            Waits::Look(need) => need.target,
            Waits::Hold(_, target) => *target,
            Waits::Sync(_, _, target, _) => *target,
        }
    }
}

impl Coordinator {
    /// Notes that a target has committed the batches up to this one.
    pub fn note_stable(&mut self, target: u8, batch: u64)
        requires { target < 16 }
        ensures { self.new ≡ noted self.old target batch }
    {
        let last = self.stable[target as usize];
        self.stable[target as usize] = last.max(batch);
        self.mark = raised(&self.stable, self.mark, self.batches.as_slice());
    }

    /// Each batch up to this one is stable on each of its targets.
    pub fn mark(&self) -> u64
        ensures { result ≡ self.now.mark }
    {
        self.mark
    }

    /// The targets of its batches above one and up to another.
    pub fn between(&self, from: u64, to: u64) -> Targets
        ensures { result ≡ between_from self.now.batches 0 from to 0 }
    {
        between(self.batches.as_slice(), from, to)
    }

    /// The cluster.
    pub fn cluster(&self) -> Cluster
        ensures { result ≡ self.now.targets }
    {
        self.cluster
    }

    /// The target that it is the home at.
    pub fn master(&self) -> u8
        ensures { result ≡ self.now.master }
    {
        self.master
    }

    /// Whether no attempt is under way.
    pub fn is_idle(&self) -> bool
        ensures { result ≡ is_none self.now.current }
    {
        self.current.is_none()
    }

    /// The epoch.
    pub(crate) fn epoch(&self) -> u32
        ensures { result ≡ self.now.epoch }
    {
        self.epoch
    }

    /// How many operations it has accepted in its epoch: the number of its last batch.
    pub fn accepted(&self) -> u64
        ensures count { result ≡ length self.now.batches }
        ensures room { result + 1 < 2 ^ 64 }
    {
        self.batches.len() as u64
    }

    /// The number of the attempt that began last, 0 before the first.
    pub fn attempt(&self) -> u64
        ensures { result ≡ self.now.attempts }
    {
        self.attempts
    }

    /// The last ask number of that attempt, 0 where it has none.
    pub fn ask(&self) -> u32
        ensures { result ≡ self.now.asks }
    {
        self.asks
    }

    /// Whether an answer of this target to the Hold or Sync with these numbers is awaited.
    pub fn awaits(&self, target: u8, attempt: u64, ask: u32) -> bool
        ensures { result ≡ is_awaited self.now target attempt ask self.now.current }
    {
        match &self.current {
            None => false,
            Some(going) => {
                target != self.master
                    && going.waits.target() == target
                    && attempt == self.attempts
                    && ask == self.asks
            }
        }
    }

    /// Whether the Execute or the Release of this attempt to this target has no answer yet.
    pub fn unanswered(&self, target: u8, attempt: u64) -> bool
        requires { target < 16 }
        ensures { result ≡ is_owed self.now.flights target attempt }
    {
        self.flights.is_owed(target, attempt)
    }

    /// The targets to which the last action sends a Release.
    pub fn releases(&self) -> Targets
        ensures { result ≡ self.now.released }
    {
        self.released
    }
}
