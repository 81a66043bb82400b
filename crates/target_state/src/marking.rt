//! Which records are durable on all their targets, and up to which batch those of a master are durable here.

ghost use Rattle.std.specs.Prelude.{◌≡◌, ◌++◌, ℕ, List, IfOk, OnOk, None};
ghost use Rattle.llog_store.specs.Log.{live_count};
ghost use Rattle.llog_store.specs.Changes.{live_payloads};
ghost use Rattle.target_state.specs.Commit.{mark_of};
ghost use Rattle.target_state.specs.Rules.{is_held_by};
ghost use Rattle.target_state.specs.Marking.{cancelled, marked, stable_ids, greatest_batch, greatest_batches, IsGreatest, stable_marks};

use crate::holding::is_held_by;
use crate::indexed::IndexedLog;
use crate::state::State;
use crate::waiting::{Marks, Waiting};
use std::alloc::{AllocError as Memory, Global};
use update_record::Attempt;

/// Adds a master with its batch, where it has one.
fn push(marks: &mut Marks, master: u8, batch: Option<u64>) -> Result<(), Memory>
    ensures { OnOk result (marks.new ≡ marks.old ++ mark_of master batch) }
{
    match batch {
        None => Ok(()),
        Some(batch) => marks.push((master, batch)),
    }
}

/// The masters of the live records that are committed, each with the greatest batch of these.
fn told(alloc: Global, log: &IndexedLog, waiting: &[Waiting]) -> Result<Marks, Memory>
    ensures { IfOk result (λ marks. marks ≡ greatest_batches 16 0 (stable_ids waiting.now (live_payloads log.now.entries))) }
{
    let mut marks = Marks::new(alloc);
    for master in 0..16u8 {
        push(&mut marks, master, log.greatest(waiting, master))?;
    }
    Ok(marks)
}

/// What is told of a master is the greatest of its batches, and nothing where it has none. The call does
/// nothing: its contract is a law.
#[tactic(auto, using(crate::proofs::Greatest::is_greatest))]
pub fn a_batch_told_is_the_greatest()
    ensures { (master : ℕ) (ids : List (ℕ × ℕ)) → IsGreatest master ids (greatest_batch master None ids) }
{}

impl State {
    /// Cancels the live records of a master up to a batch, in memory alone. Each that is cancelled costs a look-up
    /// in an ordered set; the others cost nothing. It takes no memory.
    pub fn cancel(&mut self, master: u8, mark: u64)
        ensures { self.new ≡ cancelled self.old master mark }
    {
        self.log.cancel_up_to(master, mark);
    }

    /// The mark rises to this one: each of its batches up to there is stable on all its targets. Its own live
    /// records up to the mark are cancelled, in memory alone, at the cost of [`State::cancel`]. It takes no memory.
    pub fn stable_mark(&mut self, mark: u64)
        ensures { self.new ≡ marked self.old mark }
    {
        self.front.mark = self.front.mark.max(mark);
        self.log.cancel_up_to(self.front.index, self.front.mark);
    }

    /// The masters of the live records that are committed here, ascending, each with the greatest batch of
    /// these. Each master costs a look-up in an ordered set, and one more for each of its batches that waits to
    /// be committed, with a pass over what waits; the other live records cost nothing.
    pub fn stable_marks(&self, alloc: Global) -> Result<Marks, Memory>
        ensures { IfOk result (λ marks. marks ≡ stable_marks self.now) }
    {
        told(alloc, &self.log, self.waiting.items())
    }

    /// Whether this attempt holds the target.
    pub fn is_held_by(&self, by: Attempt) -> bool
        ensures { result ≡ is_held_by self.now.holder by }
    {
        is_held_by(self.holder, by)
    }

    /// How many records of the log are live.
    pub fn live_count(&self) -> u32
        ensures { result ≡ live_count self.now.log.entries }
    {
        self.log.log().live()
    }
}
