//! Which records are durable on all their targets, what is told of those that are durable here, and who holds
//! the target. No call but `stable_marks` takes memory.

ghost use Rattle.std.specs.Prelude.{◌≡◌, IfOk};
ghost use Rattle.llog_store.specs.Log.{live_count};
ghost use Rattle.target_state.specs.Commit.{is_empty};
ghost use Rattle.target_state.specs.Rules.{is_held_by};
ghost use Rattle.target_state.specs.Marking.{cancelled, marked, stable_marks};

use crate::node::Node;
use outside::Disk;
use std::alloc::{AllocError as Memory, Global};
use target_state::Marks;
use update_record::Attempt;

impl<D: Disk> Node<D> {
    /// The mark rises to this one: each of its batches up to there is stable on all its targets. Its own live
    /// records up to the mark are cancelled. Both are durable after the next commit.
    pub fn stable_mark(&mut self, mark: u64)
        ensures state { self.new.state ≡ marked self.old.state mark }
        ensures disk { self.new.disk ≡ self.old.disk }
    {
        self.state.stable_mark(mark);
    }

    /// Cancels the live records of a master up to a batch, which is durable after the next commit.
    pub fn cancel(&mut self, master: u8, mark: u64)
        ensures state { self.new.state ≡ cancelled self.old.state master mark }
        ensures disk { self.new.disk ≡ self.old.disk }
    {
        self.state.cancel(master, mark);
    }

    /// The masters of the live records that are committed here, ascending, each with the greatest batch of
    /// these.
    pub fn stable_marks(&self, alloc: Global) -> Result<Marks, Memory>
        ensures { IfOk result (λ marks. marks ≡ stable_marks self.now.state) }
    {
        self.state.stable_marks(alloc)
    }

    /// Whether nothing waits to be committed.
    pub fn is_idle(&self) -> bool
        ensures { result ≡ is_empty self.now.state.waiting }
    {
        self.state.is_idle()
    }

    /// Whether this attempt holds the target.
    pub fn is_held_by(&self, by: Attempt) -> bool
        ensures { result ≡ is_held_by self.now.state.holder by }
    {
        self.state.is_held_by(by)
    }

    /// How many records of the log are live.
    pub fn live_count(&self) -> u32
        ensures { result ≡ live_count self.now.state.log.entries }
    {
        self.state.live_count()
    }
}
