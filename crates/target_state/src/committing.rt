//! What a commit makes durable, and what it tells.

ghost use Rattle.std.specs.Prelude.{◌≡◌, ◌≤◌, ◌++◌, length, IfOk, OnOk, OnErr, None};
ghost use Rattle.state_image.specs.FrontText.{front_text};
ghost use Rattle.state_image.specs.StateText.{FitsState};
ghost use Rattle.target_state.specs.Image.{front_of, image_of, state_text, most_image, IsInRange};
ghost use Rattle.target_state.specs.Rules.{renewed};
ghost use Rattle.target_state.specs.Commit.{numbers_of, later, greatest_from, mark_of, other_mark, marks_from, listed, is_empty, packed, settled};

use crate::state::State;
use crate::waiting::{Committed, Marks, Waiting};
use fid_space::Numbers;
use llog_store::lengths_of_logs;
use state_image::{FrontBytes, a_log_stays_own_when_packed};
use std::alloc::{AllocError as Memory, Global};

/// The numbers of records.
fn numbers(alloc: Global, items: &[Waiting]) -> Result<Numbers, Memory>
    ensures { IfOk result (λ numbers. numbers ≡ numbers_of items.now) }
{
    let mut numbers = Numbers::new(alloc);
    for item in items {
        numbers.push(item.number)?;
    }
    Ok(numbers)
}

/// The greater of two batches.
fn later(most: Option<u64>, batch: u64) -> u64
    ensures { result ≡ later most batch }
{
    match most {
        None => batch,
        Some(most) => most.max(batch),
    }
}

/// The greatest batch of a master's records.
fn greatest(master: u8, items: &[Waiting]) -> Option<u64>
    ensures { result ≡ greatest_from None master items.now }
{
    let mut most = None;
    for item in items {
        if item.master == master {
            most = Some(later(most, item.batch));
        }
    }
    most
}

/// Adds a master with its batch, where it is another one than this target and has one.
fn push_mark(marks: &mut Marks, index: u8, master: u8, items: &[Waiting]) -> Result<(), Memory>
    ensures { OnOk result (marks.new ≡ marks.old ++ other_mark index master items.now) }
{
    if master == index {
        return Ok(());
    }
    match greatest(master, items) {
        None => Ok(()),
        Some(batch) => marks.push((master, batch)),
    }
}

/// The other masters, each with the greatest batch of its records.
fn marks(alloc: Global, index: u8, items: &[Waiting]) -> Result<Marks, Memory>
    ensures { IfOk result (λ marks. marks ≡ marks_from 16 index 0 items.now) }
{
    let mut marks = Marks::new(alloc);
    for master in 0..16 {
        push_mark(&mut marks, index, master, items)?;
    }
    Ok(marks)
}

impl State {
    /// What a commit makes stable.
    pub fn listed(&self) -> Result<Committed, Memory>
        ensures { IfOk result (λ c. c ≡ listed self.now.index self.now.waiting) }
    {
        let items = self.waiting.items();
        Ok(Committed {
            stable: numbers(self.alloc, items)?,
            batches: marks(self.alloc, self.front.index, items)?,
        })
    }

    /// Keeps the live records alone, where at least one is cancelled and at least half of them are. Want of
    /// memory changes nothing.
    pub fn thin(&mut self) -> Result<(), Memory>
        ensures ok { OnOk result (self.new ≡ packed self.old) }
        ensures err { OnErr result (self.new ≡ self.old) }
    {
        let live = u64::from(self.log.log().live());
        let records = u64::from(self.log.log().records());
        let _next = self.log.log().next();
        lengths_of_logs();
        if live < records && 2 * live <= records {
            self.log.pack()?;
        }
        Ok(())
    }

    /// All that takes memory for a commit: the log is thinned, and the front of the image and what the commit
    /// makes stable are given. Want of memory changes nothing.
    pub fn ready(&mut self) -> Result<(FrontBytes, Committed), Memory>
        ensures state { OnOk result (self.new ≡ packed self.old) }
        ensures front { IfOk result (λ r. r.0 ≡ front_text (front_of self.old)) }
        ensures listed { IfOk result (λ r. r.1 ≡ listed self.old.index self.old.waiting) }
        ensures fits { OnOk result (length (state_text self.new) ≤ most_image) }
        // It is read back, where the state is in range.
        ensures image { OnOk result (IsInRange self.old → FitsState (image_of self.new)) }
        ensures err { OnErr result (self.new ≡ self.old) }
    {
        let listed = self.listed()?;
        self.thin()?;
        self.fits_a_disk();
        self.has_an_image();
        a_log_stays_own_when_packed();
        Ok((self.front.bytes(), listed))
    }

    /// Whether nothing waits to be committed.
    pub fn is_idle(&self) -> bool
        ensures { result ≡ is_empty self.now.waiting }
    {
        self.waiting.items().is_empty()
    }

    /// Ends a recovery: the log is emptied and the epoch set, and with it holds, notes, batches and marks begin
    /// anew. It takes no memory.
    #[tactic(auto, using(crate::proofs::Bounds::cleared_bounded))]
    pub fn renew(&mut self, epoch: u32)
        ensures { self.new ≡ renewed epoch self.old }
    {
        self.front.epoch = epoch;
        self.front.next_batch = 1;
        self.front.mark = 0;
        self.log.clear();
        self.settle();
        self.enter_recovery();
    }

    /// Nothing waits any more. It takes no memory.
    pub fn settle(&mut self)
        ensures { self.new ≡ settled self.old }
    {
        self.waiting.clear();
        self.pending.clear();
    }
}
