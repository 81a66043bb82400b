ghost use Rattle.std.specs.Prelude.{◌≡◌, ◌++◌, ◌∷◌, [], length, slice_get, OnOk, OnErr};
ghost use Rattle.target_state.specs.Marking.{waits};

use fid_space::Numbers;
use std::alloc::{AllocError as Memory, AllocFailed, Global};
use std::marker::Model;

/// A record that was executed and isn't committed.
#[derive(Clone, Copy, Debug, PartialEq, Eq)]
pub struct Waiting {
    /// The request's number.
    pub number: u32,
    /// The target that accepted it.
    pub master: u8,
    /// Its batch there.
    pub batch: u64,
}

/// Whether a record with this master and batch waits to be committed.
pub(crate) fn waits(waiting: &[Waiting], master: u32, batch: u64) -> bool
    ensures { result ≡ waits waiting.now master batch }
{
    for item in waiting {
        if u32::from(item.master) == master && item.batch == batch {
            return true;
        }
    }
    false
}

/// Those records, in the order in which they were executed.
#[derive(Drop)]
pub(crate) struct WaitingList {
    inner: Vec<Waiting>,
}

impl Model for WaitingList {
    ghost use Rattle.std.specs.Prelude.{List};
    ghost use Rattle.target_state.specs.declared.waiting.Waiting.{Waiting};

    ghost Value = { List Waiting };

    ghost view = { λ b. b.inner.items };
}

impl WaitingList {
    /// None.
    pub(crate) fn new(alloc: Global) -> WaitingList
        ensures { result ≡ [] }
    {
        WaitingList {
            inner: Vec::new(alloc),
        }
    }

    /// One more. Want of memory changes nothing.
    pub(crate) fn push(&mut self, item: Waiting) -> Result<(), Memory>
        ensures ok { OnOk result (self.new ≡ self.old ++ item ∷ []) }
        ensures err { OnErr result (self.new ≡ self.old) }
    {
        match self.inner.push(item) {
            Ok(()) => Ok(()),
            Err(AllocFailed { .. }) => Err(Memory),
        }
    }

    /// Lends them.
    pub(crate) fn items(&self) -> &[Waiting]
        ensures { result.now ≡ self.now }
    {
        self.inner.as_slice()
    }

    /// Forgets them, and keeps the memory.
    pub(crate) fn clear(&mut self)
        ensures { self.new ≡ [] }
    {
        self.inner.clear();
    }
}

/// Pairs of a master and a batch.
#[derive(Drop)]
pub struct Marks {
    inner: Vec<(u8, u64)>,
}

impl Model for Marks {
    ghost use Rattle.std.specs.Prelude.{List, ℕ};

    ghost Value = { List (ℕ × ℕ) };

    ghost view = { λ b. b.inner.items };
}

impl Marks {
    /// The empty list.
    pub fn new(alloc: Global) -> Marks
        ensures { result ≡ [] }
    {
        Marks {
            inner: Vec::new(alloc),
        }
    }

    /// Adds a pair at the end. Want of memory changes nothing.
    pub fn push(&mut self, item: (u8, u64)) -> Result<(), Memory>
        ensures ok { OnOk result (self.new ≡ self.old ++ item ∷ []) }
        ensures err { OnErr result (self.new ≡ self.old) }
    {
        self.inner.push(item)?;
        Ok(())
    }

    /// How many pairs there are.
    pub fn len(&self) -> usize
        ensures { result ≡ length self.now }
    {
        self.inner.len()
    }

    /// The pair at an index, counted from 0, or `None` past the end.
    pub fn get(&self, i: usize) -> Option<(u8, u64)>
        ensures { result ≡ slice_get self.now i }
    {
        self.inner.get(i).copied()
    }
}

/// What a commit made stable.
#[derive(Drop)]
pub struct Committed {
    /// The numbers of the requests, in the order in which they were executed.
    pub stable: Numbers,
    /// The other masters of these records, ascending, each with the greatest batch of its records.
    pub batches: Marks,
}
