ghost use Rattle.std.specs.Prelude.{◌≡◌, ◌++◌, ◌∷◌, [], length, slice_get, OnOk, OnErr};
ghost use Rattle.std.specs.Option.{option_copied};

use crate::update::UpdateRequest;
use std::alloc::{AllocError as Memory, AllocFailed, Global};
use std::marker::Model;

/// The parts of a change: pairs of a target and the updates that it gets.
#[derive(Debug, Drop)]
pub struct Parts {
    pub(crate) inner: Vec<(u8, UpdateRequest)>,
}

impl Model for Parts {
    ghost use Rattle.std.specs.Prelude.{List, ℕ};
    ghost use Rattle.out_update.specs.declared.update.Update.{Update};

    ghost Value = { List (ℕ × List Update) };

    ghost view = { λ p. p.inner.items };
}

impl Parts {
    /// The empty list.
    pub fn new(alloc: Global) -> Parts
        ensures { result ≡ [] }
    {
        Parts {
            inner: Vec::new(alloc),
        }
    }

    /// Adds a target and its updates at the end. Want of memory changes nothing.
    pub fn push(&mut self, item: (u8, UpdateRequest)) -> Result<(), Memory>
        ensures ok { OnOk result (self.new ≡ self.old ++ item ∷ []) }
        ensures err { OnErr result (self.new ≡ self.old) }
    {
        match self.inner.push(item) {
            Ok(()) => Ok(()),
            Err(AllocFailed { .. }) => Err(Memory),
        }
    }

    /// How many pairs there are.
    pub fn len(&self) -> usize
        ensures { result ≡ length self.now }
    {
        self.inner.len()
    }

    /// Lends the pairs.
    pub fn items(&self) -> &[(u8, UpdateRequest)]
        ensures { result.now ≡ self.now }
    {
        self.inner.as_slice()
    }

    /// Lends the pair at an index, counted from 0, or `None` past the end.
    pub fn get(&self, i: usize) -> Option<&(u8, UpdateRequest)>
        ensures { option_copied result ≡ slice_get self.now i }
    {
        self.inner.get(i)
    }
}
