ghost use Rattle.std.specs.Prelude.{◌≡◌, ◌++◌, ◌∷◌, [], length, slice_get, OnOk, OnErr};
ghost use Rattle.std.specs.Option.{option_copied};
ghost use Rattle.update_recovery.specs.Steps.{told};

use fid_space::Numbers;
use std::alloc::{AllocError as Memory, AllocFailed, Global};
use std::marker::Model;

/// Targets, each with the numbers of requests.
#[derive(Debug, Drop)]
pub struct Listed {
    inner: Vec<(u8, Numbers)>,
}

impl Model for Listed {
    ghost use Rattle.std.specs.Prelude.{List, ℕ};

    ghost Value = { List (ℕ × List ℕ) };

    ghost view = { λ b. b.inner.items };
}

impl Listed {
    /// The empty list.
    pub fn new(alloc: Global) -> Listed
        ensures { result ≡ [] }
    {
        Listed {
            inner: Vec::new(alloc),
        }
    }

    /// Adds a target with its numbers. Want of memory changes nothing.
    pub fn push(&mut self, item: (u8, Numbers)) -> Result<(), Memory>
        ensures ok { OnOk result (self.new ≡ self.old ++ item ∷ []) }
        ensures err { OnErr result (self.new ≡ self.old) }
    {
        match self.inner.push(item) {
            Ok(()) => Ok(()),
            Err(AllocFailed { .. }) => Err(Memory),
        }
    }

    /// Adds a target with its numbers, if there are any.
    pub(crate) fn tell(&mut self, target: u8, numbers: Numbers) -> Result<(), Memory>
        ensures ok { OnOk result (self.new ≡ self.old ++ told target numbers) }
    {
        if numbers.len() == 0 {
            return Ok(());
        }
        self.push((target, numbers))
    }

    /// How many targets there are.
    pub fn len(&self) -> usize
        ensures { result ≡ length self.now }
    {
        self.inner.len()
    }

    /// Lends the target at an index, counted from 0, with its numbers, or `None` past the end.
    pub fn get(&self, i: usize) -> Option<&(u8, Numbers)>
        ensures { option_copied result ≡ slice_get self.now i }
    {
        self.inner.get(i)
    }

    /// Lends all targets with their numbers.
    pub fn items(&self) -> &[(u8, Numbers)]
        ensures { result.now ≡ self.now }
    {
        self.inner.as_slice()
    }
}
