ghost use Rattle.std.specs.Prelude.{◌≡◌, ◌++◌, ◌∷◌, [], length, slice_get, OnOk, OnErr};

use crate::fid::Fid;
use std::alloc::{AllocError as Memory, Global};
use std::marker::Model;

/// A list of numbers, which contracts see as a list.
#[derive(Debug, Drop)]
pub struct Numbers {
    inner: Vec<u32>,
}

impl Model for Numbers {
    ghost use Rattle.std.specs.Prelude.{List, ℕ};

    ghost Value = { List ℕ };

    ghost view = { λ b. b.inner.items };
}

impl Numbers {
    /// The empty list.
    pub fn new(alloc: Global) -> Numbers
        ensures { result ≡ [] }
    {
        Numbers {
            inner: Vec::new(alloc),
        }
    }

    /// Adds a number at the end. Want of memory changes nothing.
    pub fn push(&mut self, item: u32) -> Result<(), Memory>
        ensures ok { OnOk result (self.new ≡ self.old ++ item ∷ []) }
        ensures err { OnErr result (self.new ≡ self.old) }
    {
        self.inner.push(item)?;
        Ok(())
    }

    /// How many numbers there are.
    pub fn len(&self) -> usize
        ensures { result ≡ length self.now }
    {
        self.inner.len()
    }

    /// The number at an index, counted from 0, or `None` past the end.
    pub fn get(&self, i: usize) -> Option<u32>
        ensures { result ≡ slice_get self.now i }
    {
        self.inner.get(i).copied()
    }
}

/// A list of FIDs, which contracts see as a list.
#[derive(Debug, Drop)]
pub struct Fids {
    inner: Vec<Fid>,
}

impl Model for Fids {
    ghost use Rattle.std.specs.Prelude.{List};
    ghost use Rattle.fid_space.specs.declared.fid.Fid.{Fid};

    ghost Value = { List Fid };

    ghost view = { λ b. b.inner.items };
}

impl Fids {
    /// The empty list.
    pub fn new(alloc: Global) -> Fids
        ensures { result ≡ [] }
    {
        Fids {
            inner: Vec::new(alloc),
        }
    }

    /// Adds a FID at the end. Want of memory changes nothing.
    pub fn push(&mut self, item: Fid) -> Result<(), Memory>
        ensures ok { OnOk result (self.new ≡ self.old ++ item ∷ []) }
        ensures err { OnErr result (self.new ≡ self.old) }
    {
        self.inner.push(item)?;
        Ok(())
    }

    /// How many FIDs there are.
    pub fn len(&self) -> usize
        ensures { result ≡ length self.now }
    {
        self.inner.len()
    }

    /// The FID at an index, counted from 0, or `None` past the end.
    pub fn get(&self, i: usize) -> Option<Fid>
        ensures { result ≡ slice_get self.now i }
    {
        self.inner.get(i).copied()
    }
}
