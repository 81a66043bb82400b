ghost use Rattle.std.specs.declared.alloc.Global.{Global};
ghost use Rattle.std.specs.Prelude.{◌≡◌, ◌++◌, ◌∷◌, [], length, take, slice_get, ◌==◌, OnOk, OnErr};

use std::alloc::{AllocError as Memory, Global};
use std::marker::Model;

/// A list of bytes, which contracts see as a list.
#[derive(Clone, Debug, Drop)]
pub struct Bytes {
    inner: Vec<u8>,
}

impl Model for Bytes {
    ghost use Rattle.std.specs.Prelude.{List, ℕ};

    ghost Value = { List ℕ };

    ghost view = { λ b. b.inner.items };
}

impl Bytes {
    /// The empty list.
    pub fn new(alloc: Global) -> Bytes
        ensures { result ≡ [] }
    {
        Bytes {
            inner: Vec::new(alloc),
        }
    }

    /// Adds a byte at the end. Want of memory changes nothing.
    pub fn push(&mut self, item: u8) -> Result<(), Memory>
        ensures ok { OnOk result (self.new ≡ self.old ++ item ∷ []) }
        ensures err { OnErr result (self.new ≡ self.old) }
    {
        self.inner.push(item)?;
        Ok(())
    }

    /// Adds all of the bytes at the end. Want of memory changes nothing.
    pub fn append(&mut self, bytes: &[u8]) -> Result<(), Memory>
        ensures ok { OnOk result (self.new ≡ self.old ++ bytes.now) }
        ensures err { OnErr result (self.new ≡ self.old) }
    {
        self.inner.extend_from_slice(bytes)
    }

    /// Makes the list empty, and keeps its memory.
    pub fn clear(&mut self)
        ensures { self.new ≡ [] }
    {
        self.inner.clear();
    }

    /// Keeps the first so many bytes, or all where there are no more, and keeps its memory.
    pub fn truncate(&mut self, len: usize)
        ensures { self.new ≡ take len self.old }
    {
        self.inner.truncate(len);
    }

    /// Takes the memory for so many bytes more, which `append` and `push` then need not take. It changes no
    /// byte, with memory or without.
    pub fn reserve(&mut self, additional: usize) -> Result<(), Memory>
        ensures { self.new ≡ self.old }
    {
        self.inner.reserve(additional)
    }

    /// How many bytes there are.
    pub fn len(&self) -> usize
        ensures { result ≡ length self.now }
    {
        self.inner.len()
    }

    /// Whether there is no byte.
    pub fn is_empty(&self) -> bool
        ensures { result ≡ (length self.now == 0) }
    {
        self.inner.is_empty()
    }

    /// The byte at an index, counted from 0, or `None` past the end.
    pub fn get(&self, i: usize) -> Option<u8>
        ensures { result ≡ slice_get self.now i }
    {
        self.inner.get(i).copied()
    }

    /// Lends the bytes.
    pub fn bytes(&self) -> &[u8]
        ensures { result.now ≡ self.now }
    {
        self.inner.as_slice()
    }

    /// The allocator that the list was made with, which is the program's only one.
    pub fn alloc(&self) -> Global
        ensures { (other : Global) → result ≡ other }
    {
        *self.inner.allocator()
    }
}
