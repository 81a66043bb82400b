ghost use Rattle.std.specs.Prelude.{◌≡◌, ◌++◌, ◌∷◌, [], length, OnOk};

use fid_space::Fid;
use std::alloc::{AllocError as Memory, Global};
use std::marker::Model;
use tree_model::Name;

/// Entries, each with its name and what it stands for, in the order in which they were told.
#[derive(Debug, Drop)]
pub struct EntryList {
    inner: Vec<(Name, Fid)>,
}

impl Model for EntryList {
    ghost use Rattle.std.specs.Prelude.{List, ℕ};
    ghost use Rattle.fid_space.specs.declared.fid.Fid.{Fid};

    ghost Value = { List (List ℕ × Fid) };

    ghost view = { λ l. l.inner.items };
}

impl EntryList {
    /// No entry.
    pub fn new(alloc: Global) -> EntryList
        ensures { result ≡ [] }
    {
        EntryList {
            inner: Vec::new(alloc),
        }
    }

    /// Adds an entry at the end. After want of memory it is some list.
    pub fn push(&mut self, name: Name, child: Fid) -> Result<(), Memory>
        ensures { OnOk result (self.new ≡ self.old ++ (name, child) ∷ []) }
    {
        self.inner.push((name, child))?;
        Ok(())
    }

    /// How many there are.
    pub fn len(&self) -> usize
        ensures { result ≡ length self.now }
    {
        self.inner.len()
    }

    /// Lends them.
    pub fn items(&self) -> &[(Name, Fid)]
        ensures { result.now ≡ self.now }
    {
        self.inner.as_slice()
    }

    /// Adds copies of others at the end. After want of memory it is some list.
    pub fn extend(&mut self, alloc: Global, more: &EntryList) -> Result<(), Memory>
        ensures { OnOk result (self.new ≡ self.old ++ more.now) }
    {
        for (name, child) in more.items() {
            self.push(name.copy(alloc)?, *child)?;
        }
        Ok(())
    }
}
