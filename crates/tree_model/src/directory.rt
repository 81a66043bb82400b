ghost use Rattle.std.specs.Prelude.{◌≡◌, ◌<◌, ◌^◌, IfOk, OnOk, OnErr};
ghost use Rattle.std.specs.FinMap as map;

use crate::name::Name;
use fid_space::Fid;
use std::alloc::{AllocError as Memory, Global};
use std::collections::BTreeMap;
use std::marker::Model;

/// The entries of a directory by their names, which contracts see as a finite map.
#[derive(Drop)]
pub struct Entries {
    inner: BTreeMap<Name, Fid>,
}

impl Model for Entries {
    ghost use Rattle.std.specs.FinMap.{FinMap, from_entries, code};
    ghost use Rattle.fid_space.specs.declared.fid.Fid.{Fid};
    ghost use Rattle.tree_model.specs.Fids.{name_cmp, coded_name, coded_fid};

    ghost Value = { FinMap name_cmp Fid };

    ghost coded = { code coded_name coded_fid };

    ghost view = { λ m. from_entries m.inner.entries };
}

impl Entries {
    /// No entry.
    pub fn new(alloc: Global) -> Entries
        ensures { result ≡ map.empty }
    {
        Entries {
            inner: BTreeMap::new(alloc),
        }
    }

    /// How many there are.
    pub fn len(&self) -> usize
        ensures value { result ≡ map.len self.now }
        ensures small { result < 2 ^ 63 }
    {
        self.inner.len()
    }

    /// What a name stands for.
    pub fn get(&self, name: &Name) -> Option<Fid>
        ensures { result ≡ map.get self.now name.now }
    {
        self.inner.get(name).copied()
    }

    /// Makes a name stand for a node. Want of memory changes nothing.
    pub fn insert(&mut self, name: Name, fid: Fid) -> Result<(), Memory>
        ensures ok { OnOk result (self.new ≡ map.insert self.old name fid) }
        ensures err { OnErr result (self.new ≡ self.old) }
    {
        self.inner.insert(name, fid)?;
        Ok(())
    }

    /// Takes a name away.
    pub fn remove(&mut self, name: &Name)
        ensures { self.new ≡ map.remove self.old name.now }
    {
        self.inner.remove(name);
    }

    /// The entries in the order of their names' bytes.
    pub fn inner(&self) -> &BTreeMap<Name, Fid>
        ensures { self.now ≡ map.from_entries result.now.entries }
    {
        &self.inner
    }
}
