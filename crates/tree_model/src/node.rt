ghost use Rattle.std.specs.Prelude.{◌≡◌, ◌<◌, ◌^◌, IfOk, OnOk, OnErr};
ghost use Rattle.std.specs.Option.{option_map};
ghost use Rattle.std.specs.FinMap as map;

use crate::name::Name;
use fid_space::{Bytes, Fid};
use std::alloc::{AllocError as Memory, Global};
use std::collections::BTreeMap;
use std::marker::Model;

/// A file or a directory, with the attributes that POSIX `stat` gives.
#[derive(Drop)]
pub struct Node {
    /// Whether it is a directory.
    pub dir: bool,
    /// The permission bits, of which a text shows the low twelve.
    pub mode: u16,
    /// The owner.
    pub uid: u32,
    /// The group.
    pub gid: u32,
    /// How many links there are; 2 for a directory.
    pub links: u32,
    /// Of a directory the one that has it, of the root the root; of a file the FID of zeros.
    pub parent: Fid,
    /// The extended attributes.
    pub xattrs: Xattrs,
}

/// The extended attributes of a node by their names, which contracts see as a finite map.
#[derive(Drop)]
pub struct Xattrs {
    inner: BTreeMap<Name, Bytes>,
}

impl Model for Xattrs {
    ghost use Rattle.std.specs.Prelude.{List, ℕ};
    ghost use Rattle.std.specs.FinMap.{FinMap, from_entries, code};
    ghost use Rattle.tree_model.specs.Fids.{name_cmp, coded_name};

    ghost Value = { FinMap name_cmp (List ℕ) };

    ghost coded = { code coded_name coded_name };

    ghost view = { λ m. from_entries m.inner.entries };
}

impl Xattrs {
    /// No attribute.
    pub fn new(alloc: Global) -> Xattrs
        ensures { result ≡ map.empty }
    {
        Xattrs {
            inner: BTreeMap::new(alloc),
        }
    }

    /// How many there are.
    pub fn len(&self) -> usize
        ensures value { result ≡ map.len self.now }
        ensures small { result < 2 ^ 63 }
    {
        self.inner.len()
    }

    /// The value of an attribute.
    pub fn get(&self, name: &Name) -> Option<&Bytes>
        ensures { option_map (λ v. v.now) result ≡ map.get self.now name.now }
    {
        self.inner.get(name)
    }

    /// Sets an attribute. Want of memory changes nothing.
    pub fn insert(&mut self, name: Name, value: Bytes) -> Result<(), Memory>
        ensures ok { OnOk result (self.new ≡ map.insert self.old name value) }
        ensures err { OnErr result (self.new ≡ self.old) }
    {
        self.inner.insert(name, value)?;
        Ok(())
    }

    /// Takes an attribute away.
    pub fn remove(&mut self, name: &Name)
        ensures { self.new ≡ map.remove self.old name.now }
    {
        self.inner.remove(name);
    }

    /// The attributes in the order of their names' bytes.
    pub fn inner(&self) -> &BTreeMap<Name, Bytes>
        ensures { self.now ≡ map.from_entries result.now.entries }
    {
        &self.inner
    }
}
