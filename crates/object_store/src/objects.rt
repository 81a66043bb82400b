ghost use Rattle.std.specs.Prelude.{◌≡◌, ◌<◌, ◌≤◌, ◌^◌, IfOk, OnOk, OnErr};
ghost use Rattle.std.specs.Option.{option_map};
ghost use Rattle.std.specs.FinMap as map;
ghost use Rattle.object_store.specs.Objects.{Object, first_objects};
ghost use Rattle.object_store.specs.Sizes.{object_size, image_size};

use crate::body::Body;
use crate::object::{Stored, longer, replaced};
use fid_space::{Cluster, Fid};
use std::alloc::{AllocError as Memory, Global};
use std::collections::BTreeMap;
use std::marker::Model;

/// The objects of a target, which contracts see as a finite map by FID.
#[derive(Drop)]
pub struct Objects {
    alloc: Global,
    inner: BTreeMap<Fid, Stored>,
    size: u64,
}

impl Model for Objects {
    ghost use Rattle.std.specs.FinMap.{from_entries};
    ghost use Rattle.object_store.specs.Objects.{ObjectMap, coded_objects};
    ghost use Rattle.object_store.specs.Sizes.{AreStored};

    ghost Value = { ObjectMap };

    ghost coded = { coded_objects };

    ghost view = { λ o. from_entries o.inner.entries };

    ghost invariant = { λ o. AreStored (from_entries o.inner.entries) o.size };
}

/// The longest image.
const LONGEST: u64 = 1 << 62;

/// A size that isn't above the longest.
fn within(size: u64) -> Result<u64, Memory>
    ensures { IfOk result (λ s. (s ≡ size) × (s ≤ 2 ^ 62)) }
{
    if size <= LONGEST {
        Ok(size)
    } else {
        Err(Memory)
    }
}

impl Objects {
    /// What a target of the cluster has at first: target 0 the root, with mode 0o755 and without entries,
    /// the others nothing.
    pub fn new(alloc: Global, _cluster: Cluster, target: u8) -> Result<Objects, Memory>
        ensures { IfOk result (λ objects. objects ≡ first_objects target) }
    {
        let mut objects = Objects::none(alloc);
        if target == 0 {
            objects.put(Fid::ROOT, Stored::new(alloc, Body::root()))?;
        }
        Ok(objects)
    }

    /// No object.
    pub(crate) fn none(alloc: Global) -> Objects
        ensures { result ≡ map.empty }
    {
        Objects {
            alloc,
            inner: BTreeMap::new(alloc),
            size: 8,
        }
    }

    pub(crate) fn alloc(&self) -> Global {
        self.alloc
    }

    /// The objects in the order of their FIDs.
    pub(crate) fn inner(&self) -> &BTreeMap<Fid, Stored>
        ensures { self.now ≡ map.from_entries result.now.entries }
    {
        &self.inner
    }

    /// The object with a FID.
    pub(crate) fn get(&self, fid: Fid) -> Option<&Stored>
        ensures { option_map (λ o. o.now) result ≡ map.get self.now fid }
    {
        self.inner.get(&fid)
    }

    /// The size with an object more, or with one in place of another.
    fn size_with(&self, fid: Fid, more: u64) -> Result<u64, Memory>
        ensures { IfOk result (λ size. (o : Object) → more ≡ object_size o → (size ≡ image_size (map.insert self.now fid o)) × (map.len (map.insert self.now fid o) < 2 ^ 32)) }
    {
        match self.inner.get(&fid) {
            Some(old) => replaced(self.size, old.size(), more),
            None => longer(self.size, more, self.inner.len()),
        }
    }

    /// Puts an object under a FID, in place of what is there. Want of memory changes nothing.
    pub(crate) fn put(&mut self, fid: Fid, object: Stored) -> Result<(), Memory>
        ensures ok { OnOk result (self.new ≡ map.insert self.old fid object) }
        ensures err { OnErr result (self.new ≡ self.old) }
    {
        let sum = self.size_with(fid, object.size())?;
        let size = within(sum)?;
        self.inner.insert(fid, object)?;
        self.size = size;
        Ok(())
    }

    /// Takes an object out.
    pub(crate) fn take(&mut self, fid: Fid) -> Option<Stored>
        ensures value { result ≡ map.get self.old fid }
        ensures taken { self.new ≡ map.remove self.old fid }
    {
        match self.inner.remove(&fid) {
            Some(object) => {
                self.size -= object.size();
                Some(object)
            }
            None => None,
        }
    }

    /// The length of their image.
    pub(crate) fn image_size(&self) -> u64
        ensures value { result ≡ image_size self.now }
        ensures small { result ≤ 2 ^ 62 }
    {
        self.size
    }

    /// How many there are.
    pub(crate) fn count(&self) -> u32
        ensures { result ≡ map.len self.now }
    {
        self.inner.len() as u32
    }
}
