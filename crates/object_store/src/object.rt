ghost use Rattle.std.specs.Prelude.{◌≡◌, ◌+◌, ◌<◌, ◌≤◌, ◌^◌, true, IfOk, IfSome, OnOk, length};
ghost use Rattle.std.specs.FinMap as map;
ghost use Rattle.fid_space.specs.declared.fid.Fid.{Fid};
ghost use Rattle.object_store.specs.Bodies.{is_allowed};
ghost use Rattle.object_store.specs.Objects.{fresh};
ghost use Rattle.object_store.specs.Sizes.{object_size, padded, attribute_size};
ghost use Rattle.object_store.specs.Meaning.{with_body};

use crate::body::Body;
use byte_grammar::padding_of;
use fid_space::{Bytes, Fid};
use std::alloc::{AllocError as Memory, Global};
use std::marker::Model;
use tree_model::{Entries, Name, Xattrs};

/// An object as it is kept: what contracts see of it, and the length of its image.
#[derive(Drop)]
pub(crate) struct Stored {
    body: Body,
    entries: Entries,
    attributes: Xattrs,
    size: u64,
}

impl Model for Stored {
    ghost use Rattle.object_store.specs.Objects.{Object, coded_object};
    ghost use Rattle.object_store.specs.Sizes.{IsStored};

    ghost Value = { Object };

    ghost coded = { coded_object };

    ghost view = { λ o. record { body = o.body; entries = o.entries; attributes = o.attributes } };

    ghost invariant = { λ o. IsStored (record { body = o.body; entries = o.entries; attributes = o.attributes }) o.size };
}

/// The most entries, attributes or objects that a count of 32 bits tells.
pub(crate) const MOST: usize = 0xffff_ffff;

impl Stored {
    /// A new object with this body.
    pub(crate) fn new(alloc: Global, body: Body) -> Stored
        requires { is_allowed body ≡ true }
        ensures { result ≡ fresh body }
    {
        Stored {
            body,
            entries: Entries::new(alloc),
            attributes: Xattrs::new(alloc),
            size: 72,
        }
    }

    /// Its body.
    #[tactic(auto, using(crate::proofs::Allowed::limits))]
    pub(crate) fn body(&self) -> &Body
        ensures value { result.now ≡ self.now.body }
        ensures allowed { is_allowed self.now.body ≡ true }
        ensures links { self.now.body.links ≤ 65000 }
        ensures mode { self.now.body.mode ≤ 4095 }
    {
        &self.body
    }

    /// The length of its image.
    pub(crate) fn size(&self) -> u64
        ensures { result ≡ object_size self.now }
    {
        self.size
    }

    /// Its entries by name.
    pub(crate) fn entries(&self) -> &Entries
        ensures value { result.now ≡ self.now.entries }
        ensures few { map.len self.now.entries < 2 ^ 32 }
    {
        &self.entries
    }

    /// Its extended attributes by name.
    pub(crate) fn attributes(&self) -> &Xattrs
        ensures value { result.now ≡ self.now.attributes }
        ensures few { map.len self.now.attributes < 2 ^ 32 }
        ensures short { (name : _) → IfSome (map.get self.now.attributes name) (λ v. length v ≤ 4096) }
    {
        &self.attributes
    }

    /// Gives it another body, if that one is allowed.
    #[tactic(auto, unfolding(crate::specs::Meaning::with_body))]
    pub(crate) fn set_body(&mut self, body: Body)
        ensures { self.new ≡ with_body self.old body }
    {
        if body.is_allowed() {
            self.body = body;
        }
    }

    /// Its size with one entry more, or with another FID under the name.
    fn size_with_entry(&self, name: &Name) -> Result<u64, Memory>
        ensures { IfOk result (λ size. (fid : Fid) → (size ≡ object_size (record self.now { entries = map.insert self.now.entries name.now fid }))
            × (map.len (map.insert self.now.entries name.now fid) < 2 ^ 32)) }
    {
        match self.entries.get(name) {
            Some(_) => Ok(self.size),
            None => longer(self.size, 24 + name_size(name), self.entries.len()),
        }
    }

    /// Makes a name stand for a FID. After want of memory it is some object.
    pub(crate) fn set_entry(&mut self, name: Name, fid: Fid) -> Result<(), Memory>
        ensures { OnOk result (self.new ≡ record self.old { entries = map.insert self.old.entries name fid }) }
    {
        let size = self.size_with_entry(&name)?;
        self.entries.insert(name, fid)?;
        self.size = size;
        Ok(())
    }

    /// Its size without an entry.
    fn size_without_entry(&self, name: &Name) -> u64
        ensures { result ≡ object_size (record self.now { entries = map.remove self.now.entries name.now }) }
    {
        match self.entries.get(name) {
            Some(_) => self.size - (24 + name_size(name)),
            None => self.size,
        }
    }

    /// Takes a name away.
    pub(crate) fn drop_entry(&mut self, name: &Name)
        ensures { self.new ≡ record self.old { entries = map.remove self.old.entries name.now } }
    {
        let size = self.size_without_entry(name);
        self.entries.remove(name);
        self.size = size;
    }

    /// Its size with one attribute more, or with another value of it.
    fn size_with_attribute(&self, name: &Name, value: &Bytes) -> Result<u64, Memory>
        requires { length value.now ≤ 4096 }
        ensures { IfOk result (λ size. (size ≡ object_size (record self.now { attributes = map.insert self.now.attributes name.now value.now }))
            × (map.len (map.insert self.now.attributes name.now value.now) < 2 ^ 32)) }
    {
        let more = attribute_size(name, value);
        match self.attributes.get(name) {
            Some(old) => replaced(self.size, attribute_size(name, old), more),
            None => longer(self.size, more, self.attributes.len()),
        }
    }

    /// Sets an attribute. After want of memory it is some object.
    pub(crate) fn set_attribute(&mut self, name: Name, value: Bytes) -> Result<(), Memory>
        requires { length value ≤ 4096 }
        ensures { OnOk result (self.new ≡ record self.old { attributes = map.insert self.old.attributes name value }) }
    {
        let size = self.size_with_attribute(&name, &value)?;
        self.attributes.insert(name, value)?;
        self.size = size;
        Ok(())
    }

    /// Its size without an attribute.
    fn size_without_attribute(&self, name: &Name) -> u64
        ensures { result ≡ object_size (record self.now { attributes = map.remove self.now.attributes name.now }) }
    {
        match self.attributes.get(name) {
            Some(value) => self.size - attribute_size(name, value),
            None => self.size,
        }
    }

    /// Takes an attribute away.
    pub(crate) fn drop_attribute(&mut self, name: &Name)
        ensures { self.new ≡ record self.old { attributes = map.remove self.old.attributes name.now } }
    {
        let size = self.size_without_attribute(name);
        self.attributes.remove(name);
        self.size = size;
    }
}

/// How many bytes a name takes with its padding.
pub(crate) fn name_size(name: &Name) -> u64
    ensures value { result ≡ padded (length name.now) }
    ensures small { result ≤ 262 }
{
    let len = name.bytes().len();
    (len + padding_of(len as u32)) as u64
}

/// How many bytes an attribute takes.
pub(crate) fn attribute_size(name: &Name, value: &Bytes) -> u64
    requires { length value.now ≤ 4096 }
    ensures value { result ≡ attribute_size name.now value.now }
    ensures small { result ≤ 4373 }
{
    let len = value.len();
    8 + name_size(name) + (len + padding_of(len as u32)) as u64
}

/// A size with so much more, where one more may be counted.
pub(crate) fn longer(size: u64, more: u64, count: usize) -> Result<u64, Memory>
    ensures { IfOk result (λ s. (s ≡ size + more) × (count + 1 < 2 ^ 32)) }
{
    if count >= MOST {
        return Err(Memory);
    }
    match size.checked_add(more) {
        Some(size) => Ok(size),
        None => Err(Memory),
    }
}

/// A size with one part in place of another.
pub(crate) fn replaced(size: u64, less: u64, more: u64) -> Result<u64, Memory>
    requires { less ≤ size }
    ensures { IfOk result (λ s. s + less ≡ size + more) }
{
    match (size - less).checked_add(more) {
        Some(size) => Ok(size),
        None => Err(Memory),
    }
}
