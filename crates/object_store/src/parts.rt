//! The parts of an image in order: the count, and of each object its head, its entries and its attributes.

ghost use Rattle.std.specs.Prelude.{◌≡◌, ◌++◌, ◌≤◌, ◌+◌, [], length, drop, MatchOption};
ghost use Rattle.std.specs.List.{flat_map};
ghost use Rattle.std.specs.FinMap as map;
ghost use Rattle.object_store.specs.ImageText.{entry_text, attribute_text, object_text};
ghost use Rattle.object_store.specs.Pieces.{IsLaid, PartFits, ItemsFit, MaybeItemsFit, head_text, part_text, maybe_part, items_text, maybe_items};

use crate::copying::{copy_bytes, copy_padded, copy_two};
use crate::heads::{attribute_head, entry_head, image_head, object_head};
use crate::object::{Stored, attribute_size, name_size};
use fid_space::{Bytes, Fid};
use std::collections::btree_map::Iter;
use tree_model::Name;

/// A part of an image.
#[derive(Clone, Copy)]
pub(crate) enum Part<'a> {
    /// The count of the objects.
    Count(u32),
    /// What stands before the entries of an object.
    Head(Fid, &'a Stored),
    /// An entry.
    Entry(&'a Name, Fid),
    /// An attribute.
    Attribute(&'a Name, &'a Bytes),
}

/// Copies what fits of an object's head behind the first `skip` bytes.
fn copy_head(fid: Fid, object: &Stored, skip: usize, into: &mut [u8]) -> usize
    ensures { IsLaid (drop skip (head_text fid object.now)) into.old into.new result }
{
    let (entries, attributes) = (object.entries().len(), object.attributes().len());
    let head = object_head(fid, object.body(), entries as u32, attributes as u32);
    copy_bytes(&head, skip, into)
}

/// The same of an entry.
fn copy_entry(name: &Name, fid: Fid, skip: usize, into: &mut [u8]) -> usize
    ensures { IsLaid (drop skip (entry_text (name.now, fid))) into.old into.new result }
{
    let bytes = name.bytes();
    copy_two(&entry_head(bytes.len() as u16, fid), bytes, skip, into)
}

/// The same of an attribute.
fn copy_attribute(name: &Name, value: &[u8], skip: usize, into: &mut [u8]) -> usize
    requires { length value.now ≤ 4096 }
    ensures { IsLaid (drop skip (attribute_text (name.now, value.now))) into.old into.new result }
{
    let bytes = name.bytes();
    let head = attribute_head(bytes.len() as u16, value.len() as u16);
    let first = copy_two(&head, bytes, skip, into);
    let before = 8 + name_size(name) as usize;
    let second = copy_padded(value, skip.saturating_sub(before), &mut into[first..]);
    first + second
}

impl Part<'_> {
    /// How many bytes it has.
    pub(crate) fn size(&self) -> u64
        requires { PartFits self.now }
        ensures value { result ≡ length (part_text self.now) }
        ensures some { 8 ≤ result }
        ensures small { result ≤ 4373 }
    {
        match self {
            Part::Count(_) => 8,
            Part::Head(_, _) => 72,
            Part::Entry(name, _) => 24 + name_size(name),
            Part::Attribute(name, value) => attribute_size(name, value),
        }
    }

    /// Copies what fits of it behind its first `skip` bytes, and answers how many bytes that are.
    pub(crate) fn copy(&self, skip: usize, into: &mut [u8]) -> usize
        requires { PartFits self.now }
        ensures { IsLaid (drop skip (part_text self.now)) into.old into.new result }
    {
        match *self {
            Part::Count(count) => copy_bytes(&image_head(count), skip, into),
            Part::Head(fid, object) => copy_head(fid, object, skip, into),
            Part::Entry(name, fid) => copy_entry(name, fid, skip, into),
            Part::Attribute(name, value) => copy_attribute(name, value.bytes(), skip, into),
        }
    }
}

/// The entries and the attributes of an object that aren't begun.
#[derive(Drop)]
pub(crate) struct Items<'a> {
    entries: Iter<'a, Name, Fid>,
    attributes: Iter<'a, Name, Bytes>,
}

impl<'a> Items<'a> {
    /// All of an object.
    pub(crate) fn of(object: &'a Stored) -> Items<'a>
        ensures text { items_text result ≡ flat_map entry_text (map.entries object.now.entries) ++ flat_map attribute_text (map.entries object.now.attributes) }
        ensures fits { ItemsFit result }
    {
        Items {
            entries: object.entries().inner().iter(),
            attributes: object.attributes().inner().iter(),
        }
    }

    /// Takes the next one out.
    fn next(&mut self) -> Option<Part<'a>>
        requires { ItemsFit self.old }
        ensures text { items_text self.old ≡ maybe_part result ++ items_text self.new }
        ensures kinds { MatchOption result (items_text self.new ≡ []) PartFits }
        ensures fits { ItemsFit self.new }
    {
        if let Some((name, fid)) = self.entries.next() {
            return Some(Part::Entry(name, *fid));
        }
        match self.attributes.next() {
            Some((name, value)) => Some(Part::Attribute(name, value)),
            None => None,
        }
    }
}

/// Takes the next one out, where there are some.
pub(crate) fn next_item<'a>(items: &mut Option<Items<'a>>) -> Option<Part<'a>>
    requires { MaybeItemsFit items.old }
    ensures text { maybe_items items.old ≡ maybe_part result ++ maybe_items items.new }
    ensures kinds { MatchOption result (maybe_items items.new ≡ []) PartFits }
    ensures fits { MaybeItemsFit items.new }
{
    match items {
        Some(items) => items.next(),
        None => None,
    }
}

/// The object in which the byte at a place behind the objects' start stands, and its place in there. The
/// objects before it are passed over by their sizes.
pub(crate) fn next_object<'a>(
    objects: &mut Iter<'a, Fid, Stored>,
    at: u64,
) -> Option<(Fid, &'a Stored, u64)>
    ensures text { MatchOption result (length (flat_map object_text objects.old) ≤ at) (λ x. drop at (flat_map object_text objects.old) ≡ drop x.2 (object_text (x.0, x.1.now) ++ flat_map object_text objects.new)) }
    ensures left { MatchOption result (objects.new ≡ []) (λ x. length (flat_map object_text objects.new) + length (object_text (x.0, x.1.now)) ≤ length (flat_map object_text objects.old)) }
{
    let mut place = at;
    while let Some((fid, object)) = objects.next() {
        if place < object.size() {
            return Some((*fid, object, place));
        }
        place -= object.size();
    }
    None
}
