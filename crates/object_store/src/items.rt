//! The entries, the attributes and the objects of an image, each with what is left behind it.

ghost use Rattle.std.specs.Prelude.{◌≡◌, ◌≤◌, None, length, IfOk, OnOk};
ghost use Rattle.std.specs.Option.{option_map};
ghost use Rattle.std.specs.FinMap as map;
ghost use Rattle.object_store.specs.Bodies.{is_allowed};
ghost use Rattle.tree_model.specs.Fids.{fid_cmp};
ghost use Rattle.object_store.specs.ImageReading.{Sees, Gives, rises, entry_at, attribute_at, rising_fid_at, object_at, items_at};

use crate::fault::ImageFault;
use crate::fields::{at, body, fid, name, number_16, number_32, padded};
use crate::meaning::name_of;
use crate::object::Stored;
use crate::objects::Objects;
use fid_space::{Bytes, Fid};
use std::alloc::{AllocError as Memory, Global};

/// An entry behind the last one.
#[tactic(auto, unfolding(crate::specs::ImageReading::entry_at))]
fn entry<'a>(
    len: usize,
    last: Option<&[u8]>,
    rest: &'a [u8],
) -> Result<(&'a [u8], Fid, &'a [u8]), ImageFault>
    ensures { Sees (λ x. ((x.0.now, x.1), x.2.now)) result (entry_at len (option_map (λ n. n.now) last.entry) rest.now) }
{
    let (size, rest) = number_16(1, 255, len, rest)?;
    let (_zero, rest) = number_16(0, 0, len, rest)?;
    let (_zero, rest) = number_32(0, 0, len, rest)?;
    let (fid, rest) = fid(u64::MAX, u32::MAX, len, rest)?;
    let (name, rest) = name(len, size, last, rest)?;
    Ok((name, fid, rest))
}

/// An attribute behind the last one.
#[tactic(auto, unfolding(crate::specs::ImageReading::attribute_at))]
fn attribute<'a>(
    len: usize,
    last: Option<&[u8]>,
    rest: &'a [u8],
) -> Result<(&'a [u8], &'a [u8], &'a [u8]), ImageFault>
    ensures value { Sees (λ x. ((x.0.now, x.1.now), x.2.now)) result (attribute_at len (option_map (λ n. n.now) last.entry) rest.now) }
    ensures short { IfOk result (λ x. length x.1.now ≤ 4096) }
{
    let (size, rest) = number_16(1, 255, len, rest)?;
    let (count, rest) = number_16(0, 4096, len, rest)?;
    let (_zero, rest) = number_32(0, 0, len, rest)?;
    let (name, rest) = name(len, size, last, rest)?;
    let (value, rest) = padded(len, count, rest)?;
    Ok((name, value, rest))
}

/// Keeps an entry.
fn keep_entry(alloc: Global, object: &mut Stored, name: &[u8], fid: Fid) -> Result<(), Memory>
    ensures { OnOk result (object.new ≡ record object.old { entries = map.insert object.old.entries name.now fid }) }
{
    object.set_entry(name_of(alloc, name)?, fid)
}

/// Keeps an attribute.
fn keep_attribute(
    alloc: Global,
    object: &mut Stored,
    name: &[u8],
    value: &[u8],
) -> Result<(), Memory>
    requires { length value.now ≤ 4096 }
    ensures { OnOk result (object.new ≡ record object.old { attributes = map.insert object.old.attributes name.now value.now }) }
{
    let name = name_of(alloc, name)?;
    let mut bytes = Bytes::new(alloc);
    bytes.append(value)?;
    object.set_attribute(name, bytes)
}

/// Reads so many entries into an object, and gives what is left behind them.
fn read_entries<'a>(
    alloc: Global,
    len: usize,
    count: u32,
    object: &mut Stored,
    bytes: &'a [u8],
) -> Result<&'a [u8], ImageFault>
    ensures value { Gives (λ x. (object.new.entries, x.now)) result (items_at (entry_at len) count None object.old.entries bytes.now) }
    ensures kept { OnOk result (object.new ≡ record object.old { entries = object.new.entries }) }
{
    let mut last: Option<&[u8]> = None;
    let mut rest = bytes;
    for _done in 0..count {
        let (name, fid, after) = entry(len, last, rest)?;
        keep_entry(alloc, object, name, fid)?;
        last = Some(name);
        rest = after;
    }
    Ok(rest)
}

/// Reads so many attributes into an object, and gives what is left behind them.
fn read_attributes<'a>(
    alloc: Global,
    len: usize,
    count: u32,
    object: &mut Stored,
    bytes: &'a [u8],
) -> Result<&'a [u8], ImageFault>
    ensures value { Gives (λ x. (object.new.attributes, x.now)) result (items_at (attribute_at len) count None object.old.attributes bytes.now) }
    ensures kept { OnOk result (object.new ≡ record object.old { attributes = object.new.attributes }) }
{
    let mut last: Option<&[u8]> = None;
    let mut rest = bytes;
    for _done in 0..count {
        let (name, value, after) = attribute(len, last, rest)?;
        keep_attribute(alloc, object, name, value)?;
        last = Some(name);
        rest = after;
    }
    Ok(rest)
}

/// Whether a FID may stand behind the last one.
fn rises(last: Option<Fid>, fid: Fid) -> bool
    ensures { result ≡ rises fid_cmp last fid }
{
    match last {
        None => true,
        Some(last) => last.cmp(&fid).is_lt(),
    }
}

/// A FID behind the last one.
#[tactic(auto, unfolding(crate::specs::ImageReading::rising_fid_at))]
fn rising_fid(len: usize, last: Option<Fid>, rest: &[u8]) -> Result<(Fid, &[u8]), ImageFault>
    ensures { Sees (λ x. (x.0, x.1.now)) result (rising_fid_at len last rest.now) }
{
    let (fid, after) = fid(u64::MAX, u32::MAX, len, rest)?;
    if rises(last, fid) {
        Ok((fid, after))
    } else {
        Err(ImageFault::BadImage(at(len, rest)))
    }
}

/// An object behind the last one.
#[tactic(auto, unfolding(crate::specs::ImageReading::object_at))]
fn object<'a>(
    alloc: Global,
    len: usize,
    last: Option<Fid>,
    rest: &'a [u8],
) -> Result<(Fid, Stored, &'a [u8]), ImageFault>
    ensures { Gives (λ x. ((x.0, x.1), x.2.now)) result (object_at len last rest.now) }
{
    let (fid, rest) = rising_fid(len, last, rest)?;
    let (body, rest) = body(len, rest)?;
    let (entries, rest) = number_32(0, u32::MAX, len, rest)?;
    let (attributes, rest) = number_32(0, u32::MAX, len, rest)?;
    let mut object = Stored::new(alloc, body);
    let rest = read_entries(alloc, len, entries, &mut object, rest)?;
    let rest = read_attributes(alloc, len, attributes, &mut object, rest)?;
    Ok((fid, object, rest))
}

/// So many objects, and what is left behind them.
pub(crate) fn read_objects<'a>(
    alloc: Global,
    len: usize,
    count: u32,
    bytes: &'a [u8],
) -> Result<(Objects, &'a [u8]), ImageFault>
    ensures { Gives (λ x. (x.0, x.1.now)) result (items_at (object_at len) count None map.empty bytes.now) }
{
    let mut objects = Objects::none(alloc);
    let mut last = None;
    let mut rest = bytes;
    for _done in 0..count {
        let (fid, object, after) = object(alloc, len, last, rest)?;
        objects.put(fid, object)?;
        last = Some(fid);
        rest = after;
    }
    Ok((objects, rest))
}
