//! The fields of an image, each with what is left behind it. `len` is the length of the whole input.

ghost use Rattle.std.specs.Prelude.{◌≡◌, ◌+◌, ◌≤◌, ◌<◌, ◌^◌, true, length, IfOk, IfSome};
ghost use Rattle.std.specs.Int.{w8, w16, w32, w64};
ghost use Rattle.std.specs.Option.{option_map};
ghost use Rattle.tree_model.specs.Fids.{name_cmp};
ghost use Rattle.out_update.specs.Names.{name_fault, first_bad};
ghost use Rattle.object_store.specs.Bodies.{is_allowed};
ghost use Rattle.object_store.specs.Objects.{kind_of};
ghost use Rattle.object_store.specs.ImageReading.{Sees, at, field_at, number_at, unless_bad, zeros_at, padded_at, fid_at, layout_at, numbers_at, body_at, rises, bad_name, name_at};

use crate::body::{Body, ObjectKind};
use crate::fault::ImageFault;
use crate::limits::{Limits, limits_of};
use byte_grammar::{number8, number16, number32, number64, padding_of, set_byte};
use fid_space::Fid;
use striped_dir::Layout;

/// The place of what is left.
pub(crate) fn at(len: usize, rest: &[u8]) -> usize
    ensures { result ≡ at len rest.now }
{
    len.saturating_sub(rest.len())
}

/// A field of `n` bytes.
#[tactic(auto, unfolding(crate::specs::ImageReading::field_at))]
fn field(len: usize, n: usize, rest: &[u8]) -> Result<(&[u8], &[u8]), ImageFault>
    ensures value { Sees (λ x. (x.0.now, x.1.now)) result (field_at len n rest.now) }
    ensures size { IfOk result (λ x. length x.0.now ≡ n) }
    ensures sum { IfOk result (λ x. length x.0.now + length x.1.now ≡ length rest.now) }
{
    if rest.len() < n {
        return Err(ImageFault::BadImage(len));
    }
    Ok(rest.split_at(n))
}

/// A number of one byte from `low` to `high`.
#[tactic(auto, unfolding(crate::specs::ImageReading::number_at))]
fn number_8(low: u8, high: u8, len: usize, rest: &[u8]) -> Result<(u8, &[u8]), ImageFault>
    ensures value { Sees (λ x. (x.0, x.1.now)) result (number_at w8 low high len rest.now) }
{
    let (bytes, after) = field(len, 1, rest)?;
    let number = number8(bytes);
    if low <= number && number <= high {
        Ok((number, after))
    } else {
        Err(ImageFault::BadImage(at(len, rest)))
    }
}

/// A number of two bytes from `low` to `high`.
#[tactic(auto, unfolding(crate::specs::ImageReading::number_at))]
pub(crate) fn number_16(
    low: u16,
    high: u16,
    len: usize,
    rest: &[u8],
) -> Result<(u16, &[u8]), ImageFault>
    ensures value { Sees (λ x. (x.0, x.1.now)) result (number_at w16 low high len rest.now) }
    ensures most { IfOk result (λ x. x.0 ≤ high) }
{
    let (bytes, after) = field(len, 2, rest)?;
    let number = number16(bytes);
    if low <= number && number <= high {
        Ok((number, after))
    } else {
        Err(ImageFault::BadImage(at(len, rest)))
    }
}

/// A number of four bytes from `low` to `high`.
#[tactic(auto, unfolding(crate::specs::ImageReading::number_at))]
pub(crate) fn number_32(
    low: u32,
    high: u32,
    len: usize,
    rest: &[u8],
) -> Result<(u32, &[u8]), ImageFault>
    ensures value { Sees (λ x. (x.0, x.1.now)) result (number_at w32 low high len rest.now) }
    ensures range { IfOk result (λ x. (low ≤ x.0) × (x.0 ≤ high)) }
{
    let (bytes, after) = field(len, 4, rest)?;
    let number = number32(bytes);
    if low <= number && number <= high {
        Ok((number, after))
    } else {
        Err(ImageFault::BadImage(at(len, rest)))
    }
}

/// A number of eight bytes up to `high`.
#[tactic(auto, unfolding(crate::specs::ImageReading::number_at))]
fn number_64(high: u64, len: usize, rest: &[u8]) -> Result<(u64, &[u8]), ImageFault>
    ensures { Sees (λ x. (x.0, x.1.now)) result (number_at w64 0 high len rest.now) }
{
    let (bytes, after) = field(len, 8, rest)?;
    let number = number64(bytes);
    if number <= high {
        Ok((number, after))
    } else {
        Err(ImageFault::BadImage(at(len, rest)))
    }
}

/// What is left, unless a byte is bad.
fn unless_bad(bad: Option<usize>, place: usize, rest: &[u8]) -> Result<&[u8], ImageFault>
    requires { IfSome bad (λ i. place + i < 2 ^ 64) }
    ensures { Sees (λ x. x.now) result (unless_bad bad place rest.now) }
{
    match bad {
        None => Ok(rest),
        Some(i) => Err(ImageFault::BadImage(place + i)),
    }
}

/// `n` zeros.
#[tactic(auto, unfolding(crate::specs::ImageReading::zeros_at))]
fn zeros(len: usize, n: usize, rest: &[u8]) -> Result<&[u8], ImageFault>
    ensures { Sees (λ x. x.now) result (zeros_at len n rest.now) }
{
    let place = at(len, rest);
    let (bytes, after) = field(len, n, rest)?;
    unless_bad(set_byte(bytes), place, after)
}

/// `n` bytes, and zeros up to a multiple of 8.
#[tactic(auto, unfolding(crate::specs::ImageReading::padded_at))]
pub(crate) fn padded(len: usize, n: u16, rest: &[u8]) -> Result<(&[u8], &[u8]), ImageFault>
    ensures value { Sees (λ x. (x.0.now, x.1.now)) result (padded_at len n rest.now) }
    ensures size { IfOk result (λ x. length x.0.now ≡ n) }
{
    let (bytes, after) = field(len, n as usize, rest)?;
    let after = zeros(len, padding_of(n as u32), after)?;
    Ok((bytes, after))
}

/// A FID whose numbers are at most these.
#[tactic(auto, unfolding(crate::specs::ImageReading::fid_at))]
pub(crate) fn fid(
    seq: u64,
    number: u32,
    len: usize,
    rest: &[u8],
) -> Result<(Fid, &[u8]), ImageFault>
    ensures { Sees (λ x. (x.0, x.1.now)) result (fid_at seq number len rest.now) }
{
    let (seq, rest) = number_64(seq, len, rest)?;
    let (oid, rest) = number_32(0, number, len, rest)?;
    let (ver, rest) = number_32(0, number, len, rest)?;
    Ok((Fid { seq, oid, ver }, rest))
}

/// A layout.
#[tactic(auto, unfolding(crate::specs::ImageReading::layout_at))]
fn layout(most: Limits, len: usize, rest: &[u8]) -> Result<(Layout, &[u8]), ImageFault>
    ensures { Sees (λ x. (x.0, x.1.now)) result (layout_at most len rest.now) }
{
    let (count, rest) = number_8(0, most.stripes, len, rest)?;
    let (start, rest) = number_8(0, if count == 0 { 0 } else { 15 }, len, rest)?;
    let (_zero, rest) = number_16(0, 0, len, rest)?;
    let (generation, rest) = number_32(0, most.generation, len, rest)?;
    let layout = Layout {
        count,
        start,
        generation,
    };
    Ok((layout, rest))
}

/// The numbers of a body behind its kind.
#[tactic(auto, unfolding(crate::specs::ImageReading::numbers_at))]
fn numbers(
    kind: ObjectKind,
    most: Limits,
    len: usize,
    rest: &[u8],
) -> Result<(Body, &[u8]), ImageFault>
    ensures { Sees (λ x. (x.0, x.1.now)) result (numbers_at kind most len rest.now) }
{
    let (mode, rest) = number_32(0, most.mode, len, rest)?;
    let (uid, rest) = number_32(0, most.owner, len, rest)?;
    let (gid, rest) = number_32(0, most.owner, len, rest)?;
    let (links, rest) = number_32(most.least_links, most.links, len, rest)?;
    let (layout, rest) = layout(most, len, rest)?;
    let (fid, rest) = fid(most.seq, most.number, len, rest)?;
    let (index, rest) = number_32(0, most.index, len, rest)?;
    let body = Body {
        kind,
        mode,
        uid,
        gid,
        links,
        layout,
        fid,
        index,
    };
    Ok((body, rest))
}

fn kind_of(number: u32) -> ObjectKind
    ensures { result ≡ kind_of number }
{
    match number {
        1 => ObjectKind::File,
        2 => ObjectKind::Directory,
        _ => ObjectKind::Stripe,
    }
}

/// The kind of a body, and its numbers.
#[tactic(auto, unfolding(crate::specs::ImageReading::body_at))]
fn kind_and_numbers(len: usize, rest: &[u8]) -> Result<(Body, &[u8]), ImageFault>
    ensures { Sees (λ x. (x.0, x.1.now)) result (body_at len rest.now) }
{
    let (number, rest) = number_32(1, 3, len, rest)?;
    let kind = kind_of(number);
    numbers(kind, limits_of(kind), len, rest)
}

/// A body that may stand.
pub(crate) fn body(len: usize, rest: &[u8]) -> Result<(Body, &[u8]), ImageFault>
    ensures value { Sees (λ x. (x.0, x.1.now)) result (body_at len rest.now) }
    ensures allowed { IfOk result (λ x. is_allowed x.0 ≡ true) }
{
    let (body, after) = kind_and_numbers(len, rest)?;
    Ok((body, after))
}

impl Body {
    /// The body in the first 48 bytes, and what is left behind it. Bytes that are no body that an object may
    /// have are refused with the place of the first number that can't stand, missing ones with their length.
    pub fn decode(bytes: &[u8]) -> Result<(Body, &[u8]), ImageFault>
        ensures value { Sees (λ x. (x.0, x.1.now)) result (body_at (length bytes.now) bytes.now) }
        ensures allowed { IfOk result (λ x. is_allowed x.0 ≡ true) }
    {
        body(bytes.len(), bytes)
    }
}

/// The place of the first byte that a name can't have.
fn name_fault(bytes: &[u8]) -> Option<usize>
    ensures value { result ≡ name_fault bytes.now }
    ensures below { IfSome result (λ i. i < length bytes.now) }
{
    match bytes {
        [b'.'] | [b'.', b'.'] => Some(0),
        _ => first_bad(bytes),
    }
}

fn first_bad(bytes: &[u8]) -> Option<usize>
    ensures value { result ≡ first_bad bytes.now }
    ensures below { IfSome result (λ i. i < length bytes.now) }
{
    for (i, byte) in bytes.iter().enumerate() {
        if *byte == 0 || *byte == b'/' {
            return Some(i);
        }
    }
    None
}

/// Whether a name may stand behind the last one.
fn rises(last: Option<&[u8]>, name: &[u8]) -> bool
    ensures { result ≡ rises name_cmp (option_map (λ n. n.now) last.entry) name.now }
{
    match last {
        None => true,
        Some(last) => last.cmp(name).is_lt(),
    }
}

/// The place of the first bad byte of a name behind the last one.
fn bad_name(last: Option<&[u8]>, name: &[u8]) -> Option<usize>
    ensures value { result ≡ bad_name (option_map (λ n. n.now) last.entry) name.now }
    ensures below { IfSome result (λ i. i ≤ length name.now) }
{
    if rises(last, name) {
        name_fault(name)
    } else {
        Some(0)
    }
}

/// A name of `n` bytes behind the last one, with its padding.
#[tactic(auto, unfolding(crate::specs::ImageReading::name_at))]
pub(crate) fn name<'a>(
    len: usize,
    n: u16,
    last: Option<&[u8]>,
    rest: &'a [u8],
) -> Result<(&'a [u8], &'a [u8]), ImageFault>
    ensures { Sees (λ x. (x.0.now, x.1.now)) result (name_at len n (option_map (λ n. n.now) last.entry) rest.now) }
{
    let place = at(len, rest);
    let (name, after) = field(len, n as usize, rest)?;
    let after = unless_bad(bad_name(last, name), place, after)?;
    let after = zeros(len, padding_of(n as u32), after)?;
    Ok((name, after))
}
