//! Reading a log from left to right, with the place of the first field that can't stand.

ghost use Rattle.std.specs.Prelude.{◌≡◌, ◌<◌, ◌≤◌, ◌==◌, ◌&&◌, ◌-◌, ◌+◌, ◌*◌, ◌||◌, nat_lt, nat_le, not, ℕ, true, ◌++◌, OnOk, [], length, map, IfOk, IfSome};
ghost use Rattle.llog_store.specs.Numbers.{first_set, pad8};
ghost use Rattle.llog_store.specs.Log.{room, fits_in, record_size};
ghost use Rattle.llog_store.specs.Reading.{Sees, Gives, at, field_at, number_at, known_at, zeros_at, next_at, front_at, back_at, header_at, size_stands, is_pad_size, size_at, kind_at, tail_at, payload_size_at, update_at, pad_at, pad_stands, piece_at, end_at, lost_in};
ghost use Rattle.llog_store.specs.Views.{header_view, piece_view, places_in, places_at};

use crate::fault::LlogFault;
use crate::place::Place;
use std::alloc::{AllocError as Memory, Global};

/// The bytes of a chunk.
pub const CHUNK: usize = 32_768;

/// The bytes of the bitmap.
pub const BITMAP: usize = 32_000;

/// The most bytes of a payload.
pub const MAX_PAYLOAD: usize = 24_576;

/// The first index that no record has.
pub const END_OF_INDEXES: u32 = 256_000;

/// The type numbers of the header, of update records and of pads (LLOG_HDR_MAGIC, UPDATE_REC and
/// LLOG_PAD_MAGIC of Lustre's lustre_idl.h).
pub const HEADER_TYPE: u32 = 0x1064_5539;

pub const UPDATE_TYPE: u32 = 0x106a_0000;

pub const PAD_TYPE: u32 = 0x1060_0000;

/// The numbers of the header and its bitmap.
#[derive(Clone, Copy)]
pub struct Header<'a> {
    pub next: u32,
    pub live: u32,
    pub bits: &'a [u8],
}

/// A record: the payload of an update record, or the length of a pad.
#[derive(Clone, Copy)]
pub enum Piece<'a> {
    Update(&'a [u8]),
    Pad(usize),
}

/// The place of what is left of an input of `len` bytes.
pub fn at(len: usize, rest: &[u8]) -> usize
    ensures { result ≡ at len rest.now }
{
    len.saturating_sub(rest.len())
}

/// The rest of the chunk at a place.
pub fn room(place: usize) -> usize
    ensures value { result ≡ room place }
    ensures some { 0 < result }
{
    CHUNK - place % CHUNK
}

/// Whether a record of that size fits in the rest of a chunk.
#[tactic(auto, unfolding(crate::specs::Log::fits_in))]
pub fn fits(rest: usize, size: usize) -> bool
    ensures { result ≡ fits_in rest size }
{
    rest == size || size <= rest && 24 <= rest - size
}

/// Rounded up to a multiple of 8.
#[tactic(auto, unfolding(crate::specs::Numbers::pad8))]
pub fn pad8(n: usize) -> usize
    requires { n ≤ 24576 }
    ensures value { result ≡ pad8 n }
    ensures above { n ≤ result }
    ensures near { result < n + 8 }
    ensures small { result ≤ 24576 }
{
    (n + 7) / 8 * 8
}

/// A field of `n` bytes, and what is left behind it.
#[tactic(auto, unfolding(crate::specs::Reading::field_at))]
fn field(len: usize, n: usize, rest: &[u8]) -> Result<(&[u8], &[u8]), LlogFault>
    ensures value { Sees (λ x. (x.0.now, x.1.now)) result (field_at len n rest.now) }
    ensures size { IfOk result (λ x. length x.0.now ≡ n) }
    ensures whole { IfOk result (λ x. length x.0.now + length x.1.now ≡ length rest.now) }
{
    if rest.len() < n {
        return Err(LlogFault::Truncated(len));
    }
    Ok(rest.split_at(n))
}

/// A number, and what is left behind it.
#[tactic(auto, unfolding(crate::specs::Reading::number_at, crate::specs::Numbers::worth))]
fn number(len: usize, rest: &[u8]) -> Result<(u32, &[u8]), LlogFault>
    ensures { Sees (λ x. (x.0, x.1.now)) result (number_at len rest.now) }
{
    let (bytes, rest) = field(len, 4, rest)?;
    let number = u32::from_le_bytes([bytes[0], bytes[1], bytes[2], bytes[3]]);
    Ok((number, rest))
}

/// What is left behind a number that has to be the wanted one, else it is the fault.
#[tactic(auto, unfolding(crate::specs::Reading::known_at))]
fn known(len: usize, wanted: u32, other: LlogFault, rest: &[u8]) -> Result<&[u8], LlogFault>
    ensures { Sees (λ x. x.now) result (known_at len wanted other rest.now) }
{
    let (number, rest) = number(len, rest)?;
    if number == wanted {
        Ok(rest)
    } else {
        Err(other)
    }
}

/// The index of the first byte that isn't zero.
fn first_set(bytes: &[u8]) -> Option<usize>
    ensures value { result ≡ first_set bytes.now }
    ensures below { IfSome result (λ i. i < length bytes.now) }
{
    for (i, byte) in bytes.iter().enumerate() {
        if *byte != 0 {
            return Some(i);
        }
    }
    None
}

/// What is left behind `n` zeros.
#[tactic(auto, unfolding(crate::specs::Reading::zeros_at))]
fn zeros(len: usize, n: usize, rest: &[u8]) -> Result<&[u8], LlogFault>
    ensures { Sees (λ x. x.now) result (zeros_at len n rest.now) }
{
    let place = at(len, rest);
    let (bytes, rest) = field(len, n, rest)?;
    match first_set(bytes) {
        None => Ok(rest),
        Some(i) => Err(LlogFault::BadPadding(place + i)),
    }
}

/// The next index of a log.
#[tactic(auto, unfolding(crate::specs::Reading::next_at))]
fn next(len: usize, rest: &[u8]) -> Result<(u32, &[u8]), LlogFault>
    ensures value { Sees (λ x. (x.0, x.1.now)) result (next_at len rest.now) }
    ensures low { IfOk result (λ x. 1 ≤ x.0) }
{
    let (next, after) = number(len, rest)?;
    if 1 <= next && next <= END_OF_INDEXES {
        Ok((next, after))
    } else {
        Err(LlogFault::BadIndex(at(len, rest)))
    }
}

/// What is left behind the header's length, index and type.
#[tactic(auto, unfolding(crate::specs::Reading::front_at))]
fn front(len: usize, bytes: &[u8]) -> Result<&[u8], LlogFault>
    ensures { Sees (λ x. x.now) result (front_at len bytes.now) }
{
    let rest = known(
        len,
        CHUNK as u32,
        LlogFault::BadLength(at(len, bytes)),
        bytes,
    )?;
    let rest = known(len, 0, LlogFault::BadIndex(at(len, rest)), rest)?;
    let rest = known(len, HEADER_TYPE, LlogFault::BadType(at(len, rest)), rest)?;
    zeros(len, 4, rest)
}

/// What is left behind the header's end.
#[tactic(auto, unfolding(crate::specs::Reading::back_at))]
fn back(len: usize, rest: &[u8]) -> Result<&[u8], LlogFault>
    ensures { Sees (λ x. x.now) result (back_at len rest.now) }
{
    let rest = zeros(len, 736, rest)?;
    let rest = known(len, CHUNK as u32, LlogFault::BadTail(at(len, rest)), rest)?;
    known(len, 0, LlogFault::BadTail(at(len, rest)), rest)
}

/// The header, and the records behind it.
#[tactic(auto, unfolding(crate::specs::Reading::header_at))]
pub fn read_header(len: usize, bytes: &[u8]) -> Result<(Header<'_>, &[u8]), LlogFault>
    ensures value { Sees (λ x. (header_view x.0, x.1.now)) result (header_at len bytes.now) }
    ensures low { IfOk result (λ x. 1 ≤ x.0.next) }
    ensures bits { IfOk result (λ x. length x.0.bits.now ≡ 32000) }
{
    let rest = front(len, bytes)?;
    let (next, rest) = next(len, rest)?;
    let (live, rest) = number(len, rest)?;
    let (bits, rest) = field(len, BITMAP, rest)?;
    let rest = back(len, rest)?;
    Ok((Header { next, live, bits }, rest))
}

/// Whether a record can have this length in the rest of a chunk.
fn is_size(rest: usize, size: usize) -> bool
    ensures { result ≡ size_stands rest size }
{
    size % 8 == 0 && 24 <= size && fits(rest, size)
}

/// Whether only a pad can have this length.
fn is_pad_size(size: usize) -> bool
    ensures { result ≡ is_pad_size size }
{
    size == 24 || 24_608 < size
}

/// Whether a pad of that size can stand in the rest of a chunk, behind a pad of so many bytes or none.
fn pad_stands(rest: usize, size: usize, lost: usize, is_last: bool) -> bool
    ensures { (more : ℕ) → is_last ≡ not (nat_lt 0 more) → result ≡ pad_stands rest size lost more }
{
    rest == size && lost == 0 && !is_last
}

/// The length of a record, behind a pad of so many bytes or none.
#[tactic(auto, unfolding(crate::specs::Reading::size_at))]
fn size(len: usize, lost: usize, is_last: bool, rest: &[u8]) -> Result<(u32, &[u8]), LlogFault>
    ensures { (more : ℕ) → is_last ≡ not (nat_lt 0 more) → Sees (λ x. (x.0, x.1.now)) result (size_at len lost more rest.now) }
{
    let here = room(at(len, rest));
    let (size, after) = number(len, rest)?;
    let n = size as usize;
    let pad_stands = pad_stands(here, n, lost, is_last);
    if is_size(here, n) && !fits(lost, n) && (!is_pad_size(n) || pad_stands) {
        Ok((size, after))
    } else {
        Err(LlogFault::BadLength(at(len, rest)))
    }
}

/// Whether the record is a pad. An update record may stand here or not, and so may a pad.
#[tactic(auto, unfolding(crate::specs::Reading::kind_at))]
fn kind(
    len: usize,
    update_stands: bool,
    pad_stands: bool,
    rest: &[u8],
) -> Result<(bool, &[u8]), LlogFault>
    ensures { Sees (λ x. (x.0, x.1.now)) result (kind_at len update_stands pad_stands rest.now) }
{
    let (kind, after) = number(len, rest)?;
    if kind == UPDATE_TYPE && update_stands {
        Ok((false, after))
    } else if kind == PAD_TYPE && pad_stands {
        Ok((true, after))
    } else {
        Err(LlogFault::BadType(at(len, rest)))
    }
}

/// What is left behind the repeated length and index.
#[tactic(auto, unfolding(crate::specs::Reading::tail_at))]
fn tail(len: usize, size: u32, index: u32, rest: &[u8]) -> Result<&[u8], LlogFault>
    ensures { Sees (λ x. x.now) result (tail_at len size index rest.now) }
{
    let rest = known(len, size, LlogFault::BadTail(at(len, rest)), rest)?;
    known(len, index, LlogFault::BadTail(at(len, rest)), rest)
}

/// The length of the payload in an update record of that size.
#[tactic(auto, unfolding(crate::specs::Reading::payload_size_at))]
fn payload_size(len: usize, size: u32, rest: &[u8]) -> Result<(usize, &[u8]), LlogFault>
    ensures value { Sees (λ x. (x.0, x.1.now)) result (payload_size_at len size rest.now) }
    ensures small { IfOk result (λ x. x.0 ≤ 24576) }
{
    let (number, after) = number(len, rest)?;
    let n = number as usize;
    if n <= MAX_PAYLOAD && size as usize == record_size(n) {
        Ok((n, after))
    } else {
        Err(LlogFault::BadLength(at(len, rest)))
    }
}

/// The length of an update record.
pub fn record_size(n: usize) -> usize
    requires { n ≤ 24576 }
    ensures value { result ≡ record_size n }
    ensures small { result ≤ 24608 }
{
    32 + pad8(n)
}

/// What an update record says behind its type.
#[tactic(auto, unfolding(crate::specs::Reading::update_at))]
fn update(len: usize, size: u32, index: u32, rest: &[u8]) -> Result<(Piece<'_>, &[u8]), LlogFault>
    ensures { Sees (λ x. (piece_view x.0, x.1.now)) result (update_at len size index rest.now) }
{
    let rest = zeros(len, 4, rest)?;
    let (n, rest) = payload_size(len, size, rest)?;
    let rest = zeros(len, 4, rest)?;
    let (payload, rest) = field(len, n, rest)?;
    let rest = zeros(len, pad8(n) - n, rest)?;
    let rest = tail(len, size, index, rest)?;
    Ok((Piece::Update(payload), rest))
}

/// What a pad says behind its type.
#[tactic(auto, unfolding(crate::specs::Reading::pad_at))]
fn pad(len: usize, size: u32, index: u32, rest: &[u8]) -> Result<(Piece<'_>, &[u8]), LlogFault>
    ensures { Sees (λ x. (piece_view x.0, x.1.now)) result (pad_at len size index rest.now) }
{
    let rest = zeros(len, 4, rest)?;
    let rest = zeros(len, (size as usize).saturating_sub(24), rest)?;
    let rest = tail(len, size, index, rest)?;
    Ok((Piece::Pad(size as usize), rest))
}

/// The record with this index, behind a pad of so many bytes or none.
#[tactic(auto, unfolding(crate::specs::Reading::piece_at))]
fn read_piece(
    len: usize,
    index: u32,
    lost: usize,
    is_last: bool,
    rest: &[u8],
) -> Result<(Piece<'_>, &[u8]), LlogFault>
    ensures { (more : ℕ) → is_last ≡ not (nat_lt 0 more) → Sees (λ x. (piece_view x.0, x.1.now)) result (piece_at len index lost more rest.now) }
{
    let here = room(at(len, rest));
    let (size, rest) = size(len, lost, is_last, rest)?;
    let rest = known(len, index, LlogFault::BadIndex(at(len, rest)), rest)?;
    let update_stands = !is_pad_size(size as usize);
    let pad_stands = pad_stands(here, size as usize, lost, is_last);
    let (is_pad, rest) = kind(len, update_stands, pad_stands, rest)?;
    if is_pad {
        pad(len, size, index, rest)
    } else {
        update(len, size, index, rest)
    }
}

/// Nothing is left behind the last record.
#[tactic(auto, unfolding(crate::specs::Reading::end_at))]
fn end(len: usize, rest: &[u8]) -> Result<(), LlogFault>
    ensures { Sees (λ _. []) result (end_at len rest.now) }
{
    if rest.is_empty() {
        return Ok(());
    }
    let (_size, rest) = size(len, 0, true, rest)?;
    let (_index, _after) = number(len, rest)?;
    Err(LlogFault::BadIndex(at(len, rest)))
}

/// Keeps where an update record stands. The answer is how many bytes a pad fills, 0 where it is none.
fn keep(places: &mut Vec<Place>, index: u32, at: usize, piece: Piece) -> Result<usize, Memory>
    ensures places { OnOk result (places.new.items ≡ places.old.items ++ places_in (piece_view piece.entry) index at) }
    ensures lost { IfOk result (λ lost. lost ≡ lost_in (piece_view piece.entry)) }
{
    match piece {
        Piece::Update(payload) => {
            let length = payload.len();
            places.push(Place { index, at, length })?;
            Ok(0)
        }
        Piece::Pad(size) => Ok(size),
    }
}

/// Where the update records stand, in a log with this next index.
pub fn records(alloc: Global, len: usize, next: u32, rest: &[u8]) -> Result<Vec<Place>, LlogFault>
    requires { 1 ≤ next }
    ensures { Gives (λ v. v.items) result (places_at (next - 1) len 1 0 rest.now) }
{
    let mut places = Vec::new(alloc);
    let mut rest = rest;
    let mut lost = 0;
    for index in 1..next {
        let place = at(len, rest);
        let (piece, after) = read_piece(len, index, lost, index + 1 == next, rest)?;
        lost = keep(&mut places, index, place, piece)?;
        rest = after;
    }
    end(len, rest)?;
    Ok(places)
}
