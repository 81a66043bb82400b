//! Reading a whole log: its parts, and whether its bitmap is that of its records.

ghost use Rattle.std.specs.Prelude.{◌≡◌, ◌<◌, ◌*◌, ◌/◌, ◌%◌, ◌^◌, length, get_or, set, bit_or, IfOk};
ghost use Rattle.llog_store.specs.Bitmap.{bitmap};
ghost use Rattle.llog_store.specs.Reading.{Gives};
ghost use Rattle.llog_store.specs.Views.{header_view};
ghost use Rattle.llog_store.specs.Kept.{listed, listed_at, parts_at};

use crate::bits::{count_marks, first_other, has_bit, mark};
use crate::fault::LlogFault;
use crate::place::Place;
use crate::reading::{BITMAP, Header, read_header, records};
use crate::walking::BITS_AT;
use std::alloc::{AllocError as Memory, Global};

/// Sets the bit of an index, in a bitmap.
fn set_bit(bits: &mut Vec<u8>, index: u32)
    requires { index / 8 < length bits.old.items }
    ensures { bits.new.items ≡ set bits.old.items (index / 8) (bit_or (get_or bits.old.items (index / 8) 0) (1 * 2 ^ (index % 8) % 256)) }
{
    mark(bits.as_mut_slice(), 0, index);
}

/// The bitmap of the update records whose bits are set.
fn listed_bits(alloc: Global, bits: &[u8], places: &[Place]) -> Result<Vec<u8>, Memory>
    requires { length bits.now ≡ 32000 }
    ensures { IfOk result (λ v. v.items ≡ bitmap (listed bits.now places.now)) }
{
    let mut found = Vec::new(alloc);
    found.resize(BITMAP, 0)?;
    for place in places {
        if has_bit(bits, place.index) {
            set_bit(&mut found, place.index);
        }
    }
    Ok(found)
}

/// Judges the count of live records and the bitmap.
#[tactic(auto, unfolding(crate::specs::Kept::listed_at))]
fn check_marks(alloc: Global, header: Header, places: &[Place]) -> Result<(), LlogFault>
    requires { length header.bits.now ≡ 32000 }
    ensures { Gives (λ u. u) result (listed_at (header_view header.entry) places.now) }
{
    if header.live != count_marks(header.bits) {
        return Err(LlogFault::BadBitmap(20));
    }
    let found = listed_bits(alloc, header.bits, places)?;
    match first_other(header.bits, found.as_slice()) {
        None => Ok(()),
        Some(i) => Err(LlogFault::BadBitmap(BITS_AT + i)),
    }
}

/// The next index, the count of live records, and where the update records stand.
#[tactic(auto, unfolding(crate::specs::Kept::parts_at))]
pub fn parts(alloc: Global, bytes: &[u8]) -> Result<(u32, u32, Vec<Place>), LlogFault>
    ensures { Gives (λ x. (x.0, x.1, x.2.items)) result (parts_at bytes.now) }
{
    let len = bytes.len();
    let (header, rest) = read_header(len, bytes)?;
    let places = records(alloc, len, header.next, rest)?;
    check_marks(alloc, header, places.as_slice())?;
    Ok((header.next, header.live, places))
}
