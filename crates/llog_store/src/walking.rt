//! Reading records at their places.

ghost use Rattle.std.specs.Prelude.{◌≡◌, ◌≤◌, ◌<◌, ◌+◌, ◌≢◌, ◌++◌, ℕ, length, map, get_or, take, IfOk, IfSome, IfNone, OnOk, OnErr, All};
ghost use Rattle.std.specs.List.Sorted.{IsNonDecreasingBy};
ghost use Rattle.llog_store.specs.Kept.{marked, first_marked, payload_in, seen, IsWithin};

use crate::bits::is_marked;
use crate::chunks::Chunks;
use crate::place::Place;
use crate::reading::END_OF_INDEXES;
use std::alloc::{AllocError as Memory, Global};

/// The place of the header's bitmap.
pub const BITS_AT: usize = 24;

/// Whether the header's bit of an index is set.
#[tactic(auto, unfolding(crate::specs::Kept::marked))]
pub fn has_live(bytes: &Chunks, index: u32) -> bool
    requires { 32768 ≤ length bytes.now }
    ensures { result ≡ marked bytes.now index }
{
    index < END_OF_INDEXES && is_marked(bytes.header(), BITS_AT, index)
}

/// The payload of the update record at a place.
pub fn payload_of(bytes: &Chunks, place: Place) -> &[u8]
    requires { IsWithin (length bytes.now) place }
    ensures { result.now ≡ payload_in bytes.now place }
{
    bytes.payload(place.at, place.length)
}

/// The first of these update records that is live.
#[tactic(auto, unfolding(crate::specs::Kept::first_marked))]
pub fn first_marked(bytes: &Chunks, places: &[Place]) -> Option<Place>
    requires { 32768 ≤ length bytes.now }
    ensures { result ≡ first_marked bytes.now places.now }
{
    for place in places {
        if has_live(bytes, place.index) {
            return Some(*place);
        }
    }
    None
}

/// How many of the update records stand before an index.
pub fn count_before(places: &[Place], index: u32) -> usize
    requires { IsNonDecreasingBy (λ (p : Place). p.index) places.now }
    ensures bound { result ≤ length places.now }
    ensures before { (k : ℕ) (d : Place) → k < result → (get_or places.now k d).index < index }
    ensures from { (k : ℕ) (d : Place) → result ≤ k → k < length places.now → index ≤ (get_or places.now k d).index }
{
    places.partition_point(|place| place.index < index)
}
