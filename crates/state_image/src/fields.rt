//! The fields of a front, each with what is left behind it. `len` is the length of the whole input.

ghost use Rattle.std.specs.Prelude.{◌≡◌, ◌≤◌, ◌<◌, ◌+◌, length, IfOk};
ghost use Rattle.std.specs.Int.{w32, w64};
ghost use Rattle.object_store.specs.ImageReading.{Sees, at, field_at, number_at, zeros_at};

use byte_grammar::{number32, number64, set_byte};
use object_store::ImageFault;

/// The place of what is left.
pub(crate) fn at(len: usize, rest: &[u8]) -> usize
    ensures { result ≡ at len rest.now }
{
    len.saturating_sub(rest.len())
}

/// A field of `n` bytes.
#[tactic(auto, unfolding(object_store::specs::ImageReading::field_at))]
pub(crate) fn field(len: usize, n: usize, rest: &[u8]) -> Result<(&[u8], &[u8]), ImageFault>
    ensures value { Sees (λ x. (x.0.now, x.1.now)) result (field_at len n rest.now) }
    ensures size { IfOk result (λ x. length x.0.now ≡ n) }
    ensures sum { IfOk result (λ x. length x.0.now + length x.1.now ≡ length rest.now) }
{
    if rest.len() < n {
        return Err(ImageFault::BadImage(len));
    }
    Ok(rest.split_at(n))
}

/// A number of four bytes from `low` to `high`.
#[tactic(auto, unfolding(object_store::specs::ImageReading::number_at))]
pub(crate) fn number_32(
    low: u32,
    high: u32,
    len: usize,
    rest: &[u8],
) -> Result<(u32, &[u8]), ImageFault>
    ensures value { Sees (λ x. (x.0, x.1.now)) result (number_at w32 low high len rest.now) }
    ensures range { IfOk result (λ x. (low ≤ x.0) × (x.0 ≤ high)) }
{
    let (bytes, after) = field(len, 4, rest)?;
    let number = number32(bytes);
    if low <= number && number <= high {
        Ok((number, after))
    } else {
        Err(ImageFault::BadImage(at(len, rest)))
    }
}

/// A number of eight bytes from `low` to `high`.
#[tactic(auto, unfolding(object_store::specs::ImageReading::number_at))]
pub(crate) fn number_64(
    low: u64,
    high: u64,
    len: usize,
    rest: &[u8],
) -> Result<(u64, &[u8]), ImageFault>
    ensures { Sees (λ x. (x.0, x.1.now)) result (number_at w64 low high len rest.now) }
{
    let (bytes, after) = field(len, 8, rest)?;
    let number = number64(bytes);
    if low <= number && number <= high {
        Ok((number, after))
    } else {
        Err(ImageFault::BadImage(at(len, rest)))
    }
}

/// Four zeros.
#[tactic(auto, unfolding(object_store::specs::ImageReading::zeros_at))]
pub(crate) fn four_zeros(len: usize, rest: &[u8]) -> Result<&[u8], ImageFault>
    ensures { Sees (λ x. x.now) result (zeros_at len 4 rest.now) }
{
    let place = at(len, rest);
    let (bytes, after) = field(len, 4, rest)?;
    match set_byte(bytes) {
        None => Ok(after),
        Some(i) => Err(ImageFault::BadImage(place + i)),
    }
}
