//! Numbers and bits that are written over others.

ghost use Rattle.std.specs.Prelude.{◌≡◌, ◌<◌, ◌≤◌, ◌+◌, ◌*◌, ◌/◌, ◌%◌, ◌^◌, ◌++◌, ◌==◌, length, take, drop, set, get_or, bit_or, bit_and, count_ones, IfSome};
ghost use Rattle.std.specs.Int.{bit_at, bit_not, w8};
ghost use Rattle.llog_store.specs.Numbers.{word, zeros};
ghost use Rattle.llog_store.specs.Bitmap.{bit_of, set_bits, first_other};

/// Writes a number at a place.
#[tactic(auto, unfolding(crate::specs::Numbers::word))]
pub fn write_number(bytes: &mut [u8], at: usize, n: u32)
    requires { at + 4 ≤ length bytes.old }
    ensures { bytes.new ≡ take at bytes.old ++ (word n ++ drop (at + 4) bytes.old) }
{
    bytes[at..at + 4].copy_from_slice(&n.to_le_bytes());
}

/// Writes zeros over `n` bytes at a place.
#[tactic(auto, unfolding(crate::specs::Numbers::zeros))]
pub fn wipe(bytes: &mut [u8], at: usize, n: usize)
    requires { at + n ≤ length bytes.old }
    ensures { bytes.new ≡ take at bytes.old ++ (zeros n ++ drop (at + n) bytes.old) }
{
    bytes[at..at + n].fill(0);
}

/// Sets the bit of an index, in a bitmap that begins at a place.
pub fn mark(bytes: &mut [u8], at: usize, index: u32)
    requires { at + index / 8 < length bytes.old }
    ensures { bytes.new ≡ set bytes.old (at + index / 8) (bit_or (get_or bytes.old (at + index / 8) 0) (1 * 2 ^ (index % 8) % 256)) }
{
    bytes[at + index as usize / 8] |= 1 << (index % 8);
}

/// Clears the bit of an index, in a bitmap that begins at a place.
pub fn unmark(bytes: &mut [u8], at: usize, index: u32)
    requires { at + index / 8 < length bytes.old }
    ensures { bytes.new ≡ set bytes.old (at + index / 8) (bit_and (get_or bytes.old (at + index / 8) 0) (bit_not w8 (1 * 2 ^ (index % 8) % 256))) }
{
    bytes[at + index as usize / 8] &= !(1 << (index % 8));
}

/// Whether the bit of an index is set, in a bitmap that begins at a place.
pub fn is_marked(bytes: &[u8], at: usize, index: u32) -> bool
    requires { at + index / 8 < length bytes.now }
    ensures { result ≡ (bit_at (get_or bytes.now (at + index / 8) 0) (index % 8) == 1) }
{
    bytes[at + index as usize / 8] >> (index % 8) & 1 == 1
}

/// Whether the bit of an index is set, which it is not behind the end of the bitmap.
#[tactic(auto, unfolding(crate::specs::Bitmap::bit_of))]
pub fn has_bit(bits: &[u8], index: u32) -> bool
    ensures { result ≡ bit_of bits.now index }
{
    let k = index as usize / 8;
    k < bits.len() && bits[k] >> (index % 8) & 1 == 1
}

/// The first index where two lists of bytes differ.
pub fn first_other(bits: &[u8], others: &[u8]) -> Option<usize>
    requires { length others.now ≡ length bits.now }
    ensures value { result ≡ first_other bits.now others.now }
    ensures below { IfSome result (λ i. i < length bits.now) }
{
    for (i, byte) in bits.iter().enumerate() {
        if *byte != others[i] {
            return Some(i);
        }
    }
    None
}

/// How many bits are set.
#[tactic(auto, unfolding(crate::specs::Bitmap::set_bits))]
pub fn count_marks(bits: &[u8]) -> u32
    requires { length bits.now ≤ 32000 }
    ensures { result ≡ set_bits bits.now }
{
    let mut count = 0;
    for byte in bits {
        count += byte.count_ones();
    }
    count
}
