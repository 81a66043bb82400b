ghost use Rattle.std.specs.Prelude.{◌≡◌, ◌≤◌, ◌<◌, ◌++◌, length, OnOk, OnErr, IfSome};
ghost use Rattle.std.specs.Int.{w8, w16, w32, w64};
ghost use Rattle.byte_grammar.specs.Numbers.{word, worth, first_set, zeros, padding};

use byteorder::{ByteOrder, LittleEndian};
use std::alloc::AllocError as Memory;

/// The number that one byte is.
#[tactic(auto, unfolding(crate::specs::Numbers::worth))]
pub fn number8(bytes: &[u8]) -> u8
    requires { length bytes.now ≡ 1 }
    ensures { result ≡ worth w8 bytes.now }
{
    bytes[0]
}

/// The number that two bytes are, the lowest first.
#[tactic(auto, using(crate::proofs::Little::little16))]
pub fn number16(bytes: &[u8]) -> u16
    requires { length bytes.now ≡ 2 }
    ensures { result ≡ worth w16 bytes.now }
{
    LittleEndian::read_u16(bytes)
}

/// The number that four bytes are, the lowest first.
#[tactic(auto, using(crate::proofs::Little::little32))]
pub fn number32(bytes: &[u8]) -> u32
    requires { length bytes.now ≡ 4 }
    ensures { result ≡ worth w32 bytes.now }
{
    LittleEndian::read_u32(bytes)
}

/// The number that eight bytes are, the lowest first.
#[tactic(auto, using(crate::proofs::Little::little64))]
pub fn number64(bytes: &[u8]) -> u64
    requires { length bytes.now ≡ 8 }
    ensures { result ≡ worth w64 bytes.now }
{
    LittleEndian::read_u64(bytes)
}

/// The place of the first byte that isn't 0.
pub fn set_byte(bytes: &[u8]) -> Option<usize>
    ensures value { result ≡ first_set bytes.now }
    ensures below { IfSome result (λ i. i < length bytes.now) }
{
    for (i, byte) in bytes.iter().enumerate() {
        if *byte != 0 {
            return Some(i);
        }
    }
    None
}

/// How many bytes lack to a multiple of 8.
#[tactic(auto, unfolding(crate::specs::Numbers::padding))]
pub fn padding_of(len: u32) -> usize
    ensures value { result ≡ padding len }
    ensures below { result < 8 }
{
    ((8 - len % 8) % 8) as usize
}

/// Adds the two bytes of a number, the lowest first. Want of memory adds nothing.
#[tactic(auto, unfolding(crate::specs::Numbers::word))]
pub fn put16(out: &mut Vec<u8>, n: u16) -> Result<(), Memory>
    ensures ok { OnOk result (out.new.items ≡ out.old.items ++ word w16 n) }
    ensures err { OnErr result (out.new.items ≡ out.old.items) }
{
    let mut bytes = [0u8; 2];
    LittleEndian::write_u16(&mut bytes, n);
    out.extend_from_slice(&bytes)
}

/// Adds the four bytes of a number, the lowest first. Want of memory adds nothing.
#[tactic(auto, unfolding(crate::specs::Numbers::word))]
pub fn put32(out: &mut Vec<u8>, n: u32) -> Result<(), Memory>
    ensures ok { OnOk result (out.new.items ≡ out.old.items ++ word w32 n) }
    ensures err { OnErr result (out.new.items ≡ out.old.items) }
{
    let mut bytes = [0u8; 4];
    LittleEndian::write_u32(&mut bytes, n);
    out.extend_from_slice(&bytes)
}

/// Adds the eight bytes of a number, the lowest first. Want of memory adds nothing.
#[tactic(auto, unfolding(crate::specs::Numbers::word))]
pub fn put64(out: &mut Vec<u8>, n: u64) -> Result<(), Memory>
    ensures ok { OnOk result (out.new.items ≡ out.old.items ++ word w64 n) }
    ensures err { OnErr result (out.new.items ≡ out.old.items) }
{
    let mut bytes = [0u8; 8];
    LittleEndian::write_u64(&mut bytes, n);
    out.extend_from_slice(&bytes)
}

/// Adds at most eight zeros. Want of memory adds nothing.
#[tactic(auto, unfolding(crate::specs::Numbers::zeros))]
pub fn put_zeros(out: &mut Vec<u8>, n: usize) -> Result<(), Memory>
    requires { n ≤ 8 }
    ensures ok { OnOk result (out.new.items ≡ out.old.items ++ zeros n) }
    ensures err { OnErr result (out.new.items ≡ out.old.items) }
{
    let zeros = [0u8; 8];
    out.extend_from_slice(&zeros[..n])
}
