ghost use Rattle.std.specs.Prelude.{◌≡◌, ◌≢◌, ◌++◌, ◌<◌, ◌∷◌, [], ℕ, List, false, OnOk, IfOk, IfSome, IfNone};
ghost use Rattle.std.specs.Fmt.{digit_glyph};
ghost use Rattle.std.specs.List.{flat_map};
ghost use Rattle.fid_space.specs.HexText.{hex_byte, hex_text};
ghost use Rattle.tree_model.specs.Names.{AreBytes, is_plain, name_byte, name_word};

use fid_space::{Bytes, hex_digit};
use std::alloc::{AllocError as Memory, Global};

/// Adds the spelling of a name: a byte outside 0x21 to 0x7e, or a `%`, becomes `%` and two digits. After
/// want of memory a front of it may have been added.
pub fn print_name(name: &[u8], out: &mut Bytes) -> Result<(), Memory>
    ensures { OnOk result (out.new ≡ out.old ++ name_word name.now) }
{
    for b in name {
        print_name_byte(*b, out)?;
    }
    Ok(())
}

fn print_name_byte(b: u8, out: &mut Bytes) -> Result<(), Memory>
    ensures { OnOk result (out.new ≡ out.old ++ name_byte b) }
{
    if is_plain(b) {
        out.push(b)
    } else {
        out.append(&[b'%', hex_digit(b / 16), hex_digit(b % 16)])
    }
}

/// Whether a byte stands for itself.
fn is_plain(b: u8) -> bool
    ensures { result ≡ is_plain b }
{
    0x21 <= b && b <= 0x7e && b != b'%'
}

/// The bytes that a word spells. `Err` is want of memory alone.
pub fn spelled(alloc: Global, word: &[u8]) -> Result<Option<Vec<u8>>, Memory>
    ensures some { IfOk result (λ r. IfSome r (λ v. AreBytes v.items × (word.now ≡ name_word v.items))) }
    ensures none { IfOk result (λ r. IfNone r ((bytes : List ℕ) → AreBytes bytes → word.now ≢ name_word bytes)) }
{
    let mut bytes = Vec::new(alloc);
    let mut rest = word;
    while !rest.is_empty() {
        let (byte, tail) = match first_byte(rest) {
            Some(first) => first,
            None => return Ok(None),
        };
        bytes.push(byte)?;
        rest = tail;
    }
    Ok(Some(bytes))
}

/// The byte that is spelled first, and what is left behind its spelling.
fn first_byte(word: &[u8]) -> Option<(u8, &[u8])>
    ensures some { IfSome result (λ r. (r.0 < 256) × (word.now ≡ name_byte r.0 ++ r.1.now)) }
    ensures none { IfNone result ((b : ℕ) (rest : List ℕ) → b < 256 → word.now ≢ name_byte b ++ rest) }
{
    match word {
        [b'%', high, low, rest @ ..] => match escaped(*high, *low) {
            Some(byte) => Some((byte, rest)),
            None => None,
        },
        [byte, rest @ ..] if is_plain(*byte) => Some((*byte, rest)),
        _ => None,
    }
}

/// The byte that two digits behind a `%` spell: one that doesn't stand for itself.
fn escaped(high: u8, low: u8) -> Option<u8>
    ensures some { IfSome result (λ b. (b < 256) × (is_plain b ≡ false) × (high ∷ low ∷ [] ≡ hex_byte b)) }
    ensures none { IfNone result ((b : ℕ) → b < 256 → is_plain b ≡ false → high ∷ low ∷ [] ≢ hex_byte b) }
{
    match byte_of(high, low) {
        Some(byte) if !is_plain(byte) => Some(byte),
        _ => None,
    }
}

/// The byte that two lower-case hexadecimal digits write.
fn byte_of(high: u8, low: u8) -> Option<u8>
    ensures some { IfSome result (λ b. (b < 256) × (high ∷ low ∷ [] ≡ hex_byte b)) }
    ensures none { IfNone result ((b : ℕ) → b < 256 → high ∷ low ∷ [] ≢ hex_byte b) }
{
    let high = digit_of(high)?;
    let low = digit_of(low)?;
    Some(high * 16 + low)
}

/// What a lower-case hexadecimal digit is worth.
fn digit_of(digit: u8) -> Option<u8>
    ensures some { IfSome result (λ d. (d < 16) × (digit ≡ digit_glyph false d)) }
    ensures none { IfNone result ((d : ℕ) → d < 16 → digit ≢ digit_glyph false d) }
{
    match digit {
        b'0'..=b'9' => Some(digit - b'0'),
        b'a'..=b'f' => Some(digit - b'a' + 10),
        _ => None,
    }
}

/// The bytes that a value is written as: two lower-case hexadecimal digits for each, or a dash for none.
/// `Err` is want of memory alone.
pub fn hex_bytes(alloc: Global, word: &[u8]) -> Result<Option<Bytes>, Memory>
    ensures some { IfOk result (λ r. IfSome r (λ v. AreBytes v × (word.now ≡ hex_text v))) }
    ensures none { IfOk result (λ r. IfNone r ((bytes : List ℕ) → AreBytes bytes → word.now ≢ hex_text bytes)) }
{
    if word == b"-".as_slice() {
        return Ok(Some(Bytes::new(alloc)));
    }
    if word.is_empty() {
        return Ok(None);
    }
    digit_pairs(alloc, word)
}

/// The bytes that pairs of digits write.
fn digit_pairs(alloc: Global, word: &[u8]) -> Result<Option<Bytes>, Memory>
    ensures some { IfOk result (λ r. IfSome r (λ v. AreBytes v × (word.now ≡ flat_map hex_byte v))) }
    ensures none { IfOk result (λ r. IfNone r ((bytes : List ℕ) → AreBytes bytes → word.now ≢ flat_map hex_byte bytes)) }
{
    let mut bytes = Bytes::new(alloc);
    let mut rest = word;
    while !rest.is_empty() {
        let (byte, tail) = match first_pair(rest) {
            Some(first) => first,
            None => return Ok(None),
        };
        bytes.push(byte)?;
        rest = tail;
    }
    Ok(Some(bytes))
}

/// The byte that the first two digits write, and what is left behind them.
fn first_pair(word: &[u8]) -> Option<(u8, &[u8])>
    ensures some { IfSome result (λ r. (r.0 < 256) × (word.now ≡ hex_byte r.0 ++ r.1.now)) }
    ensures none { IfNone result ((b : ℕ) (rest : List ℕ) → b < 256 → word.now ≢ hex_byte b ++ rest) }
{
    match word {
        [high, low, rest @ ..] => match byte_of(*high, *low) {
            Some(byte) => Some((byte, rest)),
            None => None,
        },
        _ => None,
    }
}
