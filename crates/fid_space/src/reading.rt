ghost use Rattle.std.specs.Prelude.{◌≡◌, ◌||◌, ◌&&◌, ◌==◌, nat_lt, take, drop, ◌≤◌, ◌^◌, ◌<◌, ℕ, true, length, slice_index, IfOk};
ghost use Rattle.std.specs.List.{AllByRecursion};
ghost use Rattle.std.specs.Char.{digit_value};
ghost use Rattle.std.specs.Str.Parse.{digits_value};
ghost use Rattle.fid_space.specs.FidReading.{Sees, is_hex, hex_run, literal_at, number_at, end_at, fid_at};

use crate::fid::{Fid, FidFault};

/// The FID of a whole text, or the first fault in it.
#[tactic(auto, unfolding(crate::specs::FidReading::fid_at))]
pub fn fid(text: &[u8]) -> Result<Fid, FidFault>
    ensures { Sees (λ f. f) result (fid_at text.now) }
{
    let len = text.len();
    let rest = literal(len, b"[0x", text)?;
    let (seq, rest) = number(len, 16, rest)?;
    let rest = literal(len, b":0x", rest)?;
    let (oid, rest) = short(len, rest)?;
    let rest = literal(len, b":0x", rest)?;
    let (ver, rest) = short(len, rest)?;
    let rest = literal(len, b"]", rest)?;
    let _end = end(len, rest)?;
    Ok(Fid { seq, oid, ver })
}

/// What is left behind the literal.
fn literal<'a>(len: usize, bytes: &[u8], rest: &'a [u8]) -> Result<&'a [u8], FidFault>
    ensures { Sees (λ r. r.now) result (literal_at len bytes.now rest.now) }
{
    let mut rest = rest;
    for b in bytes {
        match rest {
            [] => return Err(FidFault::BadShape(len)),
            [c, tail @ ..] => {
                if *c != *b {
                    return Err(FidFault::BadShape(len.saturating_sub(rest.len())));
                }
                rest = tail;
            }
        }
    }
    Ok(rest)
}

/// Nothing is left.
#[tactic(auto, unfolding(crate::specs::FidReading::end_at))]
fn end<'a>(len: usize, rest: &'a [u8]) -> Result<&'a [u8], FidFault>
    ensures { Sees (λ r. r.now) result (end_at len rest.now) }
{
    if rest.is_empty() {
        Ok(rest)
    } else {
        Err(FidFault::BadShape(len.saturating_sub(rest.len())))
    }
}

/// A number of at most 8 digits, and what is left behind it.
fn short<'a>(len: usize, rest: &'a [u8]) -> Result<(u32, &'a [u8]), FidFault>
    ensures { Sees (λ x. (x.0, x.1.now)) result (number_at len 8 rest.now) }
{
    let (value, rest) = number(len, 8, rest)?;
    Ok((value as u32, rest))
}

/// A number of at most so many digits, and what is left behind it.
#[tactic(auto, unfolding(crate::specs::FidReading::number_at))]
fn number<'a>(len: usize, most: usize, rest: &'a [u8]) -> Result<(u64, &'a [u8]), FidFault>
    requires { most ≤ 16 }
    ensures value { Sees (λ x. (x.0, x.1.now)) result (number_at len most rest.now) }
    ensures fits { IfOk result (λ x. x.0 < 16 ^ most) }
{
    let (digits, tail) = digits_of(rest);
    if digits.is_empty() {
        return Err(FidFault::BadShape(len.saturating_sub(rest.len())));
    }
    if is_bad(most, digits) {
        return Err(FidFault::BadNumber(len.saturating_sub(rest.len())));
    }
    Ok((value_of(digits), tail))
}

/// Whether so many digits are too many, or begin with a zero that says nothing.
fn is_bad(most: usize, digits: &[u8]) -> bool
    ensures { result ≡ (nat_lt most (length digits.now) || (nat_lt 1 (length digits.now) && (slice_index digits.now 0 == 48))) }
{
    most < digits.len() || (1 < digits.len() && digits[0] == b'0')
}

/// The digits at the front, and what is left.
fn digits_of(rest: &[u8]) -> (&[u8], &[u8])
    ensures front { result.0.now ≡ hex_run rest.now }
    ensures back { result.1.now ≡ drop (length (hex_run rest.now)) rest.now }
{
    let count = run_len(rest);
    rest.split_at(count)
}

/// How many digits stand at the front.
fn run_len(rest: &[u8]) -> usize
    ensures bound { result ≤ length rest.now }
    ensures run { take result rest.now ≡ hex_run rest.now }
{
    for (i, c) in rest.iter().enumerate() {
        if !is_hex(*c) {
            return i;
        }
    }
    rest.len()
}

/// Whether the byte is a digit, in lower case.
fn is_hex(c: u8) -> bool
    ensures { result ≡ is_hex c }
{
    (b'0' <= c && c <= b'9') || (b'a' <= c && c <= b'f')
}

/// What a digit is worth.
fn digit_of(c: u8) -> u8
    requires { is_hex c ≡ true }
    ensures value { result ≡ digit_value c }
    ensures small { result < 16 }
{
    if c <= b'9' { c - b'0' } else { c - b'a' + 10 }
}

/// The number that lower-case digits write.
fn value_of(digits: &[u8]) -> u64
    requires few { length digits.now ≤ 16 }
    requires hex { AllByRecursion (λ c. is_hex c ≡ true) digits.now }
    ensures value { result ≡ digits_value 16 digits.now }
    ensures fits { result < 16 ^ length digits.now }
{
    let mut value: u64 = 0;
    for c in digits {
        let digit = digit_of(*c);
        value = value * 16 + u64::from(digit);
    }
    value
}
