//! Numbers and bytes as text.

ghost use Rattle.std.specs.Prelude.{◌≡◌, ◌<◌, ◌++◌, false, OnOk, OnErr};
ghost use Rattle.std.specs.Fmt.{decimal, digit_glyph};
ghost use Rattle.std.specs.List.{flat_map};
ghost use Rattle.fid_space.specs.Fronts.{IsFront};
ghost use Rattle.fid_space.specs.HexText.{hex_byte, hex_text};

use crate::bytes::Bytes;
use std::alloc::AllocError as Memory;

/// Adds the number's decimal digits at the end. Want of memory adds nothing.
pub fn print_number(n: u64, out: &mut Bytes) -> Result<(), Memory>
    ensures ok { OnOk result (out.new ≡ out.old ++ decimal n) }
    ensures err { OnErr result (out.new ≡ out.old) }
{
    let text = n.to_string(out.alloc())?;
    out.append(text.as_bytes())
}

/// The lower-case digit of a number below 16.
pub fn hex_digit(digit: u8) -> u8
    requires { digit < 16 }
    ensures { result ≡ digit_glyph false digit }
{
    if digit < 10 {
        b'0' + digit
    } else {
        b'a' + (digit - 10)
    }
}

/// Adds two lower-case hexadecimal digits for each byte at the end. Want of memory leaves a front of them.
pub fn print_hex_digits(bytes: &[u8], out: &mut Bytes) -> Result<(), Memory>
    ensures ok { OnOk result (out.new ≡ out.old ++ flat_map hex_byte bytes.now) }
    ensures err { OnErr result (IsFront out.old out.new (flat_map hex_byte bytes.now)) }
{
    for b in bytes {
        out.append(&[hex_digit(*b / 16), hex_digit(*b % 16)])?;
    }
    Ok(())
}

/// The same, with a dash where there is no byte.
pub fn print_hex(bytes: &[u8], out: &mut Bytes) -> Result<(), Memory>
    ensures ok { OnOk result (out.new ≡ out.old ++ hex_text bytes.now) }
    ensures err { OnErr result (IsFront out.old out.new (hex_text bytes.now)) }
{
    if bytes.is_empty() {
        return out.append(b"-");
    }
    print_hex_digits(bytes, out)
}
