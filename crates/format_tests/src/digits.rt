use std::alloc::{AllocError as Memory, Global};

/// Adds the bytes that these hexadecimal digits spell.
fn put_digits(out: &mut Vec<u8>, digits: &str) -> Result<(), Memory> {
    let mut high = None;
    for digit in digits.as_bytes() {
        let value = match *digit {
            b'a'..=b'f' => digit.wrapping_sub(b'a').wrapping_add(10),
            _ => digit.wrapping_sub(b'0'),
        };
        match high {
            None => high = Some(value),
            Some(first) => {
                out.extend_from_slice(&[value.wrapping_add(16u8.wrapping_mul(first))])?;
                high = None;
            }
        }
    }
    Ok(())
}

/// The bytes of a text with words of hexadecimal digits.
pub(crate) fn spelled(alloc: Global, text: &str) -> Result<Vec<u8>, Memory> {
    let mut out = Vec::new(alloc);
    for word in text.split(' ') {
        put_digits(&mut out, word)?;
    }
    Ok(out)
}
