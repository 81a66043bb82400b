//! Copying what fits of a text that begins behind a place.

ghost use Rattle.std.specs.Prelude.{◌≡◌, ◌++◌, ◌≤◌, length, drop};
ghost use Rattle.object_store.specs.ImageText.{padded_text};
ghost use Rattle.object_store.specs.Pieces.{IsLaid};

use byte_grammar::padding_of;

/// Copies what fits of the bytes behind the first `skip`, and answers how many that are.
pub(crate) fn copy_bytes(from: &[u8], skip: usize, into: &mut [u8]) -> usize
    ensures { IsLaid (drop skip from.now) into.old into.new result }
{
    let from = &from[skip.min(from.len())..];
    let count = from.len().min(into.len());
    into[..count].copy_from_slice(&from[..count]);
    count
}

/// The same of the bytes with their padding.
#[tactic(auto, unfolding(crate::specs::ImageText::padded_text, byte_grammar::specs::Numbers::zeros))]
pub(crate) fn copy_padded(bytes: &[u8], skip: usize, into: &mut [u8]) -> usize
    requires { length bytes.now ≤ 4096 }
    ensures { IsLaid (drop skip (padded_text bytes.now)) into.old into.new result }
{
    let zeros = [0u8; 8];
    let pad = &zeros[..padding_of(bytes.len() as u32)];
    let first = copy_bytes(bytes, skip, into);
    let second = copy_bytes(pad, skip.saturating_sub(bytes.len()), &mut into[first..]);
    first + second
}

/// The same of a head and of bytes with their padding.
pub(crate) fn copy_two(head: &[u8], bytes: &[u8], skip: usize, into: &mut [u8]) -> usize
    requires { length bytes.now ≤ 4096 }
    ensures { IsLaid (drop skip (head.now ++ padded_text bytes.now)) into.old into.new result }
{
    let first = copy_bytes(head, skip, into);
    let second = copy_padded(bytes, skip.saturating_sub(head.len()), &mut into[first..]);
    first + second
}
