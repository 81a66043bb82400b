ghost use Rattle.std.specs.Prelude.{◌≡◌, ◌<◌, ◌≤◌, ℕ, List, is_some, length, Err};
ghost use Rattle.std.specs.Io.KnownBytes.{Consumes, IsAtEnd};
ghost use Rattle.outside.specs.Causes.{Rose};
ghost use Rattle.outside.specs.Taking.{Took};

use crate::source::Source;
use std::alloc::Global;

/// How many bytes are read at once.
const PIECE: usize = 65_536;

/// Why not all that a source has was taken.
#[derive(Clone, Copy, Debug, PartialEq, Eq)]
pub enum TakeFault {
    /// Memory ran out.
    Memory,
    /// A read failed.
    Source,
    /// The source has more bytes than the limit.
    TooMuch,
}

fn take_pieces<I: Source>(
    alloc: Global,
    buffer: &mut [u8],
    input: &mut I,
    limit: usize,
) -> Result<Vec<u8>, TakeFault>
    requires { 0 < length buffer.old }
    ensures took { (read : List ℕ) × Consumes (I.left input.old) (I.left input.new) read × Took limit (IsAtEnd (I.left input.new)) result read }
    ensures source { result ≡ Err TakeFault.Source → Rose (I.source_faults input.old) (I.source_faults input.new) }
    ensures later { I.source_faults input.old ≤ I.source_faults input.new }
    ensures tells { is_some (I.left input.new) ≡ is_some (I.left input.old) }
{
    let mut bytes = Vec::new(alloc);
    loop {
        let count = match input.read(buffer) {
            Err(_) => return Err(TakeFault::Source),
            Ok(0) => return Ok(bytes),
            Ok(count) => count,
        };
        if count > limit - bytes.len() {
            return Err(TakeFault::TooMuch);
        }
        if bytes.extend_from_slice(&buffer[..count]).is_err() {
            return Err(TakeFault::Memory);
        }
    }
}

/// Reads all that the source has, at most `limit` bytes. It reads at most 65,536 bytes at once, so that a source
/// with too much of them is read at most so far behind the limit.
pub fn take_all<I: Source>(alloc: Global, input: &mut I, limit: usize) -> Result<Vec<u8>, TakeFault>
    ensures took { (read : List ℕ) × Consumes (I.left input.old) (I.left input.new) read × Took limit (IsAtEnd (I.left input.new)) result read }
    ensures source { result ≡ Err TakeFault.Source → Rose (I.source_faults input.old) (I.source_faults input.new) }
    ensures later { I.source_faults input.old ≤ I.source_faults input.new }
    ensures tells { is_some (I.left input.new) ≡ is_some (I.left input.old) }
{
    match vec![in alloc; 0u8; PIECE] {
        Ok(mut buffer) => take_pieces(alloc, buffer.as_mut_slice(), input, limit),
        Err(_) => Err(TakeFault::Memory),
    }
}
