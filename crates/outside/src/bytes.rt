// Ranges of lists that are overwritten.
ghost use Rattle.std.specs.Prelude.{◌≡◌, ◌+◌, ◌≤◌, ℕ, Bool, false, length, replicate, slice_index_or, IfOk};
ghost use Rattle.outside.specs.Disk.{put};

use std::alloc::{AllocError as Memory, Global};

/// Bytes put at a place.
pub fn overwrite(bytes: &mut Vec<u8>, at: usize, from: &[u8])
    requires { at + length from.now ≤ length bytes.old.items }
    ensures { bytes.new.items ≡ put bytes.old.items at from.now }
{
    bytes[at..at + from.len()].copy_from_slice(from);
}

/// Flags of a range set alike.
pub fn mark(flags: &mut Vec<bool>, at: usize, n: usize, value: bool)
    requires { at + n ≤ length flags.old.items }
    ensures { flags.new.items ≡ put flags.old.items at (replicate n value) }
{
    flags[at..at + n].fill(value);
}

/// As many zeros as are asked for. A variable length keeps the list from being computed.
pub fn zeros(alloc: Global, len: usize) -> Result<Vec<u8>, Memory>
    ensures len { IfOk result (λ v. length v.items ≡ len) }
    ensures zero { IfOk result (λ v. (k : ℕ) → slice_index_or v.items k 0 ≡ 0) }
{
    vec![in alloc; 0; len]
}

/// As many flags that aren't set.
pub fn unset(alloc: Global, len: usize) -> Result<Vec<bool>, Memory>
    ensures len { IfOk result (λ v. length v.items ≡ len) }
    ensures unset { IfOk result (λ v. (k : ℕ) → slice_index_or v.items k false ≡ false) }
{
    vec![in alloc; false; len]
}
