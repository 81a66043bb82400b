ghost use Rattle.std.specs.Prelude.{◌≡◌, length, replicate, IfOk};

use std::alloc::{AllocError as Memory, Global};

/// So many bytes of one value.
pub fn image_of(alloc: Global, len: usize, value: u8) -> Result<Vec<u8>, Memory>
    ensures count { IfOk result (λ v. length v.items ≡ len) }
    ensures bytes { IfOk result (λ v. v.items ≡ replicate len value) }
{
    vec![in alloc; value; len]
}
