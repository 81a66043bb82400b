ghost use Rattle.std.specs.Prelude.{◌≡◌, slice_set, IfOk};

use std::alloc::{AllocError as Memory, Global};

/// The bytes with another one at a place; as they are where there is none.
pub fn changed(alloc: Global, bytes: &[u8], at: usize, with: u8) -> Result<Vec<u8>, Memory>
    ensures { IfOk result (λ v. v.items ≡ slice_set bytes.now at with) }
{
    let mut out = Vec::from_slice(alloc, bytes)?;
    if at < out.len() {
        out[at] = with;
    }
    Ok(out)
}
