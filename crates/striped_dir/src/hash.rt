ghost use Rattle.std.specs.Prelude.{◌≡◌, ◌++◌, OnOk, OnErr};
ghost use Rattle.tree_model.specs.Striped.{fnv1a_64};
ghost use Rattle.striped_dir.specs.HashText.{hash_text};

use fid_space::{Bytes, print_hex_digits};
use std::alloc::AllocError as Memory;

/// The FNV-1a hash over 64 bits, as its public specification has it: each byte is taken in by an exclusive
/// or, and then the hash is multiplied by the prime, modulo 2 to the 64th.
#[tactic(auto, unfolding(tree_model::specs::Striped::fnv1a_64))]
pub fn fnv1a_64(bytes: &[u8]) -> u64
    ensures { result ≡ fnv1a_64 bytes.now }
{
    let mut hash: u64 = 0xcbf2_9ce4_8422_2325;
    for b in bytes {
        hash = (hash ^ u64::from(*b)).wrapping_mul(0x100_0000_01b3);
    }
    hash
}

/// Adds the 16 hexadecimal digits of a hash at the end, in lower case, the highest first. Want of memory
/// adds nothing.
#[tactic(auto, unfolding(crate::specs::HashText::hash_text))]
pub fn print_hash(hash: u64, out: &mut Bytes) -> Result<(), Memory>
    ensures ok { OnOk result (out.new ≡ out.old ++ hash_text hash) }
    ensures err { OnErr result (out.new ≡ out.old) }
{
    let mut text = Bytes::new(out.alloc());
    print_hex_digits(&hash.to_be_bytes(), &mut text)?;
    out.append(text.bytes())
}
