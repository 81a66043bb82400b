//! Reads the gate, a table and an image.
ghost use Rattle.std.specs.Prelude.{◌≡◌, ◌≤◌, ◌∷◌, ◌*◌, ◌+◌, ℕ, List, length, take, false, IsTrue, IfOk, IsErrOf, is_err};
ghost use Rattle.outside.specs.Causes.{HasCause, Rose};
ghost use Rattle.outside.specs.Disk.{part};
ghost use Rattle.chain_blocks.specs.Chains.{IsHead, IsTrail};
ghost use Rattle.chain_blocks.specs.Stored.{stored};
ghost use Rattle.target_disk.specs.Tables.{block_count, data_at, is_open, table_at, table_len};
ghost use Rattle.target_disk.specs.Reads.{Keeps, ReadFlag};

use crate::places::{BLOCK, DATA, HOME, JOURNAL};
use chain_blocks::{Blocks, ChainReadFault};
use fid_space::Bytes;
use outside::{Disk, DiskFault};
use std::alloc::Global;

/// Why an image wasn't read.
#[derive(Clone, Copy, Debug, PartialEq, Eq)]
pub enum ReadFault {
    /// A call of the disk failed.
    Disk,
    /// There was no memory for the image.
    Memory,
}

/// Reads the gate, and the table that it names.
pub fn look<D: Disk>(disk: &mut D, table: &mut Vec<u8>) -> Result<bool, DiskFault>
    requires { length table.old.items ≡ table_len }
    ensures keeps { Keeps (D.shown disk.old) (D.shown disk.new) }
    ensures cause { HasCause (D.shown disk.old).faults (D.shown disk.new).faults result }
    ensures flag { IsTrue (D.shown disk.old).honest → (D.shown disk.new).failed ≡ is_err result }
    ensures size { length table.new.items ≡ table_len }
    ensures gate { IsTrue (D.shown disk.old).tells → IfOk result (λ gate. gate ≡ is_open (D.shown disk.old).content) }
    ensures table { IsTrue (D.shown disk.old).tells → IfOk result (λ gate. table.new.items ≡ part (table_at gate) table_len (D.shown disk.old).content) }
{
    let mut gate = [0];
    disk.read_at(0, &mut gate)?;
    let is_open = gate[0] == 1;
    let at = if is_open { JOURNAL } else { HOME };
    disk.read_at(at, table)?;
    Ok(is_open)
}

/// Reads an image of so many bytes, which a chain holds.
#[tactic(auto, using(crate::proofs::Looking::cut_short))]
pub fn read_image<D: Disk>(
    alloc: Global,
    disk: &mut D,
    blocks: &Blocks,
    head: u32,
    len: u64,
) -> Result<Bytes, ReadFault>
    requires head { IsHead blocks.now head }
    requires all { length blocks.now.links ≡ block_count }
    ensures keeps { Keeps (D.shown disk.old) (D.shown disk.new) }
    ensures cause { IsErrOf result ReadFault.Disk → Rose (D.shown disk.old).faults (D.shown disk.new).faults }
    ensures flags { IsTrue (D.shown disk.old).honest → (D.shown disk.old).failed ≡ false → ReadFlag (D.shown disk.new).failed result }
    ensures most { IfOk result (λ v. length v ≤ len) }
    ensures image { IsTrue (D.shown disk.old).tells → (behind : List ℕ) → IsTrail blocks.now.links head (head ∷ behind) → IfOk result (λ v. v ≡ take len (stored (D.shown disk.old).content data_at (head ∷ behind))) }
{
    let mut image = Bytes::new(alloc);
    match blocks.read_chain(disk, DATA, head, &mut image) {
        Ok(()) => {}
        Err(ChainReadFault::Disk) => return Err(ReadFault::Disk),
        Err(ChainReadFault::Memory) => return Err(ReadFault::Memory),
    }
    image.truncate(len as usize);
    Ok(image)
}
