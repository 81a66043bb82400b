//! Bytes in a chain of blocks on a disk.
ghost use Rattle.std.specs.Prelude.{◌≡◌, ◌<◌, ◌≤◌, ◌+◌, ◌*◌, ◌++◌, ◌∷◌, ℕ, List, length, take, IsTrue, IsErrOf, OnOk, OnErr, is_err};
ghost use Rattle.outside.specs.Causes.{HasCause, Rose};
ghost use Rattle.outside.specs.Disk.{Stays, Writes, disk_len, part};
ghost use Rattle.chain_blocks.specs.Chains.{Holds, IsHead, IsTrail, block_len};
ghost use Rattle.chain_blocks.specs.Stored.{Appends, IsCount, ReadFlag, ReadsOnly, WritesChain, WriteFlag, Wrote, place, stored, filled};

use crate::blocks::{Blocks, LAST};
use fid_space::Bytes;
use outside::{Disk, DiskFault};

/// The bytes of a block.
const BLOCK: usize = 4096;

/// Why a chain wasn't written.
#[derive(Clone, Copy, Debug, PartialEq, Eq)]
pub enum ChainWriteFault {
    /// A call of the disk failed. No block stays taken.
    Disk,
    /// So many blocks are needed, and fewer are free. Nothing was taken or written.
    Full(u64),
}

/// Why a chain wasn't read to its end.
#[derive(Clone, Copy, Debug, PartialEq, Eq)]
pub enum ChainReadFault {
    /// A call of the disk failed.
    Disk,
    /// There was no memory.
    Memory,
}

impl Blocks {
    /// Writes bytes into a new chain, and answers its first block. The last block is filled with zeros.
    /// The blocks begin at a place of the disk. It takes no memory.
    pub fn write_chain<D: Disk>(
        &mut self,
        disk: &mut D,
        at: u64,
        bytes: &[u8],
    ) -> Result<u32, ChainWriteFault>
        requires some { 0 < length bytes.now }
        requires within { at + block_len * length self.old.links ≤ disk_len }
        ensures stays { Stays (D.shown disk.old) (D.shown disk.new) }
        ensures later { (D.shown disk.old).faults ≤ (D.shown disk.new).faults }
        ensures cause { IsErrOf result ChainWriteFault.Disk → Rose (D.shown disk.old).faults (D.shown disk.new).faults }
        ensures flags { IsTrue (D.shown disk.old).honest → WriteFlag (D.shown disk.old).failed (D.shown disk.new).failed result }
        ensures blocks { (free : List ℕ) → (chains : List (List ℕ)) → Holds self.old free chains → WritesChain self.old self.new result free chains (length bytes.now) }
        ensures full { (n : ℕ) → IsCount n (length bytes.now) → (free : List ℕ) → (chains : List (List ℕ)) → Holds self.old free chains → length free < n → disk.new ≡ disk.old }
        ensures wrote { IsTrue (D.shown disk.old).honest → (n : ℕ) → IsCount n (length bytes.now) → (free : List ℕ) → (chains : List (List ℕ)) → Holds self.old free chains → n ≤ length free → Wrote at n bytes.now (take n free) result (D.shown disk.old) (D.shown disk.new) }
    {
        let needed = count_for(bytes.len());
        if needed > self.spare() as usize {
            return Err(ChainWriteFault::Full(needed as u64));
        }
        let head = self.take_chain(needed as u32);
        if self.fill_chain(disk, at, head, bytes).is_err() {
            self.give(head);
            return Err(ChainWriteFault::Disk);
        }
        Ok(head)
    }

    /// Appends all bytes of a chain's blocks.
    pub fn read_chain<D: Disk>(
        &self,
        disk: &mut D,
        at: u64,
        head: u32,
        out: &mut Bytes,
    ) -> Result<(), ChainReadFault>
        requires head { IsHead self.now head }
        requires within { at + block_len * length self.now.links ≤ disk_len }
        ensures reads { ReadsOnly (D.shown disk.old) (D.shown disk.new) }
        ensures cause { IsErrOf result ChainReadFault.Disk → Rose (D.shown disk.old).faults (D.shown disk.new).faults }
        ensures flags { IsTrue (D.shown disk.old).honest → ReadFlag (D.shown disk.old).failed (D.shown disk.new).failed result }
        ensures bytes { IsTrue (D.shown disk.old).tells → (behind : List ℕ) → IsTrail self.now.links head (head ∷ behind) → Appends result out.old out.new (stored (D.shown disk.old).content at (head ∷ behind)) }
    {
        let mut block = head;
        while block != LAST {
            match read_block(disk, place_of(at, block), out) {
                Ok(()) => {}
                Err(fault) => return Err(fault),
            }
            block = self.next(block);
        }
        Ok(())
    }

    // Writes bytes into the blocks of a chain that has as many as they need.
    fn fill_chain<D: Disk>(
        &self,
        disk: &mut D,
        at: u64,
        head: u32,
        bytes: &[u8],
    ) -> Result<(), DiskFault>
        requires some { 0 < length bytes.now }
        requires within { at + block_len * length self.now.links ≤ disk_len }
        requires chain { (free : List ℕ) × (chain : List ℕ) × (chains : List (List ℕ)) × Holds self.now free (chain ∷ chains) × IsTrail self.now.links head chain × IsCount (length chain) (length bytes.now) }
        ensures stays { Stays (D.shown disk.old) (D.shown disk.new) }
        ensures cause { HasCause (D.shown disk.old).faults (D.shown disk.new).faults result }
        ensures flag { IsTrue (D.shown disk.old).honest → (D.shown disk.new).failed ≡ is_err result }
        ensures stopped { IsTrue (D.shown disk.old).honest → IsTrue (D.shown disk.old).failed → IsTrue (is_err result) }
        ensures wrote { IsTrue (D.shown disk.old).honest → (free : List ℕ) → (chain : List ℕ) → (chains : List (List ℕ)) → Holds self.now free (chain ∷ chains) → IsTrail self.now.links head chain → IsCount (length chain) (length bytes.now) → Wrote at (length chain) bytes.now chain result (D.shown disk.old) (D.shown disk.new) }
    {
        let mut block = head;
        for i in 0..count_for(bytes.len()) {
            let at_byte = BLOCK * i;
            let n = BLOCK.min(bytes.len() - at_byte);
            write_block(disk, place_of(at, block), &bytes[at_byte..at_byte + n])?;
            block = self.next(block);
        }
        Ok(())
    }
}

// How many blocks hold so many bytes.
fn count_for(len: usize) -> usize
    requires { 0 < len }
    ensures { IsCount result len }
{
    (len - 1) / BLOCK + 1
}

// The place of a block, where the blocks begin at one.
fn place_of(at: u64, block: u32) -> u64
    requires { at + block_len * (block + 1) ≤ disk_len }
    ensures { result ≡ place at block }
{
    at + BLOCK as u64 * block as u64
}

// A block that begins with these bytes, and has zeros behind them.
fn padded(bytes: &[u8]) -> [u8; BLOCK]
    requires { length bytes.now ≤ block_len }
    ensures { result ≡ filled 1 bytes.now }
{
    let mut room = [0; BLOCK];
    room[..bytes.len()].copy_from_slice(bytes);
    room
}

// Writes a block that begins with these bytes, and has zeros behind them.
fn write_block<D: Disk>(disk: &mut D, at: u64, bytes: &[u8]) -> Result<(), DiskFault>
    requires fits { length bytes.now ≤ block_len }
    requires within { at + block_len ≤ disk_len }
    ensures stays { Stays (D.shown disk.old) (D.shown disk.new) }
    ensures cause { HasCause (D.shown disk.old).faults (D.shown disk.new).faults result }
    ensures writes { IsTrue (D.shown disk.old).honest → Writes at (filled 1 bytes.now) result (D.shown disk.old) (D.shown disk.new) }
    ensures flag { IsTrue (D.shown disk.old).honest → (D.shown disk.new).failed ≡ is_err result }
    ensures stopped { IsTrue (D.shown disk.old).honest → IsTrue (D.shown disk.old).failed → IsTrue (is_err result) }
{
    disk.write_at(at, &padded(bytes))
}

// Appends the bytes of a block.
fn read_block<D: Disk>(disk: &mut D, at: u64, out: &mut Bytes) -> Result<(), ChainReadFault>
    requires { at + block_len ≤ disk_len }
    ensures reads { ReadsOnly (D.shown disk.old) (D.shown disk.new) }
    ensures cause { IsErrOf result ChainReadFault.Disk → Rose (D.shown disk.old).faults (D.shown disk.new).faults }
    ensures flags { IsTrue (D.shown disk.old).honest → ReadFlag (D.shown disk.old).failed (D.shown disk.new).failed result }
    ensures len { OnOk result (length out.new ≡ length out.old + block_len) }
    ensures bytes { IsTrue (D.shown disk.old).tells → OnOk result (out.new ≡ out.old ++ part at block_len (D.shown disk.old).content) }
    ensures none { OnErr result (out.new ≡ out.old) }
{
    let mut room = [0; BLOCK];
    if disk.read_at(at, &mut room).is_err() {
        return Err(ChainReadFault::Disk);
    }
    if out.append(&room).is_err() {
        return Err(ChainReadFault::Memory);
    }
    Ok(())
}
