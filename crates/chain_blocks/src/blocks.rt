//! Blocks that are free or stand in chains.
ghost use Rattle.std.specs.Prelude.{◌≡◌, ◌<◌, ◌≤◌, ◌+◌, ℕ, List, [], ◌∷◌, ◌++◌, length, slice_get, slice_index_or, if◌then◌else◌, nat_lt, IfOk, OnOk, OnErr};
ghost use Rattle.chain_blocks.specs.Marks.{Judges};
ghost use Rattle.chain_blocks.specs.Stored.{Took};
ghost use Rattle.chain_blocks.specs.Chains.{Linked, numbers, Holds, IsHead, IsTail, IsTrail, Takes, LinksBehind, last_link};

use crate::marks::{find_lost, mark_chain, mark_heads, no_marks};
use std::alloc::{AllocError as Memory, Global};
use std::marker::Model;

/// The link of the last block of a chain.
pub const LAST: u32 = 0xffff_ffff;

/// No block is free.
#[derive(Clone, Copy, Debug, PartialEq, Eq)]
pub struct Full;

/// Why links aren't those of chains, or weren't taken.
#[derive(Clone, Copy, Debug, PartialEq, Eq)]
pub enum ChainFault {
    /// This number was read as a block, and is no block's.
    OutOfRange(u32),
    /// This block was met before in its chain.
    Loop(u32),
    /// This block was met in an earlier chain.
    Shared(u32),
    /// This block is in no chain.
    Lost(u32),
    /// There was no memory.
    Memory,
}

/// Blocks that are linked into chains, and a chain of free ones. A chain is named by its first block.
#[derive(Drop)]
pub struct Blocks {
    links: Vec<u32>,
    free: u32,
    spare: u32,
}

impl Model for Blocks {
    ghost use Rattle.chain_blocks.specs.Chains.{Linked, Sound};

    ghost Value = { Linked };

    ghost view = { λ b. record { links = b.links.items; free = b.free } };

    ghost invariant = { λ b. Sound b.links.items b.free b.spare };
}

impl Blocks {
    /// So many blocks, all of them free, in the order of their numbers.
    pub fn new(alloc: Global, count: u32) -> Result<Blocks, Memory>
        ensures { IfOk result (λ b. Holds b (numbers 0 count) []) }
    {
        let mut links = Vec::with_capacity(alloc, count as usize)?;
        for block in 0..count {
            links.push(next_of(block, count))?;
        }
        Ok(Blocks {
            links,
            free: first_of(count),
            spare: count,
        })
    }

    /// The blocks of these links: the chains of the heads, and the free ones. The first fault is answered in the
    /// walk of the heads in their order, then of the free blocks, then of all blocks by number. It costs a
    /// constant for each link.
    pub fn from_links(
        alloc: Global,
        links: &[u32],
        heads: &[u32],
        free: u32,
    ) -> Result<Blocks, ChainFault>
        requires { length links.now ≤ last_link }
        ensures { Judges links.now heads.now free result }
    {
        let Ok(mut marks) = no_marks(alloc, links.len()) else {
            return Err(ChainFault::Memory);
        };
        match mark_heads(links, &mut marks, heads) {
            Ok(()) => {}
            Err(fault) => return Err(fault),
        }
        let spare = match mark_chain(links, &mut marks, heads.len() + 1, free) {
            Ok(spare) => spare,
            Err(fault) => return Err(fault),
        };
        match find_lost(&marks) {
            Ok(()) => {}
            Err(fault) => return Err(fault),
        }
        match Vec::from_slice(alloc, links) {
            Ok(links) => Ok(Blocks { links, free, spare }),
            Err(_) => Err(ChainFault::Memory),
        }
    }

    /// The next block of a block's chain or of the free ones, and `LAST` at the end. `None` past the last
    /// block.
    pub fn link(&self, block: u32) -> Option<u32>
        ensures { result ≡ slice_get self.now.links block }
    {
        self.links.get(block as usize).copied()
    }

    /// The first free block, and `LAST` where none is.
    pub fn free(&self) -> u32
        ensures { result ≡ self.now.free }
    {
        self.free
    }

    /// Takes the first free block, as a chain of one.
    pub fn take(&mut self) -> Result<u32, Full>
        ensures { (free : List ℕ) → (chains : List (List ℕ)) → Holds self.old free chains → Takes self.old self.new result free chains }
    {
        if self.free == LAST {
            return Err(Full);
        }
        let block = self.free;
        self.free = self.links[block as usize];
        self.links[block as usize] = LAST;
        self.spare -= 1;
        Ok(block)
    }

    /// Takes the first free block, and links it behind the last block of a chain.
    pub fn link_after(&mut self, tail: u32) -> Result<u32, Full>
        requires { IsTail self.old tail }
        ensures { (free : List ℕ) → (before : List ℕ) → (chains : List (List ℕ)) → Holds self.old free ((before ++ tail ∷ []) ∷ chains) → LinksBehind self.old self.new result free (before ++ tail ∷ []) chains }
    {
        let block = match self.take() {
            Ok(block) => block,
            Err(full) => return Err(full),
        };
        self.links[tail as usize] = block;
        Ok(block)
    }

    /// How many blocks are free.
    pub fn spare(&self) -> u32
        ensures count { (free : List ℕ) → (chains : List (List ℕ)) → Holds self.now free chains → result ≡ length free }
        ensures lists { (free : List ℕ) × (chains : List (List ℕ)) × Holds self.now free chains }
    {
        self.spare
    }

    // The block behind one, or `LAST`.
    pub(crate) fn next(&self, block: u32) -> u32
        requires { block < length self.now.links }
        ensures { result ≡ slice_index_or self.now.links block last_link }
    {
        self.links[block as usize]
    }

    // Takes the first free blocks, as a chain of so many.
    pub(crate) fn take_chain(&mut self, count: u32) -> u32
        requires some { 1 ≤ count }
        requires enough { (free : List ℕ) × (chains : List (List ℕ)) × Holds self.old free chains × (count ≤ length free) }
        ensures { (free : List ℕ) → (chains : List (List ℕ)) → Holds self.old free chains → Took count free chains result self.new }
    {
        let Ok(head) = self.take() else {
            unreachable!();
        };
        let mut tail = head;
        for _i in 1..count {
            match self.link_after(tail) {
                Ok(block) => tail = block,
                Err(_) => unreachable!(),
            }
        }
        head
    }

    /// Makes the blocks of a chain free, before those that are.
    pub fn give(&mut self, head: u32)
        requires { IsHead self.old head }
        ensures { (free : List ℕ) → (behind : List ℕ) → (chains : List (List ℕ)) → Holds self.old free ((head ∷ behind) ∷ chains) → Holds self.new ((head ∷ behind) ++ free) chains }
    {
        let (last, count) = last_of(&self.links, head);
        self.links[last as usize] = self.free;
        self.free = head;
        self.spare += count;
    }
}

// The first block of a new free list.
fn first_of(count: u32) -> u32
    ensures { result ≡ (if nat_lt 0 count then 0 else last_link) }
{
    if 0 < count { 0 } else { LAST }
}

// The link of a block of a new free list.
fn next_of(block: u32, count: u32) -> u32
    requires { block < count }
    ensures { result ≡ (if nat_lt (block + 1) count then block + 1 else last_link) }
{
    if block + 1 < count { block + 1 } else { LAST }
}

// The last block of a chain, and how many it has.
fn last_of(links: &Vec<u32>, head: u32) -> (u32, u32)
    requires few { length links.now.items ≤ last_link }
    requires chain { (behind : List ℕ) × IsTrail links.now.items head (head ∷ behind) × (length behind < length links.now.items) }
    ensures { (behind : List ℕ) → IsTrail links.now.items head (head ∷ behind) → (before : List ℕ) × (head ∷ behind ≡ before ++ result.0 ∷ []) × (length (head ∷ behind) ≡ result.1) }
{
    let mut last = head;
    let mut count = 1;
    while links[last as usize] != LAST {
        last = links[last as usize];
        count += 1;
    }
    (last, count)
}
