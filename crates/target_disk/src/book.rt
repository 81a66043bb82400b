//! What a store keeps in memory of its disk.
ghost use Rattle.std.specs.Prelude.{◌≡◌, ◌≤◌, ◌<◌, ◌+◌, ◌*◌, ◌∷◌, ◌++◌, [], ℕ, List, length, IfOk, None, IsSome};
ghost use Rattle.chain_blocks.specs.Chains.{Holds, block_len};
ghost use Rattle.chain_blocks.specs.Stored.{IsCount};
ghost use Rattle.target_disk.specs.Tables.{block_count, ends_in, table_len, table_bytes};
ghost use Rattle.target_disk.specs.Draft.{put_len};
ghost use Rattle.target_disk.specs.Consistent.{Fits, IsDraft, IsTaken, begun_of, draft_chain};
ghost use Rattle.target_disk.specs.Steps.{Extends, IsBlank, IsVerdict, KeepsImage, Lengthens, Turns};

use crate::places::{BLOCK, BLOCKS, IMAGE_MOST, TABLE};
use crate::table::{put_table, read_table, room};
use chain_blocks::{Blocks, ChainFault};
use std::alloc::{AllocError as Memory, Global};

/// A commit that was begun: the chain of the blocks that are full, and how many bytes stand behind them.
#[derive(Clone, Copy)]
pub struct Draft {
    /// The first block of the chain and its last one, where one is full.
    pub ends: Option<Ends>,
    pub full: u32,
    pub fill: usize,
}

/// The first block of a chain, and the last one.
#[derive(Clone, Copy)]
pub struct Ends {
    pub head: u32,
    pub tail: u32,
}

/// The blocks, the chain that holds the image, its generation, room for a table and for a block, and the
/// commit that was begun.
#[derive(Drop)]
pub struct Book {
    pub blocks: Blocks,
    pub head: u32,
    pub generation: u64,
    pub table: Vec<u8>,
    pub block: Vec<u8>,
    pub draft: Option<Draft>,
}

/// What the bytes of a table came to.
#[derive(Drop)]
pub enum Verdict {
    /// They are readable: what a store keeps of them, and how many bytes the image has.
    Readable(Book, u64),
    /// They aren't.
    Unreadable,
}

impl Draft {
    /// No byte was put yet.
    pub fn new() -> Draft
        ensures { (result.ends ≡ None) × (result.full ≡ 0) × (result.fill ≡ 0) }
    {
        Draft {
            ends: None,
            full: 0,
            fill: 0,
        }
    }

    /// How many bytes were put.
    pub fn len(&self) -> u64
        requires { self.now.fill ≤ block_len }
        ensures { result ≡ block_len * self.now.full + self.now.fill }
    {
        BLOCK as u64 * self.full as u64 + self.fill as u64
    }
}

/// What the bytes of a table come to.
pub fn judge(alloc: Global, table: Vec<u8>) -> Result<Verdict, Memory>
    requires { length table.items ≡ table_len }
    ensures { IfOk result (λ v. IsVerdict table.items v) }
{
    let Some(parts) = read_table(alloc, &table)? else {
        return Ok(Verdict::Unreadable);
    };
    if parts.generation == 0 || parts.len > IMAGE_MOST {
        return Ok(Verdict::Unreadable);
    }
    let blocks = match Blocks::from_links(alloc, &parts.links, &[parts.head], parts.free) {
        Ok(blocks) => blocks,
        Err(fault) => match fault {
            ChainFault::Memory => return Err(Memory),
            _ => return Ok(Verdict::Unreadable),
        },
    };
    if !is_end(parts.len, BLOCKS - blocks.spare()) {
        return Ok(Verdict::Unreadable);
    }
    let block = room(alloc, BLOCK)?;
    Ok(Verdict::Readable(
        Book {
            blocks,
            head: parts.head,
            generation: parts.generation,
            table,
            block,
            draft: None,
        },
        parts.len,
    ))
}

/// Whether an image of so many bytes ends in the last one of so many blocks.
fn is_end(len: u64, blocks: u32) -> bool
    requires { blocks ≤ block_count }
    ensures { result ≡ ends_in len blocks }
{
    let size = BLOCK as u64 * blocks as u64;
    len <= size && size < len + BLOCK as u64 && len <= IMAGE_MOST
}

/// So many blocks, all of them free.
fn free_blocks(alloc: Global, count: u32) -> Result<Blocks, Memory>
    ensures { IfOk result (λ b. (free : List ℕ) × Holds b free [] × (length b.links ≡ count)) }
{
    Ok(Blocks::new(alloc, count)?)
}

/// A book of no image yet.
pub fn blank(alloc: Global) -> Result<Book, Memory>
    ensures { IfOk result (λ b. IsBlank b) }
{
    Ok(Book {
        blocks: free_blocks(alloc, BLOCKS)?,
        head: 0,
        generation: 1,
        table: room(alloc, TABLE)?,
        block: room(alloc, BLOCK)?,
        draft: None,
    })
}

/// Gives back the blocks that were taken for a commit.
fn give_taken(blocks: &mut Blocks, draft: Option<Draft>)
    requires { (free : List ℕ) × (taken : List (List ℕ)) × (rest : List (List ℕ)) × (most : ℕ) × IsDraft most draft taken × Holds blocks.old free (taken ++ rest) }
    ensures { (free : List ℕ) → (taken : List (List ℕ)) → (rest : List (List ℕ)) → (most : ℕ) → IsDraft most draft taken → Holds blocks.old free (taken ++ rest) → (left : List ℕ) × Holds blocks.new left rest × (length blocks.new.links ≡ length blocks.old.links) }
{
    let Some(draft) = draft else {
        return;
    };
    let Some(ends) = draft.ends else {
        return;
    };
    blocks.give(ends.head);
}

/// Takes a block behind those that were taken for a commit, and answers the ends of their chain.
fn lengthen(blocks: &mut Blocks, ends: Option<Ends>) -> Ends
    requires { (free : List ℕ) × (taken : List (List ℕ)) × (rest : List (List ℕ)) × (full : ℕ) × IsTaken ends taken full × Holds blocks.old free (taken ++ rest) × (0 < length free) }
    ensures { (block : ℕ) → (free : List ℕ) → (taken : List (List ℕ)) → (rest : List (List ℕ)) → (full : ℕ) → IsTaken ends taken full → Holds blocks.old (block ∷ free) (taken ++ rest) → Lengthens block free taken rest full result blocks.new }
{
    let Some(ends) = ends else {
        let Ok(block) = blocks.take() else {
            unreachable!();
        };
        return Ends {
            head: block,
            tail: block,
        };
    };
    let Ok(block) = blocks.link_after(ends.tail) else {
        unreachable!();
    };
    Ends {
        head: ends.head,
        tail: block,
    }
}

impl Book {
    /// Gives back the blocks that were taken for a commit that isn't finished.
    pub fn give_up(&mut self)
        requires { Fits 4095 self.old }
        ensures fits { Fits 4095 self.new }
        ensures keeps { KeepsImage self.old self.new }
        ensures none { self.new.draft ≡ None }
        ensures table { self.new.table.items ≡ self.old.table.items }
    {
        give_taken(&mut self.blocks, self.draft);
        self.draft = None;
    }

    /// Takes a block for the commit that was begun, behind those that it has.
    pub fn extend(&mut self) -> u32
        requires fits { Fits 4096 self.old }
        requires begun { IsSome self.old.draft }
        requires some { block_len * length (draft_chain self.old) < put_len (begun_of self.old) }
        ensures { Extends self.old self.new result }
    {
        let Some(draft) = self.draft else {
            unreachable!();
        };
        let ends = lengthen(&mut self.blocks, draft.ends);
        self.draft = Some(Draft {
            ends: Some(ends),
            full: draft.full + 1,
            fill: 0,
        });
        ends.tail
    }

    /// Makes the chain of the commit that of the image, gives the old one back, and puts the bytes of the
    /// table. The image has so many bytes.
    pub fn turn(&mut self, len: u64)
        requires fits { Fits 4095 self.old }
        requires some { 0 < length (draft_chain self.old) }
        requires whole { put_len (begun_of self.old) ≡ block_len * length (draft_chain self.old) }
        requires ends { IsCount (length (draft_chain self.old)) len }
        ensures { Turns self.old self.new len }
    {
        let Some(draft) = self.draft else {
            unreachable!();
        };
        let Some(ends) = draft.ends else {
            unreachable!();
        };
        self.blocks.give(self.head);
        self.head = ends.head;
        self.generation = self.generation.saturating_add(1);
        self.draft = None;
        self.put_table(len);
    }

    /// Puts the bytes of the table of an image of so many bytes.
    pub fn put_table(&mut self, len: u64)
        requires room { length self.old.table.items ≡ table_len }
        requires all { length self.old.blocks.links ≡ block_count }
        ensures table { self.new.table.items ≡ table_bytes (record { generation = self.old.generation; len = len; head = self.old.head; free = self.old.blocks.free; links = self.old.blocks.links }) }
        ensures others { (self.new.blocks ≡ self.old.blocks) × (self.new.head ≡ self.old.head) × (self.new.generation ≡ self.old.generation) × (self.new.block.items ≡ self.old.block.items) × (self.new.draft ≡ self.old.draft) }
    {
        put_table(
            &mut self.table,
            &self.blocks,
            self.generation,
            len,
            self.head,
        );
    }
}
