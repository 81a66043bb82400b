//! The bytes of a table.
ghost use Rattle.std.specs.Prelude.{◌≡◌, ◌≤◌, ◌<◌, ◌+◌, ◌*◌, ℕ, List, length, drop, IfOk, OnOk};
ghost use Rattle.std.specs.Int.{w32, w64, to_le_bytes, from_le_bytes};
ghost use Rattle.outside.specs.Disk.{part, put};
ghost use Rattle.target_disk.specs.Parts.{table_of};
ghost use Rattle.target_disk.specs.Tables.{Table, block_count, front_bytes, table_bytes, table_in, table_len, words};

use crate::places::{BLOCKS, TABLE};
use chain_blocks::Blocks;
use std::alloc::{AllocError as Memory, Global};

const MAGIC: u32 = 0x444e_4254;

const FRONT: usize = 32;

/// What a table says.
#[derive(Drop)]
pub struct TableParts {
    pub generation: u64,
    pub len: u64,
    pub head: u32,
    pub free: u32,
    pub links: Vec<u32>,
}

/// Room for so many bytes.
pub fn room(alloc: Global, len: usize) -> Result<Vec<u8>, Memory>
    ensures { IfOk result (λ v. length v.items ≡ len) }
{
    vec![in alloc; 0; len]
}

fn put_word(table: &mut Vec<u8>, at: usize, word: u32)
    requires { at + 4 ≤ length table.old.items }
    ensures { table.new.items ≡ put table.old.items at (to_le_bytes w32 word) }
{
    table[at..at + 4].copy_from_slice(&word.to_le_bytes());
}

fn put_long(table: &mut Vec<u8>, at: usize, long: u64)
    requires { at + 8 ≤ length table.old.items }
    ensures { table.new.items ≡ put table.old.items at (to_le_bytes w64 long) }
{
    table[at..at + 8].copy_from_slice(&long.to_le_bytes());
}

/// The bytes of a table before its links.
fn put_front(table: &mut Vec<u8>, generation: u64, len: u64, head: u32, free: u32)
    requires { length table.old.items ≡ table_len }
    ensures { (links : List ℕ) → table.new.items ≡ put table.old.items 0 (front_bytes (record { generation = generation; len = len; head = head; free = free; links = links })) }
{
    put_word(table, 0, MAGIC);
    put_word(table, 4, BLOCKS);
    put_long(table, 8, generation);
    put_long(table, 16, len);
    put_word(table, 24, head);
    put_word(table, 28, free);
}

/// Puts the bytes of a table over a room of as many.
pub fn put_table(table: &mut Vec<u8>, blocks: &Blocks, generation: u64, len: u64, head: u32)
    requires room { length table.old.items ≡ table_len }
    requires all { length blocks.now.links ≡ block_count }
    ensures { table.new.items ≡ table_bytes (record { generation = generation; len = len; head = head; free = blocks.now.free; links = blocks.now.links }) }
{
    put_front(table, generation, len, head, blocks.free());
    for block in 0..BLOCKS {
        let Some(link) = blocks.link(block) else {
            unreachable!();
        };
        put_word(table, FRONT + 4 * block as usize, link);
    }
}

/// The number in four bytes.
fn word_at(table: &Vec<u8>, at: usize) -> u32
    requires { at + 4 ≤ length table.now.items }
    ensures { result ≡ from_le_bytes w32 (part at 4 table.now.items) }
{
    u32::from_le_bytes([table[at], table[at + 1], table[at + 2], table[at + 3]])
}

/// The number in eight bytes.
fn long_at(table: &Vec<u8>, at: usize) -> u64
    requires { at + 8 ≤ length table.now.items }
    ensures { result ≡ from_le_bytes w64 (part at 8 table.now.items) }
{
    u64::from_le_bytes([
        table[at],
        table[at + 1],
        table[at + 2],
        table[at + 3],
        table[at + 4],
        table[at + 5],
        table[at + 6],
        table[at + 7],
    ])
}

/// The links in a table.
fn links_in(alloc: Global, table: &Vec<u8>) -> Result<Vec<u32>, Memory>
    requires { length table.now.items ≡ table_len }
    ensures { IfOk result (λ v. v.items ≡ words block_count (drop 32 table.now.items)) }
{
    let mut links = Vec::with_capacity(alloc, BLOCKS as usize)?;
    for block in 0..BLOCKS as usize {
        links.push(word_at(table, FRONT + 4 * block))?;
    }
    Ok(links)
}

/// The table in bytes that begin with its two marks.
pub fn read_table(alloc: Global, table: &Vec<u8>) -> Result<Option<TableParts>, Memory>
    requires { length table.now.items ≡ table_len }
    ensures { IfOk result (λ o. table_of o ≡ table_in table.now.items) }
{
    if word_at(table, 0) != MAGIC || word_at(table, 4) != BLOCKS {
        return Ok(None);
    }
    Ok(Some(TableParts {
        generation: long_at(table, 8),
        len: long_at(table, 16),
        head: word_at(table, 24),
        free: word_at(table, 28),
        links: links_in(alloc, table)?,
    }))
}
