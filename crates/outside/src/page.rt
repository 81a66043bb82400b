// A page of a disk in memory.
ghost use Rattle.std.specs.Prelude.{◌≡◌, ◌<◌, ◌≤◌, ◌+◌, ◌||◌, ◌⊎◌, ℕ, Bool, false, not, length, slice_index_or, IfOk, map, if◌then◌else◌};
ghost use Rattle.outside.specs.Cells.{page_len, blanks, settle_cell, keeps, Cycled, zipped, FitsPage};
ghost use Rattle.outside.specs.Cells.{Overwrites};

use crate::bytes::{mark, overwrite, unset, zeros};
use std::alloc::{AllocError as Memory, Global};

/// The bytes of a page.
pub const PAGE_LEN: usize = 65_536;

/// The bytes of a page as they read and as they are settled, which of them are dirty, and the range in which
/// all dirty ones lie.
#[derive(Drop)]
pub struct Page {
    pub content: Vec<u8>,
    pub settled: Vec<u8>,
    pub dirty: Vec<bool>,
    pub low: usize,
    pub high: usize,
    ghost fits: { FitsPage content.items settled.items dirty.items low high },
}

impl Page {
    /// A page of zeros, all of them settled.
    pub fn new(alloc: Global) -> Result<Page, Memory>
        ensures { IfOk result (λ p. zipped p.content.items p.settled.items p.dirty.items ≡ blanks page_len) }
    {
        Ok(Page {
            content: zeros(alloc, PAGE_LEN)?,
            settled: zeros(alloc, PAGE_LEN)?,
            dirty: unset(alloc, PAGE_LEN)?,
            low: 0,
            high: 0,
        })
    }

    /// Settles each byte. It costs the range in which dirty bytes may lie.
    pub fn settle(&mut self)
        ensures { zipped self.new.content.items self.new.settled.items self.new.dirty.items ≡ map settle_cell (zipped self.old.content.items self.old.settled.items self.old.dirty.items) }
    {
        settle_range(
            &self.content,
            &mut self.settled,
            &mut self.dirty,
            self.low,
            self.high,
        );
        self.low = 0;
        self.high = 0;
    }

    /// Settles each byte at the one that a power cycle leaves.
    pub fn cycle(&mut self, choice: u8)
        ensures { Cycled choice (zipped self.old.content.items self.old.settled.items self.old.dirty.items) (zipped self.new.content.items self.new.settled.items self.new.dirty.items) }
    {
        choose_bytes(
            &mut self.content,
            &self.settled,
            &self.dirty,
            self.low,
            self.high,
            choice,
        );
        settle_range(
            &self.content,
            &mut self.settled,
            &mut self.dirty,
            self.low,
            self.high,
        );
        self.low = 0;
        self.high = 0;
    }

    /// Writes bytes, which become dirty.
    pub fn put(&mut self, at: usize, from: &[u8])
        requires { at + length from.now ≤ page_len }
        ensures { Overwrites at from.now (zipped self.old.content.items self.old.settled.items self.old.dirty.items) (zipped self.new.content.items self.new.settled.items self.new.dirty.items) }
    {
        let (low, high) = widened(self.low, self.high, at, from.len());
        overwrite(&mut self.content, at, from);
        mark(&mut self.dirty, at, from.len(), true);
        self.low = low;
        self.high = high;
    }
}

// A range that has another one in it too. One without a place is taken for none.
fn widened(low: usize, high: usize, at: usize, n: usize) -> (usize, usize)
    requires order { low ≤ high }
    requires inside { high ≤ page_len }
    requires within { at + n ≤ page_len }
    ensures order { result.0 ≤ result.1 }
    ensures inside { result.1 ≤ page_len }
    ensures start { result.0 ≤ at }
    ensures end { at + n ≤ result.1 }
    ensures below { (k : ℕ) → k < result.0 → k < low ⊎ high ≤ k }
    ensures above { (k : ℕ) → result.1 ≤ k → high ≤ k }
{
    if low == high {
        return (at, high.max(at + n));
    }
    (low.min(at), high.max(at + n))
}

// Settles the bytes of a range.
fn settle_range(
    content: &Vec<u8>,
    settled: &mut Vec<u8>,
    dirty: &mut Vec<bool>,
    low: usize,
    high: usize,
)
    requires { FitsPage content.now.items settled.old.items dirty.old.items low high }
    ensures fits { FitsPage content.now.items settled.new.items dirty.new.items 0 0 }
    ensures cells { zipped content.now.items settled.new.items dirty.new.items ≡ map settle_cell (zipped content.now.items settled.old.items dirty.old.items) }
{
    overwrite(settled, low, &content[low..high]);
    mark(dirty, low, high - low, false);
}

// Puts the settled byte in the place of each dirty one that the choice doesn't keep.
fn choose_bytes(
    content: &mut Vec<u8>,
    settled: &Vec<u8>,
    dirty: &Vec<bool>,
    low: usize,
    high: usize,
    choice: u8,
)
    requires { FitsPage content.old.items settled.now.items dirty.now.items low high }
    ensures fits { FitsPage content.new.items settled.now.items dirty.now.items low high }
    ensures chosen { (k : ℕ) → slice_index_or content.new.items k 0 ≡ (if not (slice_index_or dirty.now.items k false) || keeps choice k then slice_index_or content.old.items k 0 else slice_index_or settled.now.items k 0) }
{
    for i in low..high {
        content[i] = chosen(
            content[i],
            settled[i],
            dirty[i],
            (choice >> (i % 8)) % 2 == 1,
        );
    }
}

// The byte that a power cycle leaves, where a dirty one stays or not.
fn chosen(content: u8, settled: u8, dirty: bool, stays: bool) -> u8
    ensures { result ≡ (if not dirty || stays then content else settled) }
{
    if !dirty || stays { content } else { settled }
}
