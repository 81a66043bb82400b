//! The bytes of a log, in chunks.

ghost use Rattle.std.specs.Prelude.{◌≡◌, ◌≤◌, ◌<◌, ◌+◌, ◌-◌, ◌*◌, ◌/◌, ◌%◌, ◌^◌, ◌⊎◌, ◌==◌, ◌++◌, ◌∷◌, ℕ, [], List, length, take, drop, get_or, IfOk, OnOk, OnErr, if◌then◌else◌};
ghost use Rattle.std.specs.Option.{option_map};
ghost use Rattle.llog_store.specs.Numbers.{zeros};
ghost use Rattle.llog_store.specs.Log.{record_size, record_text, pad_text, header_text};
ghost use Rattle.llog_store.specs.Chunked.{chunk_count, chunk_of};
ghost use Rattle.llog_store.specs.Kept.{with_numbers, with_bit, without_bit, wiped, behind_pad, joined, Fills};

use crate::chunk::Chunk;
use crate::reading::{CHUNK, record_size};
use std::alloc::{AllocError as Memory, Global};
use std::marker::Model;

/// Bytes in chunks: each is full but the last, and those behind it are empty and wait.
#[derive(Drop)]
pub struct Chunks {
    chunks: Vec<Chunk>,
    len: usize,
}

impl Model for Chunks {
    ghost use Rattle.std.specs.Prelude.{List, ℕ};
    ghost use Rattle.llog_store.specs.Kept.{joined, Fills};

    ghost Value = { List ℕ };

    ghost view = { λ c. joined c.chunks.items };

    ghost invariant = { λ c. Fills c.len c.chunks.items };
}

impl Chunks {
    /// The header of an empty log.
    pub fn new(alloc: Global) -> Result<Chunks, Memory>
        ensures { IfOk result (λ bytes. bytes ≡ header_text 1 0 (zeros 32000)) }
    {
        let mut header = Chunk::new(alloc)?;
        header.add_header();
        let mut chunks = Vec::new(alloc);
        chunks.push(header)?;
        Ok(Chunks { chunks, len: CHUNK })
    }

    /// These bytes.
    pub fn copy_of(alloc: Global, bytes: &[u8]) -> Result<Chunks, Memory>
        ensures { IfOk result (λ copy. copy ≡ bytes.now) }
    {
        let mut chunks = Vec::new(alloc);
        let mut len = 0;
        while len < bytes.len() {
            ready(alloc, &mut chunks, len / CHUNK)?;
            len = fill(&mut chunks, len, bytes);
        }
        Ok(Chunks { chunks, len })
    }

    /// Where its memory comes from.
    pub(crate) fn alloc(&self) -> Global {
        *self.chunks.allocator()
    }

    /// How many bytes there are.
    pub fn len(&self) -> usize
        ensures { result ≡ length self.now }
    {
        self.len
    }

    /// How many chunks have bytes.
    pub fn count(&self) -> usize
        ensures { result ≡ chunk_count self.now }
    {
        let full = self.len / CHUNK;
        if self.len % CHUNK == 0 {
            full
        } else {
            full + 1
        }
    }

    /// The bytes of a chunk that has some.
    pub fn chunk(&self, i: usize) -> Option<&[u8]>
        ensures { option_map (λ chunk. chunk.now) result ≡ chunk_of self.now i }
    {
        if i < self.count() {
            Some(self.chunks[i].bytes())
        } else {
            None
        }
    }

    /// The first chunk.
    pub fn header(&self) -> &[u8]
        requires { 32768 ≤ length self.now }
        ensures { result.now ≡ take 32768 self.now }
    {
        self.chunks[0].bytes()
    }

    /// The payload, of so many bytes, of the update record at a place.
    pub fn payload(&self, at: usize, n: usize) -> &[u8]
        requires within { at + 24 + n < length self.now }
        requires inside { at % 32768 + 24 + n ≤ 32768 }
        ensures { result.now ≡ take n (drop (at + 24) self.now) }
    {
        let start = at % CHUNK + 24;
        &self.chunks[at / CHUNK].bytes()[start..start + n]
    }

    /// Adds a record at the end, behind a pad of so many bytes where these aren't 0. Want of memory adds
    /// nothing.
    #[tactic(auto, unfolding(crate::specs::Kept::behind_pad))]
    pub fn add_entry(&mut self, lost: usize, index: u32, payload: &[u8]) -> Result<(), Memory>
        requires payload { length payload.now ≤ 24576 }
        requires lost { (lost ≡ 0) ⊎ ((24 ≤ lost) × (length self.old % 32768 + lost ≡ 32768)) }
        requires less { lost < 32768 }
        requires room { (length self.old + lost) % 32768 + record_size (length payload.now) ≤ 32768 }
        requires index { 1 ≤ index }
        requires long { length self.old ≤ 2 ^ 60 }
        ensures ok { OnOk result (self.new ≡ self.old ++ behind_pad lost index payload.now) }
        ensures err { OnErr result (self.new ≡ self.old) }
    {
        let alloc = *self.chunks.allocator();
        ready(alloc, &mut self.chunks, (self.len + lost) / CHUNK)?;
        self.len = pad_at(&mut self.chunks, self.len, lost, index);
        self.len = record_at(&mut self.chunks, self.len, index, payload);
        Ok(())
    }

    /// Writes the header's numbers, and sets the bit of an index.
    pub fn set_live(&mut self, next: u32, live: u32, index: u32)
        requires long { 32768 ≤ length self.old }
        requires low { index < 256000 }
        ensures { self.new ≡ with_bit (with_numbers self.old next live) index }
    {
        self.chunks[0].set_live(next, live, index);
    }

    /// Writes the header's numbers, and clears the bit of an index.
    pub fn set_cancelled(&mut self, next: u32, live: u32, index: u32)
        requires long { 32768 ≤ length self.old }
        requires low { index < 256000 }
        ensures { self.new ≡ without_bit (with_numbers self.old next live) index }
    {
        self.chunks[0].set_cancelled(next, live, index);
    }

    /// Leaves the header of an empty log. The memory of all chunks stays.
    pub fn set_empty(&mut self)
        requires { 32768 ≤ length self.old }
        ensures { self.new ≡ with_numbers (wiped (take 32768 self.old)) 1 0 }
    {
        clear_behind(&mut self.chunks);
        self.chunks[0].set_empty();
        self.len = CHUNK;
    }
}

/// Sees to it that a chunk is there.
fn ready(alloc: Global, chunks: &mut Vec<Chunk>, k: usize) -> Result<(), Memory>
    requires { k ≤ length chunks.old.items }
    ensures there { OnOk result (k < length chunks.new.items) }
    ensures text { joined chunks.new.items ≡ joined chunks.old.items }
    ensures fills { (len : ℕ) → Fills len chunks.old.items → Fills len chunks.new.items }
    ensures count { length chunks.old.items ≤ length chunks.new.items }
{
    if k < chunks.len() {
        return Ok(());
    }
    chunks.push(Chunk::new(alloc)?)?;
    Ok(())
}

/// Copies as many bytes from the place `len` on as the last chunk has room for, and answers how many bytes
/// are there then.
fn fill(chunks: &mut Vec<Chunk>, len: usize, bytes: &[u8]) -> usize
    requires fills { Fills len chunks.old.items }
    requires there { len / 32768 < length chunks.old.items }
    requires before { joined chunks.old.items ≡ take len bytes.now }
    requires more { len < length bytes.now }
    ensures text { joined chunks.new.items ≡ take result bytes.now }
    ensures fills { Fills result chunks.new.items }
    ensures nearer { len < result }
    ensures within { result ≤ length bytes.now }
    ensures count { length chunks.new.items ≡ length chunks.old.items }
    ensures left { result / 32768 ≤ length chunks.new.items }
{
    let end = end_of(len, bytes.len());
    chunks[len / CHUNK].add(&bytes[len..end]);
    end
}

/// The end of the chunk at a place, or of all bytes where they end before.
fn end_of(place: usize, len: usize) -> usize
    requires { place < len }
    ensures more { place < result }
    ensures within { result ≤ len }
    ensures inside { place % 32768 + (result - place) ≤ 32768 }
{
    let room = CHUNK - place % CHUNK;
    if len - place < room {
        len
    } else {
        place + room
    }
}

/// Adds a pad of so many bytes to the last chunk, or nothing where these are 0, and answers how many bytes
/// are there then.
fn pad_at(chunks: &mut Vec<Chunk>, len: usize, lost: usize, index: u32) -> usize
    requires fills { Fills len chunks.old.items }
    requires there { (len + lost) / 32768 < length chunks.old.items }
    requires lost { (lost ≡ 0) ⊎ ((24 ≤ lost) × (len % 32768 + lost ≡ 32768)) }
    requires index { 1 ≤ index }
    requires long { len ≤ 2 ^ 60 }
    ensures text { joined chunks.new.items ≡ joined chunks.old.items ++ (if lost == 0 then [] else pad_text lost (index - 1)) }
    ensures fills { Fills (len + lost) chunks.new.items }
    ensures count { length chunks.new.items ≡ length chunks.old.items }
    ensures value { result ≡ len + lost }
{
    if lost == 0 {
        return len;
    }
    chunks[len / CHUNK].add_pad(lost, index - 1);
    len + lost
}

/// Adds a record to the last chunk, and answers how many bytes are there then.
fn record_at(chunks: &mut Vec<Chunk>, len: usize, index: u32, payload: &[u8]) -> usize
    requires fills { Fills len chunks.old.items }
    requires there { len / 32768 < length chunks.old.items }
    requires payload { length payload.now ≤ 24576 }
    requires room { len % 32768 + record_size (length payload.now) ≤ 32768 }
    requires long { len ≤ 2 ^ 61 }
    ensures text { joined chunks.new.items ≡ joined chunks.old.items ++ record_text index payload.now }
    ensures fills { Fills result chunks.new.items }
{
    chunks[len / CHUNK].add_record(index, payload);
    len + record_size(payload.len())
}

/// Takes the bytes of all chunks away but those of the first.
fn clear_behind(chunks: &mut Vec<Chunk>)
    requires { 1 ≤ length chunks.old.items }
    ensures first { get_or chunks.new.items 0 [] ≡ get_or chunks.old.items 0 [] }
    ensures count { length chunks.new.items ≡ length chunks.old.items }
    ensures empty { (i : ℕ) → 1 ≤ i → get_or chunks.new.items i [] ≡ [] }
{
    for i in 1..chunks.len() {
        chunks[i].clear();
    }
}
