//! One chunk of a log, and what is written at its end. It has memory for all of its bytes, so that writing
//! never moves what stands there and never fails.

ghost use Rattle.std.specs.Prelude.{◌≡◌, ◌≤◌, ◌<◌, ◌-◌, ◌+◌, ◌++◌, List, ℕ, [], length, vec_capacity, IfOk};
ghost use Rattle.llog_store.specs.Numbers.{word, zeros, pad8};
ghost use Rattle.llog_store.specs.Log.{record_size, record_text, pad_text, header_front, header_back, header_text};
ghost use Rattle.llog_store.specs.Kept.{with_numbers, with_bit, without_bit, wiped};

use crate::bits::{mark, unmark, wipe, write_number};
use crate::reading::{BITMAP, CHUNK, HEADER_TYPE, PAD_TYPE, UPDATE_TYPE, pad8, record_size};
use crate::walking::BITS_AT;
use std::alloc::{AllocError as Memory, Global};
use std::marker::Model;

/// The bytes of a chunk that are there so far.
#[derive(Drop)]
pub struct Chunk {
    bytes: Vec<u8>,
}

impl Model for Chunk {
    ghost use Rattle.std.specs.Prelude.{List, ℕ, ◌≤◌, length, vec_capacity};

    ghost Value = { List ℕ };

    ghost view = { λ c. c.bytes.items };

    ghost invariant = { λ c. (length c.bytes.items ≤ 32768) × (32768 ≤ vec_capacity c.bytes) };
}

impl Chunk {
    /// A chunk without bytes.
    pub fn new(alloc: Global) -> Result<Chunk, Memory>
        ensures { IfOk result (λ chunk. chunk ≡ []) }
    {
        Ok(Chunk {
            bytes: Vec::with_capacity(alloc, CHUNK)?,
        })
    }

    /// Its bytes.
    pub fn bytes(&self) -> &[u8]
        ensures { result.now ≡ self.now }
    {
        self.bytes.as_slice()
    }

    /// Takes all bytes away. The memory stays.
    pub fn clear(&mut self)
        ensures { self.new ≡ [] }
    {
        self.bytes.clear();
    }

    /// Adds bytes that fit.
    pub fn add(&mut self, piece: &[u8])
        requires { length self.old + length piece.now ≤ 32768 }
        ensures text { self.new ≡ self.old ++ piece.now }
        ensures long { length self.new ≡ length self.old + length piece.now }
    {
        match self.bytes.extend_from_slice(piece) {
            Ok(()) => {}
            Err(_) => unreachable!(),
        }
    }

    #[tactic(auto, unfolding(crate::specs::Numbers::word))]
    fn add_number(&mut self, n: u32)
        requires { length self.old + 4 ≤ 32768 }
        ensures text { self.new ≡ self.old ++ word n }
        ensures long { length self.new ≡ length self.old + 4 }
    {
        self.add(&n.to_le_bytes());
    }

    #[tactic(auto, unfolding(crate::specs::Numbers::zeros))]
    fn add_zeros(&mut self, n: usize)
        requires { length self.old + n ≤ 32768 }
        ensures text { self.new ≡ self.old ++ zeros n }
        ensures long { length self.new ≡ length self.old + n }
    {
        match self.bytes.resize(self.bytes.len() + n, 0) {
            Ok(()) => {}
            Err(_) => unreachable!(),
        }
    }

    /// What stands before a record: its length, its index and its type.
    fn add_head(&mut self, size: u32, index: u32, kind: u32)
        requires { length self.old + 16 ≤ 32768 }
        ensures text { self.new ≡ self.old ++ (word size ++ (word index ++ (word kind ++ zeros 4))) }
        ensures long { length self.new ≡ length self.old + 16 }
    {
        self.add_number(size);
        self.add_number(index);
        self.add_number(kind);
        self.add_zeros(4);
    }

    /// What stands behind a record: its length and its index again.
    fn add_tail(&mut self, size: u32, index: u32)
        requires { length self.old + 8 ≤ 32768 }
        ensures text { self.new ≡ self.old ++ (word size ++ word index) }
        ensures long { length self.new ≡ length self.old + 8 }
    {
        self.add_number(size);
        self.add_number(index);
    }

    /// A payload behind its length.
    fn add_payload(&mut self, payload: &[u8])
        requires small { length payload.now ≤ 24576 }
        requires room { length self.old + 8 + pad8 (length payload.now) ≤ 32768 }
        ensures text { self.new ≡ self.old ++ (word (length payload.now) ++ (zeros 4 ++ (payload.now ++ zeros (pad8 (length payload.now) - length payload.now)))) }
        ensures long { length self.new ≡ length self.old + 8 + pad8 (length payload.now) }
    {
        let n = payload.len();
        let padding = pad8(n) - n;
        self.add_number(n as u32);
        self.add_zeros(4);
        self.add(payload);
        self.add_zeros(padding);
    }

    /// Adds an update record.
    #[tactic(auto, unfolding(crate::specs::Log::record_text))]
    pub fn add_record(&mut self, index: u32, payload: &[u8])
        requires small { length payload.now ≤ 24576 }
        requires room { length self.old + record_size (length payload.now) ≤ 32768 }
        ensures { self.new ≡ self.old ++ record_text index payload.now }
    {
        let size = record_size(payload.len()) as u32;
        self.add_head(size, index, UPDATE_TYPE);
        self.add_payload(payload);
        self.add_tail(size, index);
    }

    /// Adds a pad of so many bytes.
    #[tactic(auto, unfolding(crate::specs::Log::pad_text))]
    pub fn add_pad(&mut self, size: usize, index: u32)
        requires some { 24 ≤ size }
        requires room { length self.old + size ≤ 32768 }
        ensures { self.new ≡ self.old ++ pad_text size index }
    {
        self.add_head(size as u32, index, PAD_TYPE);
        self.add_zeros(size - 24);
        self.add_tail(size as u32, index);
    }

    #[tactic(auto, unfolding(crate::specs::Log::header_front))]
    fn add_front(&mut self)
        requires { length self.old ≤ 16384 }
        ensures text { self.new ≡ self.old ++ header_front }
        ensures long { length self.new ≡ length self.old + 16 }
    {
        self.add_head(CHUNK as u32, 0, HEADER_TYPE);
    }

    #[tactic(auto, unfolding(crate::specs::Log::header_back))]
    fn add_back(&mut self)
        requires { length self.old + 744 ≤ 32768 }
        ensures { self.new ≡ self.old ++ header_back }
    {
        self.add_zeros(736);
        self.add_tail(CHUNK as u32, 0);
    }

    /// Makes it the header of an empty log.
    #[tactic(auto, unfolding(crate::specs::Log::header_text))]
    pub fn add_header(&mut self)
        requires { self.old ≡ [] }
        ensures { self.new ≡ header_text 1 0 (zeros 32000) }
    {
        self.add_front();
        self.add_number(1);
        self.add_number(0);
        self.add_zeros(BITMAP);
        self.add_back();
    }

    /// Writes a header's numbers, and sets the bit of an index.
    pub fn set_live(&mut self, next: u32, live: u32, index: u32)
        requires long { 32768 ≤ length self.old }
        requires low { index < 256000 }
        ensures { self.new ≡ with_bit (with_numbers self.old next live) index }
    {
        let bytes = self.bytes.as_mut_slice();
        write_numbers(bytes, next, live);
        mark(bytes, BITS_AT, index);
    }

    /// Writes a header's numbers, and clears the bit of an index.
    pub fn set_cancelled(&mut self, next: u32, live: u32, index: u32)
        requires long { 32768 ≤ length self.old }
        requires low { index < 256000 }
        ensures { self.new ≡ without_bit (with_numbers self.old next live) index }
    {
        let bytes = self.bytes.as_mut_slice();
        write_numbers(bytes, next, live);
        unmark(bytes, BITS_AT, index);
    }

    /// Writes a header's numbers of an empty log, and clears the bitmap.
    pub fn set_empty(&mut self)
        requires { 32768 ≤ length self.old }
        ensures { self.new ≡ with_numbers (wiped self.old) 1 0 }
    {
        let bytes = self.bytes.as_mut_slice();
        wipe(bytes, BITS_AT, BITMAP);
        write_numbers(bytes, 1, 0);
    }
}

/// Writes a header's next index and its count of live records.
fn write_numbers(bytes: &mut [u8], next: u32, live: u32)
    requires { 32768 ≤ length bytes.old }
    ensures { bytes.new ≡ with_numbers bytes.old next live }
{
    write_number(bytes, 16, next);
    write_number(bytes, 20, live);
}
