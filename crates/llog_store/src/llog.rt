ghost use Rattle.std.specs.Prelude.{◌≡◌, ◌≤◌, ◌<◌, ◌-◌, ◌+◌, ◌*◌, ◌++◌, map, All, ◌∷◌, ◌==◌, ◌/◌, ◌%◌, ◌^◌, get_or, ◌⊎◌, ◌↔◌, ℕ, Some, None, Ok, List, true, false, [], IsTrue, length, take, drop, OnOk, OnErr, IfOk, if◌then◌else◌};
ghost use Rattle.std.specs.declared.alloc.Global.{Global};
ghost use Rattle.std.specs.Option.{option_map};
ghost use Rattle.llog_store.specs.Numbers.{IsBytes};
ghost use Rattle.llog_store.specs.Chunked.{chunk_count, chunk_of, joined_to};
ghost use Rattle.llog_store.specs.Reading.{Gives, log_at};
ghost use Rattle.fid_space.specs.Fronts.{IsFront};
ghost use Rattle.llog_store.specs.DecodedText.{decoded_text};
ghost use Rattle.llog_store.specs.Log.{Log, IsLog, spells, empty_log, is_live, live_count, log_text, record_size};
ghost use Rattle.llog_store.specs.Kept.{seen, IsWithin, lost_before, behind_pad, append_fault, Refuses, Packs};
ghost use Rattle.llog_store.specs.Changes.{given_index, appended, all_appended, cancelled, live_payloads, packed, repacked, first_live, live_payload, live_place};

use crate::append::{AppendFault, NotLive};
use crate::checking::parts;
use crate::chunks::Chunks;
use crate::fault::LlogFault;
use crate::place::Place;
use crate::printing::{print_entries, print_head};
use crate::reading::{END_OF_INDEXES, MAX_PAYLOAD, fits, record_size, room};
use crate::walking::{count_before, first_marked, has_live, payload_of};
use fid_space::Bytes;
use std::alloc::{AllocError as Memory, Global};
use std::marker::Model;

/// An update log, as the DNE phase II design keeps it on each target. Contracts see its next index and its
/// update records, each with its index, whether it is live, and its payload. Its bytes are kept in chunks of
/// 32,768, and no call but `pack` moves or copies bytes that stand in them.
#[derive(Drop)]
pub struct Llog {
    bytes: Chunks,
    places: Vec<Place>,
    next: u32,
    live: u32,
}

impl Model for Llog {
    ghost use Rattle.llog_store.specs.Log.{Log};

    ghost Value = { Log };

    ghost use Rattle.llog_store.specs.Reading.{log_of};
    ghost use Rattle.llog_store.specs.Kept.{IsKept};

    ghost view = { λ l. log_of l.bytes };

    ghost invariant = { λ l. IsKept (log_of l.bytes) l.bytes l.places.items l.next l.live };
}

impl Llog {
    /// The log without records.
    pub fn new(alloc: Global) -> Result<Llog, Memory>
        ensures { IfOk result (λ log. log ≡ empty_log) }
    {
        Ok(Llog {
            bytes: Chunks::new(alloc)?,
            places: Vec::new(alloc),
            next: 1,
            live: 0,
        })
    }

    /// Reads a log, judged from left to right: its header, its records, and last its bitmap.
    pub fn read(alloc: Global, bytes: &[u8]) -> Result<Llog, LlogFault>
        // What is read is spelled so.
        ensures found { IfOk result (λ log. spells log bytes.now) }
        // What is spelled so is read, unless memory runs out.
        ensures only { (log : Log) → spells log bytes.now → Gives (λ (l : Log). l) result (Ok log) }
        // The first field that can't stand where it does, with its place, or the end inside a log.
        ensures exact { Gives (λ (l : Log). l) result (log_at bytes.now) }
    {
        whole(alloc, bytes)
    }

    /// Adds the text that `decode log` shows, but for its line of the rest. Want of memory leaves a front
    /// of it.
    pub fn print(&self, out: &mut Bytes) -> Result<(), Memory>
        ensures ok { OnOk result (out.new ≡ out.old ++ decoded_text self.now) }
        ensures err { OnErr result (IsFront out.old out.new (decoded_text self.now)) }
    {
        print_head(self.next, self.live, out)?;
        print_entries(&self.bytes, self.places.as_slice(), out)?;
        Ok(())
    }

    /// How many chunks the log has. Joined in their order they are its one spelling.
    pub fn chunks(&self) -> u32
        ensures value { result ≡ chunk_count (log_text self.now) }
        ensures joined { joined_to (log_text self.now) result ≡ log_text self.now }
    {
        self.bytes.count() as u32
    }

    /// The bytes of a chunk: 32,768, and in the last one as many as are left. There is none from the count
    /// of chunks on.
    pub fn chunk(&self, i: u32) -> Option<&[u8]>
        ensures { option_map (λ chunk. chunk.now) result ≡ chunk_of (log_text self.now) i }
    {
        self.bytes.chunk(i as usize)
    }

    /// The index that the next record takes.
    pub fn next(&self) -> u32
        ensures value { result ≡ self.now.next }
        ensures is_log { IsLog self.now }
    {
        self.next
    }

    /// How many records are live.
    pub fn live(&self) -> u32
        ensures { result ≡ live_count self.now.entries }
    {
        self.live
    }

    /// How many update records there are, live or cancelled.
    pub fn records(&self) -> u32
        ensures { result ≡ length self.now.entries }
    {
        self.places.as_slice().len() as u32
    }

    /// Adds a live record at the end, and answers its index. A pad stands before it exactly where the record
    /// does not fit into the rest of the chunk. An error leaves the log unchanged.
    pub fn append(&mut self, payload: &[u8]) -> Result<u32, AppendFault>
        ensures ok { OnOk result (self.new ≡ appended self.old payload.now) }
        ensures index { IfOk result (λ index. index ≡ given_index self.old payload.now) }
        ensures refuses { Refuses (append_fault self.old payload.now) result }
        ensures err { OnErr result (self.new ≡ self.old) }
    {
        let n = payload.len();
        if MAX_PAYLOAD < n {
            return Err(AppendFault::TooLong(n));
        }
        let lost = pad_before(self.bytes.len(), record_size(n));
        let index = index_behind(self.next, lost);
        if END_OF_INDEXES <= index {
            return Err(AppendFault::Full(self.next));
        }
        grow(&mut self.bytes, &mut self.places, lost, index, payload)?;
        self.next = index + 1;
        self.live += 1;
        self.bytes.set_live(self.next, self.live, index);
        Ok(index)
    }

    /// Makes a live record cancelled. It takes no memory.
    pub fn cancel(&mut self, index: u32) -> Result<(), NotLive>
        ensures ok { OnOk result (self.new ≡ cancelled self.old index) }
        ensures live { OnOk result (is_live self.old.entries index ≡ true) }
        ensures not_live { OnErr result (is_live self.old.entries index ≡ false) }
        ensures err { OnErr result (self.new ≡ self.old) }
    {
        if !has_live(&self.bytes, index) {
            return Err(NotLive);
        }
        self.live -= 1;
        self.bytes.set_cancelled(self.next, self.live, index);
        Ok(())
    }

    /// Makes the log empty, in the memory that it has.
    pub fn clear(&mut self)
        ensures { self.new ≡ empty_log }
    {
        self.bytes.set_empty();
        self.places.clear();
        self.next = 1;
        self.live = 0;
    }

    /// Keeps the live records alone, in their order, with indexes from 1. Where these would need an index
    /// above 255,999, the log stays as it is: fewer records can need more pads. It never does where at
    /// least half of the records are cancelled. Want of memory leaves the log unchanged.
    pub fn pack(&mut self) -> Result<(), Memory>
        ensures ok { OnOk result (self.new ≡ repacked self.old) }
        ensures err { OnErr result (self.new ≡ self.old) }
    {
        let packed = pack_records(self.bytes.alloc(), &self.bytes, self.places.as_slice())?;
        if let Some(log) = packed {
            *self = log;
        }
        Ok(())
    }

    /// The first live record at or after an index: its index and its payload.
    pub fn walk(&self, from: u32) -> Option<(u32, &[u8])>
        ensures { option_map (λ x. (x.0, x.1.now)) result ≡ first_live from self.now.entries }
    {
        let places = self.places.as_slice();
        let first = count_before(places, from);
        let place = first_marked(&self.bytes, &places[first..])?;
        Some((place.index, payload_of(&self.bytes, place)))
    }

    /// The payload of the live record with an index. It is found as `walk` finds it, past no other record.
    pub fn payload(&self, index: u32) -> Option<&[u8]>
        ensures { option_map (λ payload. payload.now) result ≡ live_payload index self.now.entries }
    {
        if !has_live(&self.bytes, index) {
            return None;
        }
        let (_, payload) = self.walk(index)?;
        Some(payload)
    }

    /// Where the payload of the live record with an index begins, in the chunks joined: an offset in bytes.
    pub fn place(&self, index: u32) -> Option<u64>
        ensures { result ≡ live_place 32768 index self.now.entries }
    {
        if !has_live(&self.bytes, index) {
            return None;
        }
        let places = self.places.as_slice();
        let place = places[count_before(places, index)];
        Some(place.at as u64 + 24)
    }
}

/// The log that the bytes spell.
fn whole(alloc: Global, bytes: &[u8]) -> Result<Llog, LlogFault>
    ensures { Gives (λ (l : Log). l) result (log_at bytes.now) }
{
    let (next, live, places) = parts(alloc, bytes)?;
    let bytes = Chunks::copy_of(alloc, bytes)?;
    Ok(Llog {
        bytes,
        places,
        next,
        live,
    })
}

/// A log has one spelling, a spelling is that of one log and no beginning of another, and what reads as a log
/// spells it. The call does nothing: its contract is a law.
pub fn one_spelling_per_log()
    ensures one_spelling { (log : Log) (a b : List ℕ) → spells log a → spells log b → a ≡ b }
    ensures one_log { (a b : Log) (bytes : List ℕ) → spells a bytes → spells b bytes → a ≡ b }
    ensures no_prefix { (a b : Log) (text rest : List ℕ) → spells a text → spells b (text ++ rest) → rest ≡ [] }
    ensures reads { (log : Log) (bytes : List ℕ) → spells log bytes → log_at bytes ≡ Ok log }
    ensures spelled { (log : Log) (bytes : List ℕ) → IsBytes bytes → log_at bytes ≡ Ok log → spells log bytes }
{}

/// The live records of these, appended to an empty log, or `None` where no index is left.
fn pack_records(alloc: Global, bytes: &Chunks, places: &[Place]) -> Result<Option<Llog>, Memory>
    requires long { 32768 ≤ length bytes.now }
    requires within { All (IsWithin (length bytes.now)) places.now }
    ensures { IfOk result (λ o. Packs o (all_appended empty_log (live_payloads (map (seen bytes.now) places.now)))) }
{
    let mut log = Llog::new(alloc)?;
    for place in places {
        if has_live(bytes, place.index) {
            match log.append(payload_of(bytes, *place)) {
                Ok(_) => {}
                Err(AppendFault::Full(_)) => return Ok(None),
                Err(AppendFault::TooLong(_)) => unreachable!(),
                Err(AppendFault::Memory) => return Err(Memory),
            }
        }
    }
    Ok(Some(log))
}

/// A log of which at least half of the records are cancelled can be packed. The call does nothing: its
/// contract is a law.
pub fn half_cancelled_packs()
    ensures { (log : Log) → IsLog log → 2 * live_count log.entries ≤ length log.entries → (packed log).next ≤ 256000 }
{}

/// A payload stands in the log's spelling where `place` says, and has a place exactly where it is lent. The
/// call does nothing: its contract is a law.
pub fn a_payload_stands_at_its_place()
    ensures stands { (log : Log) (index at : ℕ) (payload : List ℕ) → IsLog log → live_place 32768 index log.entries ≡ Some at → live_payload index log.entries ≡ Some payload → take (length payload) (drop at (log_text log)) ≡ payload }
    ensures both { (log : Log) (index : ℕ) → (live_place 32768 index log.entries ≡ None) ↔ (live_payload index log.entries ≡ None) }
{}

/// How long logs are: what an index costs at least, what that leaves, what a record adds at most, and that
/// packing adds nothing. The call does nothing: its contract is a law.
pub fn lengths_of_logs()
    ensures next_small { (log : Log) → IsLog log → 24 * log.next ≤ 24 + length (log_text log) }
    // So no append to such a log is Full.
    ensures index_left { (log : Log) (payload : List ℕ) → IsLog log → length (log_text log) ≤ 5111808 → given_index log payload < 256000 }
    ensures grows { (log : Log) (payload : List ℕ) → IsLog log → length payload ≤ 24576 → length (log_text (appended log payload)) ≤ length (log_text log) + 2 * record_size (length payload) + 24 }
    ensures packs { (log : Log) → IsLog log → length (log_text (repacked log)) ≤ length (log_text log) }
{}

/// How many bytes a pad fills before a record of that size, 0 where it needs none.
fn pad_before(place: usize, size: usize) -> usize
    ensures { result ≡ lost_before place size }
{
    if fits(room(place), size) {
        0
    } else {
        room(place)
    }
}

/// The index of a record, which is the one behind the pad's where there is a pad.
fn index_behind(next: u32, lost: usize) -> u32
    requires { next ≤ 256000 }
    ensures { result ≡ (if lost == 0 then next else next + 1) }
{
    if lost == 0 { next } else { next + 1 }
}

/// Adds a record and where it stands, or nothing where memory runs out.
fn grow(
    bytes: &mut Chunks,
    places: &mut Vec<Place>,
    lost: usize,
    index: u32,
    payload: &[u8],
) -> Result<(), Memory>
    requires payload { length payload.now ≤ 24576 }
    requires lost { (lost ≡ 0) ⊎ ((24 ≤ lost) × (length bytes.old % 32768 + lost ≡ 32768)) }
    requires less { lost < 32768 }
    requires room { (length bytes.old + lost) % 32768 + record_size (length payload.now) ≤ 32768 }
    requires index { 1 ≤ index }
    requires long { length bytes.old ≤ 2 ^ 60 }
    ensures bytes { OnOk result (bytes.new ≡ bytes.old ++ behind_pad lost index payload.now) }
    ensures places { OnOk result (places.new.items ≡ places.old.items ++ record { index = index; at = length bytes.old + lost; length = length payload.now } ∷ []) }
    ensures bytes_kept { OnErr result (bytes.new ≡ bytes.old) }
    ensures places_kept { OnErr result (places.new.items ≡ places.old.items) }
{
    let place = Place {
        index,
        at: bytes.len() + lost,
        length: payload.len(),
    };
    places.reserve(1)?;
    bytes.add_entry(lost, index, payload)?;
    places.push_reserved(place);
    Ok(())
}
