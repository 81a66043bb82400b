//! What a record does.

ghost use Rattle.std.specs.Prelude.{◌≡◌, ◌≤◌, ◌<◌, ◌+◌, ◌^◌, ◌++◌, ◌⊎◌, length, map, IfOk, OnOk, OnErr, if◌then◌else◌};
ghost use Rattle.byte_grammar.specs.Numbers.{IsBytes};
ghost use Rattle.out_update.specs.declared.update.Update.{Update};
ghost use Rattle.llog_store.specs.Log.{log_text, empty_log};
ghost use Rattle.llog_store.specs.Changes.{appended};
ghost use Rattle.object_store.specs.ImageText.{image_text};
ghost use Rattle.object_store.specs.Meaning.{after_all};
ghost use Rattle.update_record.specs.Spelling.{FitsRecord, record_text};
ghost use Rattle.target_state.specs.Rules.{is_held_by, own_updates, own_seats, own_batch, done, after_execute, most_redo_load, most_redo_next, after_redo};
ghost use Rattle.target_state.specs.Image.{state_text, most_load};

use crate::answers::ExecuteAnswer;
use crate::holding::is_held_by;
use crate::indexed::IndexedLog;
use crate::state::State;
use crate::waiting::Waiting;
use fid_space::{Bytes, Fid};
use llog_store::{AppendFault, lengths_of_logs};
use object_store::{Objects, an_image_grows_at_most_as_its_updates_are_long};
use out_update::Update;
use state_image::Front;
use std::alloc::{AllocError as Memory, Global};
use std::mem;
use update_record::{Attempt, Record};

/// The greatest load at which a record is redone.
const MOST_REDO_LOAD: u64 = 32_500_000;

/// The greatest index which the log may give next where a record is redone.
const MOST_REDO_NEXT: u32 = 255_000;

/// The objects that updates write.
fn written(alloc: Global, updates: &[Update]) -> Result<Vec<Fid>, Memory>
    ensures { IfOk result (λ fids. fids.items ≡ map (λ (u : Update). u.fid) updates.now) }
{
    let mut fids = Vec::new(alloc);
    for update in updates {
        fids.push(update.fid)?;
    }
    Ok(fids)
}

/// The bytes of a record.
fn spelled(alloc: Global, entry: &Record) -> Result<Bytes, Memory>
    requires { FitsRecord entry.now }
    ensures { IfOk result (λ bytes. bytes ≡ record_text entry.now) }
{
    let mut payload = Bytes::new(alloc);
    entry.encode(&mut payload)?;
    Ok(payload)
}

/// Adds a record to a log, which has an index left for it. Want of memory leaves the log as it is, or empty.
fn append(log: &mut IndexedLog, payload: &[u8]) -> Result<(), Memory>
    requires short { length payload.now ≤ 24576 }
    requires next { log.old.next ≤ most_redo_next }
    ensures ok { OnOk result (log.new ≡ appended log.old payload.now) }
    ensures grows { OnOk result (length (log_text log.new) ≤ length (log_text log.old) + 49240) }
    ensures err { OnErr result ((log.new ≡ log.old) ⊎ (log.new ≡ empty_log)) }
    ensures bytes { IsBytes payload.now }
{
    let _next = log.log().next();
    lengths_of_logs();
    match log.append(payload) {
        Ok(_) => Ok(()),
        Err(AppendFault::Memory) => Err(Memory),
        Err(AppendFault::TooLong(_)) => unreachable!(),
        Err(AppendFault::Full(_)) => unreachable!(),
    }
}

/// Does the part of a record, and gives the objects that it writes.
fn apply(
    alloc: Global,
    objects: &mut Objects,
    index: u8,
    entry: &Record,
) -> Result<Vec<Fid>, Memory>
    requires { FitsRecord entry.now }
    ensures objects { OnOk result (objects.new ≡ after_all objects.old (own_updates index entry.now)) }
    ensures grows { OnOk result (length (image_text objects.new) ≤ length (image_text objects.old) + 24576) }
    ensures written { IfOk result (λ fids. fids.items ≡ map (λ (u : Update). u.fid) (own_updates index entry.now)) }
{
    an_image_grows_at_most_as_its_updates_are_long();
    match entry.part_of(index) {
        None => Ok(Vec::new(alloc)),
        Some(updates) => {
            objects.apply(updates)?;
            written(alloc, updates.items())
        }
    }
}

/// At the home of a record, puts its seat.
fn seat(front: &mut Front, entry: &Record)
    requires { FitsRecord entry.now }
    ensures { front.new ≡ record front.old { seats = own_seats front.old.index front.old.seats entry.now } }
{
    if entry.id.master == front.index {
        front.seats.put(entry.client, entry.number, &entry.reply);
    }
}

/// The batch that a target gives next, which counts that of a record at its home.
fn next_batch(front: &Front, entry: &Record) -> u64
    requires { entry.now.id.batch ≤ 2 ^ 63 }
    ensures { result ≡ own_batch front.now.index front.now.next_batch entry.now }
{
    if entry.id.master != front.index {
        return front.next_batch;
    }
    front.next_batch.max(entry.id.batch + 1)
}

impl State {
    /// Does a record: its part, its seat at the home, the log, the notes of what isn't committed. While the
    /// objects change they aren't here, so that want of memory leaves none.
    fn carry_out(&mut self, entry: &Record) -> Result<(), Memory>
        requires entry { FitsRecord entry.now }
        requires load { length (state_text self.old) ≤ most_redo_load }
        requires next { self.old.log.next ≤ most_redo_next }
        requires transno { self.old.transno ≤ 2 ^ 63 }
        ensures { OnOk result (self.new ≡ done self.old entry.now) }
    {
        let payload = spelled(self.alloc, entry)?;
        let none = Objects::new(self.alloc, self.front.cluster, 1)?;
        append(&mut self.log, payload.bytes())?;
        let mut objects = mem::replace(&mut self.objects, none);
        let written = apply(self.alloc, &mut objects, self.front.index, entry)?;
        self.objects = objects;
        self.pending.note(entry.number, entry.targets(), &written)?;
        self.waiting.push(Waiting {
            number: entry.number,
            master: entry.id.master,
            batch: entry.id.batch,
        })?;
        self.front.transno += 1;
        seat(&mut self.front, entry);
        Ok(())
    }

    /// Executes a record, if the attempt holds the target. After want of memory it may only be dropped.
    pub fn execute(&mut self, by: Attempt, entry: &Record) -> Result<ExecuteAnswer, Memory>
        requires master { by.master < 16 }
        requires entry { FitsRecord entry.now }
        requires load { length (state_text self.old) ≤ most_load }
        requires batch { entry.now.id.batch ≤ 2 ^ 63 }
        requires transno { self.old.transno ≤ 2 ^ 63 }
        ensures answer { IfOk result (λ a. a ≡ (if is_held_by self.old.holder by then ExecuteAnswer.Done else ExecuteAnswer.Ended)) }
        ensures state { OnOk result (self.new ≡ after_execute self.old by entry.now) }
    {
        if !is_held_by(self.holder, by) {
            return Ok(ExecuteAnswer::Ended);
        }
        let _next = self.log.log().next();
        lengths_of_logs();
        self.carry_out(entry)?;
        self.front.clock = entry.stamp;
        self.front.next_batch = next_batch(&self.front, entry);
        self.let_go(by);
        Ok(ExecuteAnswer::Done)
    }

    /// Does a record again, at a recovery. It is passed over, and nothing is changed, where the load is above
    /// 32,500,000 bytes or the log's next index above 255,000. After want of memory it may only be dropped.
    pub fn redo(&mut self, entry: &Record) -> Result<(), Memory>
        requires entry { FitsRecord entry.now }
        requires transno { self.old.transno ≤ 2 ^ 63 }
        ensures { OnOk result (self.new ≡ after_redo self.old entry.now) }
    {
        if self.load() > MOST_REDO_LOAD || self.log.log().next() > MOST_REDO_NEXT {
            return Ok(());
        }
        self.carry_out(entry)
    }
}
