//! The update log with an index of its live records, so that those of a master up to a mark, and its last ones,
//! are found without passing over others.

ghost use Rattle.std.specs.Prelude.{◌≡◌, ◌≤◌, ◌<◌, ◌⊎◌, true, false, None, length, IfOk, IfSome, OnOk, OnErr};
ghost use Rattle.std.specs.BTreeSet.{contains};
ghost use Rattle.llog_store.specs.Log.{log_text, empty_log};
ghost use Rattle.llog_store.specs.Kept.{append_fault, Refuses, Packs};
ghost use Rattle.llog_store.specs.Changes.{given_index, appended, repacked, live_payloads};
ghost use Rattle.llog_store.specs.Changes as changes;
ghost use Rattle.target_state.specs.declared.indexed.LiveRecord.{LiveRecord};
ghost use Rattle.target_state.specs.Marking.{cancelled_log, stable_ids, greatest_batch};
ghost use Rattle.target_state.specs.Indexed.{live_cmp, noted_at, AreListed};

use crate::latest::latest;
use crate::payload::id_in;
use crate::waiting::Waiting;
use llog_store::{AppendFault, Llog, NotLive};
use std::alloc::{AllocError as Memory, AllocFailed, Global};
use std::collections::BTreeSet;
use std::marker::Model;

/// A live record, by the master and the batch that its payload tells, and its index in the log. They are in
/// order by these.
#[derive(Clone, Copy, Debug, PartialEq, Eq, PartialOrd, Ord)]
pub(crate) struct LiveRecord {
    pub(crate) master: u32,
    pub(crate) batch: u64,
    pub(crate) index: u32,
}

/// An update log. Contracts see the log alone; the index beside it has exactly its live records.
#[derive(Drop)]
pub(crate) struct IndexedLog {
    alloc: Global,
    log: Llog,
    live: BTreeSet<LiveRecord>,
}

impl Model for IndexedLog {
    ghost use Rattle.llog_store.specs.Log.{Log};
    ghost use Rattle.target_state.specs.Indexed.{AreListed};

    ghost Value = { Log };

    ghost view = { λ l. l.log };

    ghost invariant = { λ l. AreListed l.live l.log.entries };
}

/// Notes a live record in an index, if its payload tells a master and a batch.
fn note(live: &mut BTreeSet<LiveRecord>, index: u32, payload: &[u8]) -> Result<(), Memory>
    ensures { OnOk result ((q : LiveRecord) → contains live_cmp live.new q ≡ noted_at q (contains live_cmp live.old q) index payload.now) }
{
    let Some((master, batch)) = id_in(payload) else {
        return Ok(());
    };
    match live.insert(LiveRecord {
        master,
        batch,
        index,
    }) {
        Ok(_) => Ok(()),
        Err(AllocFailed { .. }) => Err(Memory),
    }
}

/// The index of a log.
fn indexed(alloc: Global, log: &Llog) -> Result<BTreeSet<LiveRecord>, Memory>
    ensures { IfOk result (λ live. AreListed live log.now.entries) }
{
    let _next = log.next();
    let mut live = BTreeSet::new(alloc);
    let mut from = 0;
    while let Some((index, payload)) = log.walk(from) {
        note(&mut live, index, payload)?;
        from = index + 1;
    }
    Ok(live)
}

/// The first record of a master, if its batch is up to a mark.
fn least(live: &BTreeSet<LiveRecord>, master: u32, mark: u64) -> Option<LiveRecord>
    ensures listed { IfSome result (λ r. contains live_cmp live.now r ≡ true) }
    ensures done { IfSome result (λ r. (r.master ≡ master) × (r.batch ≤ mark)) }
    ensures none { result ≡ None → (q : LiveRecord) → q.master ≡ master → q.batch ≤ mark → contains live_cmp live.now q ≡ false }
{
    let start = LiveRecord {
        master,
        batch: 0,
        index: 0,
    };
    match live.range(start..).next() {
        None => None,
        Some(first) => {
            if first.master == master && first.batch <= mark {
                Some(*first)
            } else {
                None
            }
        }
    }
}

/// Cancels the first record of a master, if its batch is up to a mark, and answers whether it was.
fn cancel_least(log: &mut Llog, live: &mut BTreeSet<LiveRecord>, master: u8, mark: u64) -> bool
    requires { AreListed live.old log.old.entries }
    ensures listed { AreListed live.new log.new.entries }
    ensures left { cancelled_log master mark log.new ≡ cancelled_log master mark log.old }
    ensures fewer { result ≡ true → length live.new.keys < length live.old.keys }
    ensures none { result ≡ false → log.new ≡ cancelled_log master mark log.old }
{
    let _next = log.next();
    match least(live, u32::from(master), mark) {
        None => false,
        Some(record) => {
            live.remove(&record);
            match log.cancel(record.index) {
                Ok(()) => {}
                Err(NotLive) => unreachable!(),
            }
            true
        }
    }
}

/// Cancels the live records of a master up to a mark, each found by the index.
fn cancel_listed(log: &mut Llog, live: &mut BTreeSet<LiveRecord>, master: u8, mark: u64)
    requires { AreListed live.old log.old.entries }
    ensures listed { AreListed live.new log.new.entries }
    ensures log { log.new ≡ cancelled_log master mark log.old }
{
    while cancel_least(log, live, master, mark) {}
}

/// The live records of a log, appended to an empty one, or `None` where no index is left.
fn packed(alloc: Global, log: &Llog) -> Result<Option<IndexedLog>, Memory>
    ensures { IfOk result (λ o. Packs o (changes.packed log.now)) }
{
    let _next = log.next();
    let mut packed = IndexedLog::new(alloc)?;
    let mut from = 0;
    while let Some((index, payload)) = log.walk(from) {
        match packed.append(payload) {
            Ok(_) => {}
            Err(AppendFault::Full(_)) => return Ok(None),
            Err(AppendFault::TooLong(_)) => unreachable!(),
            Err(AppendFault::Memory) => return Err(Memory),
        }
        from = index + 1;
    }
    Ok(Some(packed))
}

impl IndexedLog {
    /// The log without records.
    pub(crate) fn new(alloc: Global) -> Result<IndexedLog, Memory>
        ensures { IfOk result (λ log. log ≡ empty_log) }
    {
        Ok(IndexedLog {
            alloc,
            log: Llog::new(alloc)?,
            live: BTreeSet::new(alloc),
        })
    }

    /// A log, of which the index is made.
    pub(crate) fn of(alloc: Global, log: Llog) -> Result<IndexedLog, Memory>
        ensures { IfOk result (λ l. l ≡ log) }
    {
        let live = indexed(alloc, &log)?;
        Ok(IndexedLog { alloc, log, live })
    }

    /// Lends the log.
    pub(crate) fn log(&self) -> &Llog
        ensures { result.now ≡ self.now }
    {
        &self.log
    }

    /// Adds a live record at the end, and answers its index. Want of memory leaves the log as it is, or empty.
    pub(crate) fn append(&mut self, payload: &[u8]) -> Result<u32, AppendFault>
        ensures ok { OnOk result (self.new ≡ appended self.old payload.now) }
        ensures index { IfOk result (λ index. index ≡ given_index self.old payload.now) }
        ensures refuses { Refuses (append_fault self.old payload.now) result }
        ensures err { OnErr result ((self.new ≡ self.old) ⊎ (self.new ≡ empty_log)) }
    {
        let _next = self.log.next();
        let index = self.log.append(payload)?;
        match note(&mut self.live, index, payload) {
            Ok(()) => Ok(index),
            Err(Memory) => {
                self.log.clear();
                self.live.clear();
                Err(AppendFault::Memory)
            }
        }
    }

    /// Cancels the live records of a master up to a mark. Each costs a look-up in an ordered set, and other
    /// records cost nothing. It takes no memory.
    pub(crate) fn cancel_up_to(&mut self, master: u8, mark: u64)
        ensures log { self.new ≡ cancelled_log master mark self.old }
        ensures long { length (log_text self.new) ≡ length (log_text self.old) }
    {
        cancel_listed(&mut self.log, &mut self.live, master, mark);
    }

    /// The greatest batch of a master's live records that don't wait to be committed. It costs a look-up in an
    /// ordered set, and one more for each batch of the master that waits.
    pub(crate) fn greatest(&self, waiting: &[Waiting], master: u8) -> Option<u64>
        ensures { result ≡ greatest_batch master None (stable_ids waiting.now (live_payloads self.now.entries)) }
    {
        latest(&self.live, waiting, master)
    }

    /// Makes the log empty.
    pub(crate) fn clear(&mut self)
        ensures { self.new ≡ empty_log }
    {
        self.log.clear();
        self.live.clear();
    }

    /// Keeps the live records alone, as [`Llog::pack`] does. Want of memory leaves the log unchanged.
    pub(crate) fn pack(&mut self) -> Result<(), Memory>
        ensures ok { OnOk result (self.new ≡ repacked self.old) }
        ensures err { OnErr result (self.new ≡ self.old) }
    {
        let packed = packed(self.alloc, &self.log)?;
        if let Some(log) = packed {
            *self = log;
        }
        Ok(())
    }
}
