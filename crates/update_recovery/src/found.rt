//! Records as they stand in logs.

ghost use Rattle.std.specs.Prelude.{◌≡◌, true, Some, IfOk};
ghost use Rattle.update_record.specs.Spelling.{FitsRecord};
ghost use Rattle.update_record.specs.Values.{record_value};
ghost use Rattle.update_recovery.specs.Live.{is_of};

use std::alloc::{AllocError as Memory, Global};
use update_record::{Record, a_record_is_read_back};

/// A record of a log. They are in order by stamp, master and batch, and those that agree in these by their
/// bytes.
#[derive(Debug, PartialEq, Eq, PartialOrd, Ord, Drop)]
pub struct Found {
    pub(crate) stamp: u64,
    pub(crate) master: u8,
    pub(crate) batch: u64,
    pub(crate) text: Vec<u8>,
}

/// The record that a payload is. A payload that is none is answered as want of memory: no log of a target has one.
pub(crate) fn record_in(alloc: Global, payload: &[u8]) -> Result<Record, Memory>
    ensures fits { IfOk result FitsRecord }
    ensures value { IfOk result (λ r. record_value payload.now ≡ Some r) }
{
    a_record_is_read_back();
    match Record::decode(alloc, payload) {
        Ok((entry, _)) => Ok(entry),
        Err(_) => Err(Memory),
    }
}

impl Found {
    /// A record of a log, with the payload that it is read from.
    pub(crate) fn new(alloc: Global, entry: &Record, payload: &[u8]) -> Result<Found, Memory>
        ensures stamp { IfOk result (λ k. k.stamp ≡ entry.now.stamp) }
        ensures master { IfOk result (λ k. k.master ≡ entry.now.id.master) }
        ensures batch { IfOk result (λ k. k.batch ≡ entry.now.id.batch) }
        ensures text { IfOk result (λ k. k.text.items ≡ payload.now) }
    {
        Ok(Found {
            stamp: entry.stamp,
            master: entry.id.master,
            batch: entry.id.batch,
            text: Vec::from_slice(alloc, payload)?,
        })
    }
}
