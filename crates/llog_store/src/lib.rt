//! Update logs: the records of a target's updates, as the bytes that its image keeps.
//!
//! The layer above may rest on this: a log is seen as its next index and its update records, each with its
//! index, whether it is live, and its payload; its chunks, joined, are always the one spelling of that value.
//! Bytes are read exactly where they spell a log, and else the first field that can't stand is named.
#![tactic(auto)]

mod append;
mod bits;
mod checking;
mod chunk;
mod chunks;
mod fault;
mod llog;
mod place;
mod printing;
mod reading;
mod walking;

pub use append::{AppendFault, NotLive};
pub use fault::LlogFault;
pub use llog::{
    Llog, a_payload_stands_at_its_place, half_cancelled_packs, lengths_of_logs,
    one_spelling_per_log,
};
