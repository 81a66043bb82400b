//! Commit on sharing: which request wrote an object of a target last and isn't committed there, and which
//! target has to commit before an operation that saw such an object may be accepted.
//!
//! The layer above may rest on this: a writer is the last one that was noted since the last `clear`, and a
//! sync is asked for exactly where an object was seen whose writer isn't on all targets of the operation.
#![tactic(auto)]

mod laws;
mod pending;
mod sharing;

pub use laws::{a_sync_is_for_the_first_writer, a_writer_is_the_last_noted};
pub use pending::Pending;
pub use sharing::{Seen, must_sync};
