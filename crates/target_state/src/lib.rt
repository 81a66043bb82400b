//! What one metadata target knows, without its disk: who it is, its numbers, its objects, its update log, the
//! answers of its clients, what isn't committed yet, and who holds it.
//!
//! The layer above may rest on this: a state is seen as one plain record; each call's answer, and the state
//! after it, are functions of that record; its image, which a commit makes durable, always fits a disk, and is
//! read back where its numbers are in their ranges and its log is of records of the target.
#![tactic(auto)]

mod answers;
mod committing;
mod executing;
mod holding;
mod image;
mod indexed;
mod latest;
mod marking;
mod opening;
mod payload;
mod ranges;
mod state;
mod telling;
mod waiting;

pub use answers::{ExecuteAnswer, HoldAnswer, ReleaseAnswer};
pub use marking::a_batch_told_is_the_greatest;
pub use opening::what_was_committed_is_read_back;
pub use payload::a_record_tells_its_master_and_batch;
pub use ranges::{
    a_cancelling_target_stays_in_range, a_committed_target_stays_in_range,
    a_held_target_stays_in_range, a_marked_target_stays_in_range, a_new_target_is_in_range,
    a_packed_target_stays_in_range, a_recovering_target_stays_in_range,
    a_redoing_target_stays_in_range, a_released_target_stays_in_range,
    a_renewed_target_stays_in_range, an_executing_target_stays_in_range,
};
pub use state::State;
pub use waiting::{Committed, Marks, Waiting};
