//! The state image that a target commits: its front, which says which target it is and of how many, its epoch,
//! its numbers and its seats; then its objects and its update log.
//!
//! The layer above may rest on this: a state has one spelling, the front that `encode` writes, the objects, and
//! the log behind its length; `read` gives what bytes hold, else the first field that isn't as stated is named
//! with its place, payloads of live records included; what was written is read again.
#![tactic(auto)]

mod fields;
mod front;
mod front_bytes;
mod image;
mod laws;
mod moving;
mod payloads;
mod reading;
mod spelling;
mod whole;

pub use front::Front;
pub use front_bytes::FrontBytes;
pub use image::Image;
pub use laws::{
    a_log_stays_own_when_appended, a_log_stays_own_when_cancelled, a_log_stays_own_when_packed,
    a_state_is_as_long_as_its_parts, a_state_is_read_back, a_state_was_written_so,
    one_spelling_per_front,
};
