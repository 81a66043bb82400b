//! All messages that the targets of a cluster and their clients ever sent, kept as bytes, what their bodies say,
//! and the messages that answer others.
//!
//! The layer above may rest on this: messages are numbered from 1 in the order in which they were sent, each is
//! read back as it was, and none ever goes; `next` is the least number of one that was neither delivered nor
//! dropped.
#![tactic(auto)]

mod answering;
mod asking;
mod content;
mod laws;
mod mail;

pub use answering::{
    attempt_of, busy_message, cancel_message, executed_message, held_message, released_message,
    stable_message, synced_message,
};
pub use asking::{execute_message, hold_message, release_message, sync_message};
pub use content::{Content, record_of};
pub use laws::a_message_says_one_thing;
pub use mail::Mail;
