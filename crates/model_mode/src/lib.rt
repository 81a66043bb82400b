//! Runs a scenario on the plain tree alone: each request is answered with the tree's reply, and nothing
//! is kept on a disk.
//!
//! The layer above may rest on this: what is written is the transcript of one plain tree over exactly the
//! lines that were read, a line is refused exactly where it passes a limit or spells nothing that may
//! come, and a scenario in the grammar comes to its end.
#![tactic(auto)]

mod session;
mod top;

pub use top::play_model;
