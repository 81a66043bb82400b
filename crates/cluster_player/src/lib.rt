//! Plays scenarios on a cluster over sixteen disks: each line is a command, which is obeyed by one call of the
//! cluster's core.
//!
//! The layer above may rest on this: a line is taken exactly where it is the spelling of a command that may come then,
//! what comes of it is what the core says of that command, and after want of memory nothing more is taken. Whatever is
//! played, each disk is the same one, in its place.
#![tactic(auto)]

mod laws;
mod orders;
mod player;
mod requests;

pub use laws::lines_keep_the_disks;
pub use player::Player;
