//! The targets of a cluster and all messages that they and their clients ever sent.
//!
//! The layer above may rest on this: a delivery is the turn of one target, that of its addressee or, where a question
//! comes back from a target that doesn't serve, that of the home which asked; each other command changes what it says
//! and nothing else. At every return each disk is the same one, in its place.
#![tactic(auto)]

mod cluster;
mod delivering;
mod ending;
mod looks;
mod members;
mod seating;
mod sending;

pub use cluster::{Core, TreeAnswer};
