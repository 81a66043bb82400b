//! Plays a scenario whose bytes come in pieces: it cuts the lines, has each of them run, writes what came
//! of it, and refuses a line that passes a limit or that can't be run. What runs the lines is a type
//! parameter.
//!
//! The layer above may rest on this: the lines that were run are those of the bytes that were read, each
//! inside the limits, and what was written is what came of them, one after another, with at most one refusal
//! behind. A scenario of lines that are right is played to its end.
#![tactic(auto)]

mod player;
mod runner;
mod stop;

pub use player::play_lines;
pub use runner::LineRunner;
