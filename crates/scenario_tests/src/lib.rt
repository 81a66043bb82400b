//! Tests of the lines of scenarios and transcripts, of the plain tree's player and of the decoders' answers.
//! They stand beside the crates that they test, so that a crate is proved once, and not once more together with
//! its tests.
#![tactic(auto)]

#[cfg(test)]
mod decoding;
mod fixtures;
#[cfg(test)]
mod lines;
#[cfg(test)]
mod model;

pub use fixtures::changed;
