//! Tests of a target over its disk: one operation over two targets, played by hand, with stops and a recovery.
//! They stand beside the crates that they test, so that a crate is proved once, and not once more together
//! with its tests.
#![tactic(auto)]

mod fixtures;
#[cfg(test)]
mod nodes;

pub use fixtures::attempt;
