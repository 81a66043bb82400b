//! Tests of objects and of striped directories. They stand beside the crates that they test, so that a crate
//! is proved once, and not once more together with its tests.
#![tactic(auto)]

mod fixtures;
#[cfg(test)]
mod objects;
#[cfg(test)]
mod striped;

pub use fixtures::fid;
