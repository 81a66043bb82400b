//! Tests of numbers in bytes, FIDs, update requests, update records, messages and update logs. They stand
//! beside the crates that they test, so that a crate is proved once, and not once more together with its
//! tests.
#![tactic(auto)]

#[cfg(test)]
mod digits;
#[cfg(test)]
mod fids;
mod fixtures;
#[cfg(test)]
mod logs;
#[cfg(test)]
mod numbers;
#[cfg(test)]
mod records;
#[cfg(test)]
mod updates;

pub use fixtures::changed;
