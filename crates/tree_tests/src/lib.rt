//! Tests of operations, replies, names and trees, with their texts, and of a tree that is built up from what
//! is stored. They stand beside the crate that they test, so that it is proved once, and not once more
//! together with its tests.
#![tactic(auto)]

mod fixtures;
#[cfg(test)]
mod operations;
#[cfg(test)]
mod trees;
#[cfg(test)]
mod words;

pub use fixtures::node;
