//! Tests of what a target keeps: its seats, the writers of what isn't committed, its image. They stand beside
//! the crates that they test, so that a crate is proved once, and not once more together with its tests.
#![tactic(auto)]

mod fixtures;
#[cfg(test)]
mod images;
#[cfg(test)]
mod seats;
#[cfg(test)]
mod writers;

pub use fixtures::sample;
