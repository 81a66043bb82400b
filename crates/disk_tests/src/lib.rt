//! Tests of sources, sinks and disks, of the files of disks, of chains of blocks, and of stores. They stand beside
//! the crates that they test, so that a crate is proved once, and not once more together with its tests.
#![tactic(auto)]

#[cfg(test)]
mod chains;
#[cfg(test)]
mod disks;
#[cfg(test)]
mod files;
mod fixtures;
#[cfg(test)]
mod stores;
#[cfg(test)]
mod streams;

pub use fixtures::image_of;
