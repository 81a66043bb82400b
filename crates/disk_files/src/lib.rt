//! The files that keep the disks of a cluster: a folder has one for each of its sixteen targets.
//!
//! The layer above may rest on this: where `open_disks` answers Ok, there are sixteen disks. That they are those
//! of the files, in the order of their numbers, and keep what was settled is tested alone, since no clause can say
//! what a file holds.
#![tactic(auto)]

mod files;

pub use files::open_disks;
