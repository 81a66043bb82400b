//! A store of one image on a disk: blocks in chains, a home table, a journal table and a gate.
//!
//! The layer above may rest on this: wherever a commit stops, each image that an honest disk may be left
//! with opens as the state before it or as the state after it; after it succeeded, as the state after; and
//! wherever opening stops, as the state that was there. What a disk opens as is one definition on its
//! bytes, `opened`. A store is seen as its disk, and the bytes that were put since a commit was begun.
#![tactic(auto)]

mod book;
mod calls;
mod laws;
mod places;
mod pour;
mod read;
mod store;
mod table;

pub use laws::{a_disk_that_stands_opens_so, a_settled_disk_opens_so, a_settled_disk_stands};
pub use store::{CommitFault, FormatFault, OpenStoreFault, Store};
