//! Blocks of 4,096 bytes on a disk, linked by index into chains, and one chain of free blocks.
//!
//! The layer above may rest on this: each block below the count stands in exactly one chain or on the free
//! list, once, after every call; `from_links` answers the first fault of the links in the order of its walk;
//! a chain that was written reads back.
#![tactic(auto)]

mod blocks;
mod chain;
mod laws;
mod marks;

pub use blocks::{Blocks, ChainFault, Full};
pub use chain::{ChainReadFault, ChainWriteFault};
pub use laws::{a_chain_reads_back, the_lists_are_those_found};
