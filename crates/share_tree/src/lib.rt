//! The plain tree that the objects of all targets of a cluster make up: files and directories, the entries
//! that directories and stripes have, and the extended attributes.
//!
//! The layer above may rest on this: `add_objects` adds to a tree what the objects of one target tell, and
//! beginning with nothing the shares of all targets make up the tree of their history.
#![tactic(auto)]

mod adding;
mod laws;
mod nodes;

pub use adding::add_objects;
pub use laws::{one_list_of_attributes, one_list_of_entries, shares_make_the_tree};
