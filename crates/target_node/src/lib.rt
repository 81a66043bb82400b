//! One metadata target: what it knows, over its disk.
//!
//! The layer above may rest on this: a node is seen as its state, a plain record, and its disk; each call
//! changes the state by the rule of its name; a commit goes out piece by piece, and wherever it stops, the
//! disk opens as the state that was committed before or as this one. No commit is too long for the disk.
#![tactic(auto)]

mod fault;
mod laws;
mod marking;
mod node;
mod opening;
mod putting;
mod recovering;
mod telling;

pub use fault::{NodeDown, NodeFault, NodeOpenFault};
pub use laws::{a_committed_state_is_held, a_stopped_commit_leaves_either_state};
pub use node::Node;
