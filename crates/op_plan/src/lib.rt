//! The planner of every operation but rename and migrate.
//!
//! The layer above may rest on this: each step is the need or the decision that the definitions of planning
//! give for the operation, its batch and what was told so far.
#![tactic(auto)]

mod bodies;
mod entries;
mod nodes;
mod planner;

pub use planner::Planner;
