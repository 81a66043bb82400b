//! The planner of directory migration: a directory gets another layout, and its entries go to their new parts,
//! as `lfs migrate` of the Lustre Operations Manual has it for striped directories.
//!
//! The layer above may rest on this: each step is the need or the decision that the definitions of planning
//! give for the migrate, its batch and what was told so far. All parts are asked for their entries, and a
//! directory with more than 32 entries stays as it is.
#![tactic(auto)]

mod migrates;
mod moves;
mod planner;

pub use planner::MigratePlanner;
