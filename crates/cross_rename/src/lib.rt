//! The planner of renames: the two names may stand on any targets, and the walk from the new parent up to the
//! root asks each directory where it stands, after POSIX rename and the rename lock of Lustre's DNE.
//!
//! The layer above may rest on this: each step is the need or the decision that the definitions of planning
//! give for the rename, its batch and what was told so far. A member of the walk is compared with the root and
//! the moved directory before it is asked for.
#![tactic(auto)]

mod planner;
mod renames;
mod walks;

pub use planner::RenamePlanner;
