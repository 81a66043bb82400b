//! Tests of the planners. They stand beside the crates that they test, so that a crate is proved once, and not
//! once more together with its tests.
//!
//! A planner of any operation stands here for them. Their proof rests on this: what it asks and what it decides
//! may be given to the objects of the targets.
#![tactic(auto)]

mod any_planner;
#[cfg(test)]
mod requests;

pub use any_planner::AnyPlanner;
