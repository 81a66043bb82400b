//! The recovery of all targets of a cluster, by three steps that are types: gather, redo, resume.
//!
//! The layer above may rest on this: the records that are redone are the live ones of all logs, of the greatest
//! epoch and above their masters' marks, each once and in one order; a target does exactly those again that
//! name it and that its log lacks, and is committed then; no log is emptied before all targets have done so. A
//! step stops where a target was down at the start, or where a disk failed in it, and names that target.
#![tactic(auto)]

mod bounds;
mod found;
mod gathering;
mod halt;
mod laws;
mod listed;
mod nodes;
mod redoing;
mod report;
mod resuming;
mod standing;
mod states;

pub use bounds::Bounds;
pub use found::Found;
pub use laws::each_live_record_is_walked;
pub use listed::Listed;
pub use report::{Report, Stop};
pub use standing::Standing;
pub use states::{Closed, Gathered, Redone, Serving};
