//! What all planners stand on. A planner asks one question after another, of the target that has the answer,
//! up to the check that decides, and then gives the reply and the updates of the change for each target.
//!
//! The layer above may rest on this: how far a plan comes is a function of the operation, its batch and what
//! was told so far; no question that has an answer is asked; and a step is the need or the decision that the
//! function gives.
#![tactic(auto)]

mod checks;
mod entry_list;
mod facts;
mod fitting;
mod gathering;
mod listed;
mod outcome;
mod parsing;
mod places;
mod question;
mod seen;
mod state;
mod updates;

pub use checks::{is_directory, layout_fault};
pub use entry_list::EntryList;
pub use facts::Facts;
pub use outcome::Outcome;
pub use places::{entry_at, node_place, stripes_gone, stripes_made};
pub use question::{Question, Stop};
pub use seen::{CountFact, EntryFact, NamesFact, Seen, ValueFact};
pub use state::PlanState;
pub use updates::{Maker, copied};
