//! The home of a request: one attempt at a time, what it asks and is answered, what it decides, and which
//! accepted operations are durable everywhere.
//!
//! The layer above may rest on this: the home is one plain record, and each call's action and the record after
//! it are functions of that record and of what is heard. What isn't awaited changes nothing.
#![tactic(auto)]

mod attempt;
mod coordinator;
mod copies;
mod course;
mod flights;
mod laws;
mod lists;
mod marks;
mod planning;
mod resending;
mod words;

pub use coordinator::Coordinator;
pub use laws::{
    a_mark_is_the_greatest, an_accept_ends_its_attempt, an_accept_is_due,
    an_awaited_answer_is_heard, an_end_releases_all_that_were_asked,
    batches_up_to_the_mark_are_stable, the_stamp_is_above_each_clock, what_was_asked_is_held,
};
pub use words::{Action, Event};
