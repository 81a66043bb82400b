//! What each client was answered last by a target: one seat for each of 64 clients, without memory of
//! its own.
//!
//! The layer above may rest on this: a seat has the greatest number that was put for its client, with
//! its reply; a number is a repeat exactly where the seat has it, and stale exactly where the seat has
//! a greater one.
#![tactic(auto)]

mod laws;
mod seats;

pub use laws::a_seat_has_the_greatest_number;
pub use seats::{Judgement, Seat, Seats};
