//! What one target of a cluster does with one message or command.
//!
//! The layer above may rest on this: a turn is a function of the target, of the message and what it says, and of
//! what the disk did; the target after it, its lines and the messages that it sends are what that function gives.
#![tactic(auto)]

mod attempts;
mod clients;
mod committing;
mod founding;
mod helping;
mod home;
mod laws;
mod naming;
mod receiving;
mod resending;
mod served;
mod serving;
mod showing;
mod target;
mod turning;

pub use laws::{a_target_that_does_not_serve_sends_nothing, each_live_record_is_shown};
pub use naming::message_line;
pub use served::{Ran, Served};
pub use target::Target;
