//! The commands of a scenario and the lines of its transcript, each with its one text, and the
//! definitions of what a transcript may be: the grammar of scenarios, the plain machine of one target, its
//! groups of lines, what a whole run owes its requests, and calm places.
//!
//! The layer above may rest on this: a line is read as a command exactly where it is that command's
//! spelling, no two commands share one, and a line value is printed as its one text. Of the plain
//! machine it may rest on the laws, and on transcripts and places that were computed from the definitions.
#![tactic(auto)]

mod command;
mod cutter;
mod laws;
mod line;
mod lines;
mod list;
mod logged;
mod message;
mod refusal;
mod transcripts;

pub use command::{Command, TextFault};
pub use cutter::{Cut, LineCutter};
pub use laws::{
    a_run_accepts_each_number_once, a_run_has_a_legal_history, commands_come_in_order,
    one_entry_per_line, one_spelling_per_command,
};
pub use line::{
    Line, Standing, print_accept, print_busy, print_damaged_gates, print_damaged_image, print_done,
    print_down, print_end_unclean, print_end_unclean_request, print_full, print_ignored, print_log,
    print_recovering, print_reply, print_shared, print_stable, print_stale, print_state,
    print_tree_busy, print_tree_state, print_up,
};
pub use lines::Lines;
pub use logged::{Logged, print_logged};
pub use message::{Kind, Sender, print_message};
pub use refusal::{is_skipped, print_no_end, print_refusal};
pub use transcripts::{
    calm_places, empty_transcript, first_transcript, open_requests, settles_that_leave_messages,
    waiting_requests,
};
