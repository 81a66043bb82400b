//! Update records and the messages of targets as bytes. A record is what a target keeps in its update log
//! of an operation that was accepted, after the update logs of Lustre's distributed namespace (DNE) in
//! outline: the updates of all targets that take part.
//!
//! The layer above may rest on this: each record has one spelling, and `encode` writes it; `decode` answers a
//! record exactly where a front of the bytes is a spelling, and else the first field from the left that can't
//! stand, with its place, or that the bytes end inside.
#![tactic(auto)]

mod codes;
mod decoder;
mod encoding;
mod facts;
mod fault;
mod head;
mod held;
mod kinds;
mod laws;
mod message;
mod operation;
mod position;
mod post;
mod question;
mod value;

pub use codes::{answer_with, code_of_answer, is_answer_code};
pub use fault::RecordFault;
pub use laws::{
    a_message_is_read_back, a_record_is_read_back, answers_are_read_back, facts_are_read_back,
    one_spelling_per_facts, one_spelling_per_message, one_spelling_per_record,
    targets_are_those_of_the_parts, verdicts_are_of_spelled_facts,
    verdicts_are_of_spelled_messages, verdicts_are_of_spelled_records,
};
pub use message::{Attempt, Facts, Message, MessageKind, Messages};
pub use operation::{OpId, Record};
