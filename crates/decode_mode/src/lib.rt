//! The bodies of the program's words that decode: a whole input is read, and the value that it holds is
//! written as text, or the first field that can't stand.
//!
//! The layer above may rest on this: what is written is the one answer to the bytes that were read. It shows
//! the value that they spell, or names the refused field with its place; only want of memory and a failing
//! input or output leave it out. A further format is an impl of `Format`.
#![tactic(auto)]

mod answer;
mod format;
mod laws;
mod logs;
mod records;
mod requests;

pub use laws::{one_answer_per_log, one_answer_per_record, one_answer_per_request};
pub use logs::decode_log;
pub use records::decode_record;
pub use requests::decode_request;
