//! What byte formats share: a format is a grammar of fields, which are judged one after another from the
//! left, each as soon as its bytes are there; numbers, zeros and padding in bytes; and one reader of pieces
//! for all formats whose values come in any cutting.
//!
//! The layer above may rest on this: `Feeder::feed` answers the verdict on all bytes so far, whatever the
//! cutting, and what a verdict says stays so when more bytes come.
#![tactic(auto)]

mod feeder;
mod laws;
mod numbers;
mod position;
mod values;
mod verdict;

pub use feeder::{Fed, FeedFault, Feeder};
pub use laws::{a_refusal_has_a_reason_of_its_grammar, verdicts_stay};
pub use numbers::{
    number8, number16, number32, number64, padding_of, put_zeros, put16, put32, put64, set_byte,
};
pub use position::{Position, Reached, scan, unless};
pub use values::{BuildFault, part, u16_at, u32_at, u64_at};
pub use verdict::{Reason, Refusal, Verdict};
