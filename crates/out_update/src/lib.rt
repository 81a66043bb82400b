//! Update requests and replies as bytes: what a target is asked to do with its objects, and what it
//! answers, after Lustre's object update protocol (OUT) in outline.
//!
//! The layer above may rest on this: each value has one spelling, and `encode` writes it; a decoder that is
//! fed in any cutting answers `Done` exactly where a spelling ends, and else the first field from the left
//! that can't stand, with its place.
#![tactic(auto)]

mod body;
mod copies;
mod decoder;
mod encoding;
mod fault;
mod kinds;
mod laws;
mod names;
mod parts;
mod pieces;
pub mod reply;
pub mod request;
mod result;
mod shape;
mod text;
mod update;
mod value;

pub use decoder::{Decoder, Progress, ReplyDecoder, ReplyProgress};
pub use fault::UpdateFault;
pub use kinds::kind_of;
pub use laws::{
    a_fid_is_read_back, one_spelling_per_reply, one_spelling_per_request,
    verdicts_are_of_spelled_replies, verdicts_are_of_spelled_requests,
};
pub use parts::Parts;
pub use pieces::read_pieces;
pub use result::{UpdateReply, UpdateResult};
pub use shape::{BodyField, Shape};
pub use update::{Kind, Params, Update, UpdateRequest};
pub use value::{reply_of, request_of};
