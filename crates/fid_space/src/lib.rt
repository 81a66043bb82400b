//! Names of objects and where they live: FIDs with their one text, the ranges of sequences that the
//! targets of a cluster own, and the small lists and sets that the crates above share.
//!
//! The layer above may rest on this: a text is read as a FID exactly where it is that FID's text,
//! each fault is placed at the first byte that can't stand, and a FID has at most one home.
#![tactic(auto)]

mod bytes;
mod class;
mod cluster;
mod fid;
mod laws;
mod lists;
mod places;
mod reading;
mod targets;
mod text;

pub use bytes::Bytes;
pub use class::{Class, class_of, print_home};
pub use cluster::Cluster;
pub use fid::{Fid, FidFault, one_text_per_fid};
pub use laws::stripe_fids_are_their_own;
pub use lists::{Fids, Numbers};
pub use places::{NoHome, client_fid, client_fids_have_their_place, is_client, locate, stripe_fid};
pub use targets::{Targets, members_by_parts, targets_are_their_members};
pub use text::{hex_digit, print_hex, print_hex_digits, print_number};
