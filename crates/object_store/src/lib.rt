//! The objects of a target: a body, entries and extended attributes under each FID, after Lustre's object
//! storage devices in outline.
//!
//! The layer above may rest on this: the objects are a finite map by FID; `apply` gives the map after the
//! updates of a request, one after another; `read` gives the result of the table of read types, which has a
//! spelling; the three iterating calls give what comes next in order, without taking memory; `encode` writes the
//! one image of the map, `size` is its length, and `decode` reads just the images, else the first field that
//! can't stand is named with its place.
#![tactic(auto)]

mod applying;
mod body;
mod copying;
mod fault;
mod fields;
mod following;
mod heads;
mod image;
mod items;
mod laws;
mod limits;
mod meaning;
mod object;
mod objects;
mod parsing;
mod parts;
mod pieces;
mod reading;
mod rest;
mod spelling;
mod writing;

pub use body::{Body, ObjectKind};
pub use fault::ImageFault;
pub use image::one_image_per_objects;
pub use laws::{an_image_grows_at_most_as_its_updates_are_long, one_spelling_per_body};
pub use objects::Objects;
pub use pieces::ImagePieces;
