//! Striped directories: the layout of a directory and its bytes, the hash of a name, the objects that hold a
//! directory's entries, and the types in which a planner asks and decides.
//!
//! The layer above may rest on this: a layout has one spelling, and the first byte that can't stand is named;
//! an entry's object and target are those of the definitions, by the FNV-1a hash of its name; and the
//! stripes of a directory are made and removed by index, each on its own target.
#![tactic(auto)]

mod hash;
mod laws;
mod layout;
mod placing;
mod plan;
mod stripes;

pub use hash::{fnv1a_64, print_hash};
pub use laws::{one_spelling_per_layout, parts_stand_with_their_objects, stripes_are_spelled};
pub use layout::{BadValue, Layout};
pub use placing::{part, place};
pub use plan::{Decision, Need, Step};
pub use stripes::{make_parts, remove_parts};
