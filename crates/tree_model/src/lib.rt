//! The plain tree: nodes by their FIDs and entries by directory and name, one operation after another,
//! with the definitions that every layer above speaks of: tree, step, history, reply, and the targets
//! that an operation is on.
//!
//! The layer above may rest on this: `apply` makes the step of the definitions and gives its reply,
//! a tree is built up from stored nodes, entries and attributes as they are, and operations, replies
//! and trees have one text each.
#![tactic(auto)]

mod building;
mod change;
mod checks;
mod directory;
mod errno;
mod laws;
mod name;
mod node;
mod op;
mod op_print;
mod op_words;
mod plain_tree;
mod reading;
mod reply;
mod spelling;
mod text;
mod worked;

pub use directory::Entries;
pub use errno::Errno;
pub use laws::{
    a_check_that_fails_leaves_no_change, a_closed_part_agrees, a_legal_history_goes_on,
    a_refused_operation_changes_nothing, changes_take_effect, layouts_are_beside_the_tree,
    one_target_has_all_operations, one_text_per_operation, only_looks_matter,
    only_written_keys_change, the_step_is_decided_by_looks, the_tree_of_one_more,
    written_is_looked_at,
};
pub use name::{Name, NameFault};
pub use node::{Node, Xattrs};
pub use op::{Op, OpFault, OpKind, Request};
pub use plain_tree::PlainTree;
pub use reading::{number, words};
pub use reply::Reply;
pub use worked::{worked_layouts, worked_parts, worked_targets};
