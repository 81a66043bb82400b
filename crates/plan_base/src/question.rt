use fid_space::Fid;
use std::alloc::AllocError as Memory;
use striped_dir::Layout;
use tree_model::{Errno, Name};

/// What a planner wants to know.
#[derive(Debug, Drop)]
pub enum Question {
    /// The body of a node.
    Node(Fid),
    /// What a name of a directory with this layout stands for.
    Entry(Fid, Layout, Name),
    /// How many entries a part of a directory with this layout has, by its index.
    Count(Fid, Layout, u8),
    /// The value of an extended attribute of a node.
    Value(Fid, Name),
    /// The first 33 entries of a part of a directory with this layout, by its index.
    Names(Fid, Layout, u8),
}

/// Why the checks of an operation go on no further.
#[derive(Debug, Drop)]
pub enum Stop {
    /// A question has no answer yet.
    Ask(Question),
    /// A check failed.
    Refused(Errno),
    /// Memory ran out.
    Memory,
}

impl From<Memory> for Stop {
    ghost use Rattle.std.specs.Prelude.{◌≡◌};
    ghost use Rattle.plan_base.specs.declared.question.Stop.TheVariants as stop;

    ghost from_gives = { λ _ e. e ≡ stop.Memory };

    fn from(_e: Memory) -> Stop {
        Stop::Memory
    }
}
