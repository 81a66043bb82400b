//! The faults of the calls that change a log.

ghost use Rattle.std.specs.Prelude.{◌≡◌};
ghost use Rattle.llog_store.specs.declared.append.AppendFault.TheVariants.{Memory};

use std::alloc::AllocError;

/// Why a record was not appended. The log is unchanged.
#[derive(Clone, Copy, Debug, PartialEq, Eq)]
pub enum AppendFault {
    /// The payload has so many bytes, more than 24,576.
    TooLong(usize),
    /// The record would get an index above 255,999. The next index of the log is this one.
    Full(u32),
    /// Memory ran out.
    Memory,
}

/// No live record has the index.
#[derive(Clone, Copy, Debug, PartialEq, Eq)]
pub struct NotLive;

impl From<AllocError> for AppendFault {
    ghost from_gives = { λ _ e. e ≡ Memory };

    fn from(_e: AllocError) -> AppendFault {
        AppendFault::Memory
    }
}
