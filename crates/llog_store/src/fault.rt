ghost use Rattle.std.specs.Prelude.{◌≡◌};
ghost use Rattle.llog_store.specs.declared.fault.LlogFault.TheVariants.{Memory};

use std::alloc::AllocError;

/// Why bytes are no log: the first field from the left that can't stand, with the offset of its first byte
/// from the log's start.
#[derive(Clone, Copy, Debug, PartialEq, Eq)]
pub enum LlogFault {
    /// A length is none that a record can have here: no multiple of 8, below 24, past the chunk, not that
    /// of the payload, or behind a pad where the record had fitted.
    BadLength(usize),
    /// An index isn't the next one, or the next index of the log isn't in 1..256,000.
    BadIndex(usize),
    /// A type is none that can stand here. A pad fills the rest of its chunk, follows no pad, and isn't last.
    BadType(usize),
    /// A length or an index isn't repeated at the end of its record.
    BadTail(usize),
    /// A byte isn't zero; the place is that of this byte.
    BadPadding(usize),
    /// The count of live records isn't that of the set bits, or a byte of the bitmap has a bit of no update
    /// record. It is judged behind the last record.
    BadBitmap(usize),
    /// The bytes end inside the log. The place is their length.
    Truncated(usize),
    /// Memory ran out.
    Memory,
}

impl From<AllocError> for LlogFault {
    ghost from_gives = { λ _ e. e ≡ Memory };

    fn from(_e: AllocError) -> LlogFault {
        LlogFault::Memory
    }
}
