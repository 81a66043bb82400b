/// Why a step that is made at one target after another stopped.
#[derive(Clone, Copy, Debug, PartialEq, Eq)]
pub(crate) enum Halt {
    /// The disk of the target at this place failed.
    Disk(u8),
    /// There was no memory.
    Memory,
}
