/// Why a commit stopped.
#[derive(Clone, Copy, Debug, PartialEq, Eq)]
pub enum NodeFault {
    /// A call of the disk failed. It opens as the state that was committed before, or as this one, and the
    /// node may only be crashed.
    Disk,
    /// There was no memory. Nothing has changed.
    Memory,
}

/// Why no node was made. Each gives the disk back.
#[derive(Drop)]
pub enum NodeDown<D> {
    /// A call of the disk failed. What the disk holds is unknown.
    Disk(D),
    /// There was no memory. Nothing was written.
    Memory(D),
}

/// Why no node was opened. Each gives the disk back.
#[derive(Drop)]
pub enum NodeOpenFault<D> {
    /// A call of the disk failed. The disk opens as before.
    Disk(D),
    /// The table that the gate names isn't readable: with 1 the journal table under an open gate, with 0 the
    /// home table. Nothing was written.
    Damaged(D, u8),
    /// The image isn't one of this target of the cluster: the place of its first field that isn't as stated.
    BadImage(D, u64),
    /// There was no memory. The disk opens as before.
    Memory(D),
}
