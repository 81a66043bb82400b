/// Where an update record stands.
#[derive(Clone, Copy, Debug)]
pub struct Place {
    /// Its index in the log.
    pub index: u32,
    /// The offset of its first byte from the log's start.
    pub at: usize,
    /// The length of its payload.
    pub length: usize,
}
