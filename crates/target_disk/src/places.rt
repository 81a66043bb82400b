//! Where the gate, the tables and the blocks lie.

/// The place of the gate.
pub const GATE: u64 = 0;

/// The place of the home table.
pub const HOME: u64 = 4096;

/// The place of the journal table.
pub const JOURNAL: u64 = 69_632;

/// The place of the first block.
pub const DATA: u64 = 135_168;

/// How many blocks there are.
pub const BLOCKS: u32 = 16_000;

/// The bytes of a block.
pub const BLOCK: usize = 4096;

/// The bytes of a table.
pub const TABLE: usize = 64_032;

/// The most bytes of an image.
pub const IMAGE_MOST: u64 = 32_768_000;
