//! What a recovery tells.

use crate::listed::Listed;
use crate::standing::Standing;
use outside::Disk;

/// What a recovery made stable, and what it did again.
#[derive(Debug, Drop)]
pub struct Report {
    /// The targets that served, each with the numbers that its commit made stable, as they were executed.
    pub stable: Listed,
    /// The targets that lacked records, each with the numbers of these, in their order.
    pub redone: Listed,
}

/// Why a recovery stopped. The targets are handed back.
#[derive(Drop)]
pub enum Stop<D: Disk> {
    /// A target is down.
    Stopped {
        /// All targets, in their order.
        targets: Vec<Standing<D>>,
        /// The lowest target that was down at the start, or the one whose disk failed.
        missing: u8,
        /// What was done before.
        report: Report,
    },
    /// There was no memory. Nodes may only be crashed.
    Memory {
        /// All targets, in their order.
        targets: Vec<Standing<D>>,
    },
}
