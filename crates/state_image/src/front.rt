use fid_space::Cluster;
use reply_cache::Seats;

/// What stands before the objects in the image of a target.
#[derive(Drop)]
pub struct Front {
    /// The cluster that the target is of.
    pub cluster: Cluster,
    /// Which target it is, from 0.
    pub index: u8,
    /// The epoch, 1 to 1,895,048,192.
    pub epoch: u32,
    /// The number of transactions, at most 2^62.
    pub transno: u64,
    /// The greatest stamp of a record that was executed here, at most 2^62.
    pub clock: u64,
    /// The batch that it gives next as a master, 1 to 2^62.
    pub next_batch: u64,
    /// The greatest of its batches up to which each is stable on all its targets, at most 2^62.
    pub mark: u64,
    /// The last answer of each client.
    pub seats: Seats,
}
