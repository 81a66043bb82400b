use fid_space::Cluster;
use outside::Disk;
use std::alloc::Global;
use target_node::Node;
use update_coordinator::Coordinator;

/// Whether a turn left the target serving.
#[derive(Clone, Copy, Debug, PartialEq, Eq)]
pub enum Ran {
    /// It serves.
    Stands,
    /// Its disk failed: it may only be stopped.
    Stopped,
}

/// A target that serves: its node, the requests that it is the home of, and the mark that it last sent.
#[derive(Drop)]
pub struct Served<D: Disk> {
    pub alloc: Global,
    pub cluster: Cluster,
    pub index: u8,
    pub node: Node<D>,
    pub coordinator: Coordinator,
    pub sent_mark: u64,
}
