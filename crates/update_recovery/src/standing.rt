use outside::Disk;
use target_node::Node;

/// What a target of a cluster does, with what it has.
#[derive(Drop)]
pub enum Standing<D: Disk> {
    /// It takes messages.
    Serving(Node<D>),
    /// It was restarted, or left by a recovery that stopped.
    Opened(Node<D>),
    /// It is down, and its disk alone is left.
    Down(D),
}
