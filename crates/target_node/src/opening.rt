//! Starting again from a disk.

ghost use Rattle.std.specs.Prelude.{IfOk, IfErr};
ghost use Rattle.outside.specs.Disk.{Shown};
ghost use Rattle.target_disk.specs.Open.{StaysSettled};
ghost use Rattle.target_state.specs.Image.{IsInRange};
ghost use Rattle.target_node.specs.Opening.{OpensAsNode, FailsToOpenNode};

use crate::fault::NodeOpenFault;
use crate::node::Node;
use fid_space::Cluster;
use object_store::ImageFault;
use outside::Disk;
use std::alloc::Global;
use target_disk::{OpenStoreFault, Store};
use target_state::State;

impl<D: Disk> Node<D> {
    /// Opens a disk as that of a target of the cluster.
    #[tactic(auto, using(crate::proofs::Holding::keeps_reopens))]
    pub fn open(
        alloc: Global,
        cluster: Cluster,
        index: u8,
        disk: D,
    ) -> Result<Node<D>, NodeOpenFault<D>>
        ensures ok { IfOk result (λ n. OpensAsNode cluster index (D.shown disk) (D.shown n.disk) n.state) }
        ensures in_range { IfOk result (λ n. IsInRange n.state) }
        ensures settled { IfOk result (λ n. StaysSettled (D.shown disk) (D.shown n.disk)) }
        ensures err { IfErr result (λ e. FailsToOpenNode D.shown cluster index (D.shown disk) e) }
    {
        let (store, bytes) = match Store::open(alloc, disk) {
            Ok(opened) => opened,
            Err(OpenStoreFault::Disk(disk)) => return Err(NodeOpenFault::Disk(disk)),
            Err(OpenStoreFault::Damaged(disk, gates)) => {
                return Err(NodeOpenFault::Damaged(disk, gates));
            }
            Err(OpenStoreFault::Memory(disk)) => return Err(NodeOpenFault::Memory(disk)),
        };
        match State::read(alloc, cluster, index, bytes.bytes()) {
            Ok(state) => Ok(Node { state, store }),
            Err(ImageFault::BadImage(place)) => {
                Err(NodeOpenFault::BadImage(store.into_disk(), place as u64))
            }
            Err(ImageFault::Memory) => Err(NodeOpenFault::Memory(store.into_disk())),
        }
    }
}
