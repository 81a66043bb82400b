//! How a recovery ends.

ghost use Rattle.std.specs.Prelude.{◌≡◌, ◌≤◌, ℕ, length, OnOk, OnErr, IfErr};
ghost use Rattle.target_node.specs.Node.{NodeState};
ghost use Rattle.update_recovery.specs.Steps.{AllCame, HasStopped};
ghost use Rattle.update_recovery.specs.Resuming.{Resumes, BreaksResuming};

use outside::Disk;
use target_node::{Node, NodeFault};

/// Ends the recovery of a target: its log is emptied, it gets the epoch, and it is committed.
fn resume_target<D: Disk>(place: u8, node: &mut Node<D>, epoch: u32) -> Result<(), NodeFault>
    ensures done { OnOk result (Resumes D.shown epoch place node.old node.new) }
    ensures disk { OnErr result (BreaksResuming D.shown epoch place node.old node.new) }
{
    node.renew(epoch)?;
    Ok(())
}

/// Ends the recovery of targets, one after another, and answers the first whose disk fails in that.
pub(crate) fn resume_all<D: Disk>(nodes: &mut [Node<D>], epoch: u32) -> Result<(), u8>
    requires { length nodes.old ≤ 16 }
    ensures done { OnOk result (AllCame (Resumes D.shown epoch) nodes.old nodes.new) }
    ensures stopped { IfErr result (λ place. HasStopped (Resumes D.shown epoch) (BreaksResuming D.shown epoch) place nodes.old nodes.new) }
{
    for place in 0..nodes.len() {
        if resume_target(place as u8, &mut nodes[place], epoch).is_err() {
            return Err(place as u8);
        }
    }
    Ok(())
}
