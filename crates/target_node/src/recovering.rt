//! What a recovery does at a target.

ghost use Rattle.std.specs.Prelude.{◌≡◌, ◌≤◌, ◌^◌, ℕ, IsOk, OnOk};
ghost use Rattle.outside.specs.Disk.{Shown, Stays};
ghost use Rattle.target_disk.specs.Store.{following};
ghost use Rattle.target_state.specs.State.{TargetState};
ghost use Rattle.target_node.specs.Node.{StandsAs, IsSettledAs, OpensAsEither, DiskCauses};
ghost use Rattle.update_record.specs.Spelling.{FitsRecord};
ghost use Rattle.target_state.specs.Rules.{after_redo, renewed};

use crate::fault::NodeFault;
use crate::node::Node;
use crate::putting::put_image;
use outside::Disk;
use std::alloc::AllocError as Memory;
use update_record::Record;

impl<D: Disk> Node<D> {
    /// Does a record again that the log lacks: its part, its seat at the home, the log. It is passed over, and
    /// nothing is changed, where the load is above 32,500,000 bytes or the log's next index above 255,000.
    /// After want of memory the node may only be crashed.
    pub fn redo(&mut self, entry: &Record) -> Result<(), Memory>
        requires entry { FitsRecord entry.now }
        requires transno { self.old.state.transno ≤ 2 ^ 63 }
        ensures state { OnOk result (self.new.state ≡ after_redo self.old.state entry.now) }
        ensures disk { self.new.disk ≡ self.old.disk }
    {
        self.state.redo(entry)
    }

    /// Reserves what a recovery ends with. That takes no memory, so there is nothing to reserve.
    pub fn reserve(&mut self) -> Result<(), Memory>
        ensures ok { IsOk result }
        ensures same { self.new ≡ self.old }
    {
        Ok(())
    }

    /// Ends a recovery: the log is emptied and the epoch set, and with it holds, notes, batches and marks begin
    /// anew; then it commits. It takes no memory, so that a disk alone can stop it. Then the node may only be
    /// crashed.
    pub fn renew(&mut self, epoch: u32) -> Result<(), NodeFault>
        ensures stays { Stays (D.shown self.old.disk) (D.shown self.new.disk) }
        ensures later { (D.shown self.old.disk).faults ≤ (D.shown self.new.disk).faults }
        ensures causes { DiskCauses (D.shown self.old.disk).faults (D.shown self.new.disk).faults result }
        ensures state { self.new.state ≡ renewed epoch self.old.state }
        ensures any_moment { (s : TargetState) (g : ℕ) → StandsAs (D.shown self.old.disk) g s → OpensAsEither (D.shown self.new.disk) g s (renewed epoch self.old.state) }
        ensures done { (s : TargetState) (g : ℕ) → StandsAs (D.shown self.old.disk) g s → OnOk result (IsSettledAs (D.shown self.new.disk) (following g) (renewed epoch self.old.state)) }
    {
        self.state.renew(epoch);
        self.state.fits_a_disk();
        let front = self.state.front_bytes();
        if put_image(&mut self.store, front.bytes(), &self.state).is_err() {
            return Err(NodeFault::Disk);
        }
        Ok(())
    }
}
