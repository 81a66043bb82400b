ghost use Rattle.std.specs.Prelude.{◌≡◌, ◌≤◌, ◌<◌, ◌^◌, ℕ, All, length, [], IsTrue, false, Some, None, Ok, IfOk, IfErr, OnOk, OnErr, if◌then◌else◌};
ghost use Rattle.outside.specs.Disk.{Shown, Stays};
ghost use Rattle.target_disk.specs.Open.{Formats};
ghost use Rattle.target_disk.specs.Store.{following};
ghost use Rattle.out_update.specs.Spelling.{FitsUpdate};
ghost use Rattle.update_record.specs.Spelling.{FitsRecord};
ghost use Rattle.target_state.specs.State.{TargetState, first_state};
ghost use Rattle.state_image.specs.StateText.{FitsState};
ghost use Rattle.target_state.specs.Image.{state_text, image_of, most_load, IsInRange};
ghost use Rattle.target_state.specs.Commit.{is_empty, packed, committed, listed};
ghost use Rattle.target_state.specs.Rules.{is_held_by, taken, after_hold, answer_as, after_execute, after_release, release_answer};
ghost use Rattle.target_state.specs.Holding.{FitsHold};
ghost use Rattle.target_node.specs.Node.{StandsAs, IsSettledAs, OpensAsEither, CommitCauses, LeavesAll, UnlessMemory, FailsToFormat};

use crate::fault::{NodeDown, NodeFault};
use crate::putting::put_image;
use fid_space::{Bytes, Cluster};
use out_update::UpdateRequest;
use outside::Disk;
use std::alloc::{AllocError as Memory, Global};
use std::marker::Model;
use target_disk::{FormatFault, Store};
use target_state::{Committed, ExecuteAnswer, HoldAnswer, ReleaseAnswer, State};
use update_record::{Attempt, Record};

/// One metadata target. Contracts see its state, and its disk.
#[derive(Drop)]
pub struct Node<D: Disk> {
    pub(crate) state: State,
    pub(crate) store: Store<D>,
}

impl<D: Disk> Model for Node<D> {
    ghost use Rattle.std.specs.Coded.{codes};
    ghost use Rattle.object_store.specs.Objects.{coded_objects};
    ghost use Rattle.commit_sharing.specs.Pending.{coded_writers};
    ghost use Rattle.target_node.specs.Node.{NodeState};

    ghost Value = { NodeState D };

    ghost coded = { Prim.hlevel (codes, coded_objects, coded_writers) };

    ghost view = { λ n. record { state = n.state; disk = n.store.disk } };
}

impl<D: Disk> Node<D> {
    /// Formats a disk as that of a target of the cluster.
    pub fn format(
        alloc: Global,
        cluster: Cluster,
        index: u8,
        disk: D,
    ) -> Result<Node<D>, NodeDown<D>>
        ensures state { IfOk result (λ n. n.state ≡ first_state cluster index) }
        ensures ok { IfOk result (λ n. Formats (D.shown disk) (D.shown n.disk) (state_text n.state)) }
        ensures err { IfErr result (λ e. FailsToFormat D.shown disk e) }
    {
        let state = match State::new(alloc, cluster, index) {
            Ok(state) => state,
            Err(_) => return Err(NodeDown::Memory(disk)),
        };
        let image = match state.image() {
            Ok(image) => image,
            Err(_) => return Err(NodeDown::Memory(disk)),
        };
        match Store::format(alloc, disk, image.bytes()) {
            Ok(store) => Ok(Node { state, store }),
            Err(FormatFault::Disk(disk)) => Err(NodeDown::Disk(disk)),
            Err(FormatFault::Full(_, _)) => unreachable!(),
            Err(FormatFault::Memory(disk)) => Err(NodeDown::Memory(disk)),
        }
    }

    /// Drops all but the disk.
    pub fn crash(self) -> D
        ensures { result ≡ self.disk }
    {
        self.store.into_disk()
    }

    /// Holds the target for an attempt, and tells what it asks for. Want of memory changes nothing.
    pub fn hold(&mut self, by: Attempt, ask: &UpdateRequest) -> Result<HoldAnswer, Memory>
        requires master { by.master < 16 }
        requires ask { All FitsUpdate ask.now }
        ensures answer { IfOk result (λ a. a ≡ answer_as self.old.state (length (state_text self.old.state)) ask.now (taken self.old.state by)) }
        // What is told has a spelling.
        ensures spelled { IfOk result FitsHold }
        ensures state { OnOk result (self.new.state ≡ after_hold self.old.state by) }
        ensures err { OnErr result (self.new.state ≡ self.old.state) }
        ensures disk { self.new.disk ≡ self.old.disk }
    {
        self.state.hold(by, ask)
    }

    /// Executes a record, if the attempt holds the target. After want of memory it may only be crashed.
    pub fn execute(&mut self, by: Attempt, entry: &Record) -> Result<ExecuteAnswer, Memory>
        requires master { by.master < 16 }
        requires entry { FitsRecord entry.now }
        requires load { length (state_text self.old.state) ≤ most_load }
        requires batch { entry.now.id.batch ≤ 2 ^ 63 }
        requires transno { self.old.state.transno ≤ 2 ^ 63 }
        ensures answer { IfOk result (λ a. a ≡ (if is_held_by self.old.state.holder by then ExecuteAnswer.Done else ExecuteAnswer.Ended)) }
        ensures state { OnOk result (self.new.state ≡ after_execute self.old.state by entry.now) }
        ensures disk { self.new.disk ≡ self.old.disk }
    {
        self.state.execute(by, entry)
    }

    /// Lets the target go, or notes that the attempt has ended. It takes no memory.
    pub fn release(&mut self, by: Attempt) -> ReleaseAnswer
        requires { by.master < 16 }
        ensures answer { result ≡ release_answer self.old.state by }
        ensures state { self.new.state ≡ after_release self.old.state by }
        ensures disk { self.new.disk ≡ self.old.disk }
    {
        self.state.release(by)
    }

    /// The length of the image that it would commit now, without packing the log first.
    pub fn load(&self) -> u64
        ensures { result ≡ length (state_text self.now.state) }
    {
        self.state.load()
    }

    /// Commits the state: the objects, the seats, the log with its live bits, and the numbers, in one image.
    pub fn commit(&mut self) -> Result<Committed, NodeFault>
        ensures stays { Stays (D.shown self.old.disk) (D.shown self.new.disk) }
        ensures later { (D.shown self.old.disk).faults ≤ (D.shown self.new.disk).faults }
        ensures causes { CommitCauses (D.shown self.old.disk).faults (D.shown self.new.disk).faults result }
        ensures memory { LeavesAll self.old self.new result }
        ensures state { OnOk result (self.new.state ≡ committed self.old.state) }
        ensures listed { IfOk result (λ c. c ≡ listed self.old.state.index self.old.state.waiting) }
        // What is put has an image that is read back, where the state is in range.
        ensures fits { UnlessMemory (IsInRange self.old.state → FitsState (image_of (packed self.old.state))) result }
        ensures any_moment { (s : TargetState) (g : ℕ) → StandsAs (D.shown self.old.disk) g s → OpensAsEither (D.shown self.new.disk) g s (packed self.old.state) }
        ensures done { (s : TargetState) (g : ℕ) → StandsAs (D.shown self.old.disk) g s → OnOk result (IsSettledAs (D.shown self.new.disk) (following g) (packed self.old.state)) }
    {
        let (front, listed) = match self.state.ready() {
            Ok(ready) => ready,
            Err(_) => return Err(NodeFault::Memory),
        };
        if put_image(&mut self.store, front.bytes(), &self.state).is_err() {
            return Err(NodeFault::Disk);
        }
        self.state.settle();
        Ok(listed)
    }

    /// Commits, if an executed record isn't committed; else does nothing.
    pub fn sync(&mut self) -> Result<Option<Committed>, NodeFault>
        ensures stays { Stays (D.shown self.old.disk) (D.shown self.new.disk) }
        ensures later { (D.shown self.old.disk).faults ≤ (D.shown self.new.disk).faults }
        ensures causes { CommitCauses (D.shown self.old.disk).faults (D.shown self.new.disk).faults result }
        ensures memory { LeavesAll self.old self.new result }
        ensures none { self.old.state.waiting ≡ [] → (result ≡ Ok None) × (self.new ≡ self.old) }
        ensures some { is_empty self.old.state.waiting ≡ false → IfOk result (λ o. o ≡ Some (listed self.old.state.index self.old.state.waiting)) }
        ensures state { is_empty self.old.state.waiting ≡ false → OnOk result (self.new.state ≡ committed self.old.state) }
        // What is put has an image that is read back, where the state is in range.
        ensures fits { is_empty self.old.state.waiting ≡ false → UnlessMemory (IsInRange self.old.state → FitsState (image_of (packed self.old.state))) result }
        ensures any_moment { (s : TargetState) (g : ℕ) → StandsAs (D.shown self.old.disk) g s → OpensAsEither (D.shown self.new.disk) g s (packed self.old.state) }
        ensures done { (s : TargetState) (g : ℕ) → is_empty self.old.state.waiting ≡ false → StandsAs (D.shown self.old.disk) g s → OnOk result (IsSettledAs (D.shown self.new.disk) (following g) (packed self.old.state)) }
    {
        if self.state.is_idle() {
            return Ok(None);
        }
        match self.commit() {
            Ok(committed) => Ok(Some(committed)),
            Err(fault) => Err(fault),
        }
    }
}
