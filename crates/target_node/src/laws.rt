//! What a disk holds of what a node committed.

ghost use Rattle.std.specs.Prelude.{◌≡◌, ◌⊎◌, ℕ, List, Some, Ok};
ghost use Rattle.outside.specs.Disk.{Shown, IsImage};
ghost use Rattle.state_image.specs.StateText.{FitsState};
ghost use Rattle.target_state.specs.State.{TargetState};
ghost use Rattle.target_state.specs.Image.{image_of, IsInRange};
ghost use Rattle.target_state.specs.Opening.{reopened};
ghost use Rattle.target_node.specs.Node.{StandsAs, OpensAsEither};
ghost use Rattle.target_node.specs.Opening.{held};

use crate::node::Node;
use outside::Disk;
use target_disk::a_disk_that_stands_opens_so;
use target_state::what_was_committed_is_read_back;

/// Each image of a disk on which a state is committed holds that state. The call does nothing: its contract
/// is a law, as that of the next.
pub fn a_committed_state_is_held()
    ensures { (disk : Shown) (g : ℕ) (s : TargetState) (image : List ℕ) → StandsAs disk g s → FitsState (image_of s) → IsImage disk.settled image → held s.targets s.index image ≡ Some (Ok (reopened s)) }
{
    a_disk_that_stands_opens_so();
    what_was_committed_is_read_back();
}

/// Wherever a commit stops, each image of the disk holds the state before it or the state after.
pub fn a_stopped_commit_leaves_either_state()
    ensures { (disk : Shown) (g : ℕ) (old new : TargetState) (image : List ℕ) → OpensAsEither disk g old new → FitsState (image_of old) → FitsState (image_of new) → IsImage disk.settled image → (held old.targets old.index image ≡ Some (Ok (reopened old))) ⊎ (held new.targets new.index image ≡ Some (Ok (reopened new))) }
{
    what_was_committed_is_read_back();
}

impl<D: Disk> Node<D> {
    /// Its state has an image that is read back, where its numbers are in their ranges and its log is of records
    /// of this target. The call does nothing: its contract is a law, as that of the next.
    pub fn has_an_image(&self)
        ensures { IsInRange self.now.state → FitsState (image_of self.now.state) }
    {
        self.state.has_an_image();
    }

    /// Each image of a disk on which its state is committed holds that state, where it is in range.
    pub fn is_held(&self)
        ensures { (disk : Shown) (g : ℕ) (image : List ℕ) → IsInRange self.now.state → StandsAs disk g self.now.state → IsImage disk.settled image → held self.now.state.targets self.now.state.index image ≡ Some (Ok (reopened self.now.state)) }
    {
        self.has_an_image();
        a_committed_state_is_held();
    }
}
