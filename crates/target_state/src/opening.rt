//! The state that a target knows again from its image.

ghost use Rattle.std.specs.Prelude.{◌≡◌, ◌≤◌, length, Ok, IfOk};
ghost use Rattle.object_store.specs.ImageReading.{Gives};
ghost use Rattle.state_image.specs.StateText.{FitsState};
ghost use Rattle.target_state.specs.State.{TargetState};
ghost use Rattle.target_state.specs.Image.{image_of, state_text, most_image, IsBounded, HaveImage, IsInRange};
ghost use Rattle.target_state.specs.Opening.{restored, state_in, reopened};

use crate::indexed::IndexedLog;
use crate::state::State;
use crate::waiting::WaitingList;
use commit_sharing::Pending;
use fid_space::Cluster;
use object_store::ImageFault;
use state_image::{Image, a_state_is_read_back, a_state_was_written_so};
use std::alloc::{AllocError as Memory, Global};

/// The state of an image that fits a disk.
fn restored(alloc: Global, image: Image) -> Result<State, Memory>
    requires bounded { IsBounded image.front.seats image.objects image.log }
    requires parts { HaveImage image.front.seats image.objects }
    ensures { IfOk result (λ s. s ≡ restored image) }
{
    let Image {
        front,
        objects,
        log,
    } = image;
    Ok(State {
        alloc,
        front,
        objects,
        log: IndexedLog::of(alloc, log)?,
        waiting: WaitingList::new(alloc),
        pending: Pending::new(alloc),
        holder: None,
        ended: [0; 16],
    })
}

impl State {
    /// The state of this target of the cluster that was committed with these bytes, of which a disk takes so
    /// many. No record waits to be committed, no one holds it, and no attempt has ended. A fault names the
    /// first field that isn't as stated by its place in bytes, as [`Image::read`] does.
    pub fn read(
        alloc: Global,
        cluster: Cluster,
        index: u8,
        bytes: &[u8],
    ) -> Result<State, ImageFault>
        requires { length bytes.now ≤ most_image }
        ensures value { Gives (λ s. s) result (state_in cluster index bytes.now) }
        ensures in_range { IfOk result IsInRange }
    {
        let _targets = cluster.targets();
        a_state_was_written_so();
        match Image::read(alloc, cluster, index, bytes) {
            Ok(image) => Ok(restored(alloc, image)?),
            Err(fault) => Err(fault),
        }
    }
}

/// A state that was committed is read again. The call does nothing: its contract is a law.
pub fn what_was_committed_is_read_back()
    ensures { (s : TargetState) → FitsState (image_of s) → state_in s.targets s.index (state_text s) ≡ Ok (reopened s) }
{
    a_state_is_read_back();
}
