ghost use Rattle.std.specs.Prelude.{◌≡◌, ◌≤◌, ◌<◌, ◌^◌, length, IfOk};
ghost use Rattle.llog_store.specs.Log.{log_text};
ghost use Rattle.target_state.specs.State.{first_state};
ghost use Rattle.state_image.specs.StateText.{FitsState};
ghost use Rattle.target_state.specs.Image.{state_text, image_of, most_image, IsInRange};

use crate::indexed::IndexedLog;
use crate::waiting::WaitingList;
use commit_sharing::Pending;
use fid_space::Cluster;
use llog_store::Llog;
use object_store::Objects;
use reply_cache::Seats;
use state_image::Front;
use std::alloc::{AllocError as Memory, Global};
use std::marker::Model;
use update_record::Attempt;

/// What a target knows, without its disk.
#[derive(Drop)]
pub struct State {
    pub(crate) alloc: Global,
    pub(crate) front: Front,
    pub(crate) objects: Objects,
    pub(crate) log: IndexedLog,
    pub(crate) waiting: WaitingList,
    pub(crate) pending: Pending,
    pub(crate) holder: Option<Attempt>,
    pub(crate) ended: [u64; 16],
}

impl Model for State {
    ghost use Rattle.target_state.specs.State.{TargetState};
    ghost use Rattle.target_state.specs.Image.{IsBounded, HaveImage};
    ghost use Rattle.std.specs.Prelude.{◌<◌, IfSome};
    ghost use Rattle.std.specs.Coded.{codes};
    ghost use Rattle.object_store.specs.Objects.{coded_objects};
    ghost use Rattle.commit_sharing.specs.Pending.{coded_writers};

    ghost Value = { TargetState };

    ghost coded = { Prim.hlevel (codes, coded_objects, coded_writers) };

    ghost view = { λ s. record { targets = s.front.cluster; index = s.front.index; epoch = s.front.epoch; transno = s.front.transno; clock = s.front.clock; next_batch = s.front.next_batch; mark = s.front.mark; seats = s.front.seats; objects = s.objects; log = s.log; waiting = s.waiting; writers = s.pending; holder = s.holder; ended = s.ended } };

    ghost invariant = { λ s. IfSome s.holder (λ h. h.master < 16) × IsBounded s.front.seats s.objects s.log × HaveImage s.front.seats s.objects };
}

impl State {
    /// The state of a target that was formatted.
    pub fn new(alloc: Global, cluster: Cluster, index: u8) -> Result<State, Memory>
        ensures { IfOk result (λ s. s ≡ first_state cluster index) }
    {
        let front = Front {
            cluster,
            index,
            epoch: 1,
            transno: 0,
            clock: 0,
            next_batch: 1,
            mark: 0,
            seats: Seats::new(),
        };
        Ok(State {
            alloc,
            front,
            objects: Objects::new(alloc, cluster, index)?,
            log: IndexedLog::new(alloc)?,
            waiting: WaitingList::new(alloc),
            pending: Pending::new(alloc),
            holder: None,
            ended: [0; 16],
        })
    }

    /// The length of the image that it would commit now, without packing the log first.
    #[tactic(auto, using(crate::proofs::Lengths::state_length))]
    pub fn load(&self) -> u64
        ensures value { result ≡ length (state_text self.now) }
        ensures fits { result ≤ most_image }
    {
        self.fits_a_disk();
        u64::from(self.front.size()) + self.objects.size() + 8 + log_length(self.log.log())
    }

    /// Its image fits a disk, whatever was executed. The call does nothing: its contract is a law.
    #[tactic(auto, using(crate::proofs::Lengths::state_size))]
    pub fn fits_a_disk(&self)
        ensures { length (state_text self.now) ≤ most_image }
    {
        let _size = self.front.size();
    }

    /// It has an image that is read back, where its numbers are in their ranges and its log is its own. The
    /// call does nothing: its contract is a law.
    pub fn has_an_image(&self)
        ensures { IsInRange self.now → FitsState (image_of self.now) }
    {
        let _targets = self.front.cluster.targets();
        let _index = byte(self.front.index);
        let _seats = self.front.seats.items();
        let _next = self.log.log().next();
    }
}

/// The number of a byte.
fn byte(n: u8) -> u8
    ensures value { result ≡ n }
    ensures small { result < 2 ^ 8 }
{
    n
}

/// How many bytes a log has.
pub(crate) fn log_length(log: &Llog) -> u64
    ensures value { result ≡ length (log_text log.now) }
    ensures small { result < 2 ^ 63 }
{
    let before = log.chunks().saturating_sub(1);
    match log.chunk(before) {
        None => 0,
        Some(last) => 32_768 * u64::from(before) + last.len() as u64,
    }
}
