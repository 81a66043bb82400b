//! What a node tells of its state, and what changes it without a disk call. No call takes memory.

ghost use Rattle.std.specs.Prelude.{◌≡◌, ◌<◌, get_or, None, Some, OnSome};
ghost use Rattle.std.specs.Option.{option_map};
ghost use Rattle.outside.specs.Disk.{Fuse, Shown};
ghost use Rattle.llog_store.specs.Changes.{first_live};
ghost use Rattle.reply_cache.specs.Seats.{judged};
ghost use Rattle.target_state.specs.Rules.{forgotten};

use crate::node::Node;
use object_store::Objects;
use outside::{Disk, Plant};
use reply_cache::Judgement;

impl<D: Disk> Node<D> {
    /// The epoch.
    pub fn epoch(&self) -> u32
        ensures { result ≡ self.now.state.epoch }
    {
        self.state.epoch()
    }

    /// How many records it has executed.
    pub fn transno(&self) -> u64
        ensures { result ≡ self.now.state.transno }
    {
        self.state.transno()
    }

    /// The stamp of the record that it executed last.
    pub fn clock(&self) -> u64
        ensures { result ≡ self.now.state.clock }
    {
        self.state.clock()
    }

    /// The mark: each of its batches up to this one is stable on all its targets.
    pub fn mark(&self) -> u64
        ensures { result ≡ self.now.state.mark }
    {
        self.state.mark()
    }

    /// The number of the request that holds the target.
    pub fn holder(&self) -> Option<u32>
        ensures { result ≡ option_map (λ h. h.number) self.now.state.holder }
    {
        self.state.holder()
    }

    /// What a number of a client, 0 to 63, is by its seat.
    pub fn judge(&self, client: u8, number: u32) -> Judgement
        requires { client < 64 }
        ensures { result ≡ judged (get_or self.now.state.seats client None) number }
    {
        self.state.judge(client, number)
    }

    /// Lends the objects.
    pub fn objects(&self) -> &Objects
        ensures { result.now ≡ self.now.state.objects }
    {
        self.state.objects()
    }

    /// The first live record of the log at or after an index, with its index.
    pub fn live(&self, from: u32) -> Option<(u32, &[u8])>
        ensures { option_map (λ x. (x.0, x.1.now)) result ≡ first_live from self.now.state.log.entries }
    {
        self.state.live(from)
    }

    /// Forgets who holds it, and which attempts ended.
    pub fn enter_recovery(&mut self)
        ensures state { self.new.state ≡ forgotten self.old.state }
        ensures disk { self.new.disk ≡ self.old.disk }
    {
        self.state.enter_recovery();
    }
}

impl<D: Plant> Node<D> {
    /// Arms the disk, as [`Plant::arm`] does, and changes nothing else.
    pub fn arm(&mut self, after: u32, choice: u8)
        ensures shown { D.shown self.new.disk ≡ D.shown self.old.disk }
        ensures state { self.new.state ≡ self.old.state }
        ensures armed { D.armed after choice (D.shown self.old.disk) }
        ensures set { OnSome (D.fuse self.old.disk) (D.fuse self.new.disk ≡ Some (record { left = Some after; choice = choice })) }
        ensures none { D.fuse self.old.disk ≡ None → D.fuse self.new.disk ≡ None }
    {
        self.store.arm(after, choice);
    }
}
