//! What a state tells of itself. No call takes memory.

ghost use Rattle.std.specs.Prelude.{◌≡◌, ◌<◌, get_or, None};
ghost use Rattle.std.specs.Option.{option_map};
ghost use Rattle.llog_store.specs.Changes.{first_live};
ghost use Rattle.reply_cache.specs.Seats.{judged};
ghost use Rattle.target_state.specs.Rules.{forgotten};

use crate::state::State;
use llog_store::Llog;
use object_store::Objects;
use reply_cache::Judgement;

impl State {
    /// The epoch.
    pub fn epoch(&self) -> u32
        ensures { result ≡ self.now.epoch }
    {
        self.front.epoch
    }

    /// How many records it has executed.
    pub fn transno(&self) -> u64
        ensures { result ≡ self.now.transno }
    {
        self.front.transno
    }

    /// The stamp of the record that it executed last.
    pub fn clock(&self) -> u64
        ensures { result ≡ self.now.clock }
    {
        self.front.clock
    }

    /// The mark: each of its batches up to this one is stable on all its targets.
    pub fn mark(&self) -> u64
        ensures { result ≡ self.now.mark }
    {
        self.front.mark
    }

    /// The number of the request that holds the target.
    pub fn holder(&self) -> Option<u32>
        ensures { result ≡ option_map (λ h. h.number) self.now.holder }
    {
        match self.holder {
            None => None,
            Some(holder) => Some(holder.number),
        }
    }

    /// What a number of a client, 0 to 63, is by its seat.
    pub fn judge(&self, client: u8, number: u32) -> Judgement
        requires { client < 64 }
        ensures { result ≡ judged (get_or self.now.seats client None) number }
    {
        self.front.seats.judge(client, number)
    }

    /// Lends the objects.
    pub fn objects(&self) -> &Objects
        ensures { result.now ≡ self.now.objects }
    {
        &self.objects
    }

    /// Lends the update log.
    pub fn log(&self) -> &Llog
        ensures { result.now ≡ self.now.log }
    {
        self.log.log()
    }

    /// The first live record of the log at or after an index, with its index.
    pub fn live(&self, from: u32) -> Option<(u32, &[u8])>
        ensures { option_map (λ x. (x.0, x.1.now)) result ≡ first_live from self.now.log.entries }
    {
        self.log.log().walk(from)
    }

    /// Forgets who holds it, and which attempts ended.
    pub fn enter_recovery(&mut self)
        ensures { self.new ≡ forgotten self.old }
    {
        self.holder = None;
        self.ended = [0; 16];
    }
}
