//! What a target sends once more.

ghost use Rattle.std.specs.Prelude.{◌≡◌, ◌≤◌, ◌<◌, ◌++◌, ◌∷◌, [], All, length, map, slice_index_or, OnOk};
ghost use Rattle.update_record.specs.Messages.{FitsMessage};
ghost use Rattle.cluster_mail.specs.Mail.{fresh, no_message};
ghost use Rattle.target_state.specs.Marking.{stable_marks};
ghost use Rattle.target_turns.specs.Marks.{stables, cancels_again, resending};
ghost use Rattle.target_turns.specs.Seen.{served_of};

use crate::served::Served;
use cluster_mail::Mail;
use fid_space::Targets;
use outside::Disk;
use std::alloc::AllocError as Memory;
use update_record::Messages;

/// Sends the message at an index.
fn post_at(messages: &Messages, i: usize, mail: &mut Mail) -> Result<(), Memory>
    requires there { i < length messages.now }
    requires fits { All FitsMessage messages.now }
    ensures { OnOk result (mail.new ≡ mail.old ++ fresh (slice_index_or messages.now i no_message) ∷ []) }
{
    match messages.get(i) {
        Some(message) => mail.post(message),
        None => unreachable!(),
    }
}

/// Sends these messages.
#[tactic(auto, using(crate::proofs::Posting::posted))]
fn post_all(messages: &Messages, mail: &mut Mail) -> Result<(), Memory>
    requires { All FitsMessage messages.now }
    ensures { OnOk result (mail.new ≡ mail.old ++ map fresh messages.now) }
{
    for i in 0..messages.len() {
        post_at(messages, i, mail)?;
    }
    Ok(())
}

impl<D: Disk> Served<D> {
    /// Tells the mark once more that it told last.
    fn tell_mark_again(&self, mail: &mut Mail) -> Result<(), Memory>
        requires here { self.now.index ≤ 15 }
        ensures { OnOk result (mail.new ≡ mail.old ++ map fresh (cancels_again (served_of D.shown self.now))) }
    {
        if self.sent_mark == 0 {
            return Ok(());
        }
        self.tell_cancels(self.sent_mark, Targets::of_number(65_535), mail)
    }

    /// Tells once more which records are stable here.
    fn tell_stables_again(&self, mail: &mut Mail) -> Result<(), Memory>
        requires here { self.now.index ≤ 15 }
        ensures { OnOk result (mail.new ≡ mail.old ++ map fresh (stables self.now.node.state.epoch self.now.index (stable_marks self.now.node.state))) }
    {
        let marks = self.node.stable_marks(self.alloc)?;
        self.tell_stables(&marks, mail)
    }

    /// Sends once more what wasn't answered, and what is stable.
    pub fn resend(&self, mail: &mut Mail) -> Result<(), Memory>
        requires here { self.now.index ≤ 15 }
        ensures { OnOk result (mail.new ≡ mail.old ++ map fresh (resending (served_of D.shown self.now))) }
    {
        let messages = self.coordinator.resend(self.alloc)?;
        post_all(&messages, mail)?;
        self.tell_stables_again(mail)?;
        self.tell_mark_again(mail)
    }
}
