//! What a target does for the home of a request elsewhere.

ghost use Rattle.std.specs.Prelude.{◌≡◌, ◌≤◌, ◌<◌, ◌^◌, ◌++◌, ◌∷◌, [], length, map, All, OnOk};
ghost use Rattle.out_update.specs.Spelling.{FitsUpdate};
ghost use Rattle.update_record.specs.declared.message.MessageKind.{MessageKind};
ghost use Rattle.update_record.specs.Messages.{FitsFacts};
ghost use Rattle.update_record.specs.Spelling.{FitsRecord};
ghost use Rattle.target_state.specs.Image.{state_text, most_load};
ghost use Rattle.cluster_mail.specs.Mail.{fresh};
ghost use Rattle.cluster_mail.specs.Answering.{ComesAs, held_message, busy_message};
ghost use Rattle.target_turns.specs.Helping.{on_hold, executed_line, on_execute, released_lines, on_release};
ghost use Rattle.target_turns.specs.Seen.{served_of};

use crate::served::Served;
use cluster_mail::{
    Mail, attempt_of, busy_message, executed_message, held_message, released_message,
};
use out_update::UpdateRequest;
use outside::Disk;
use scenario_text::{Line, Lines};
use std::alloc::AllocError as Memory;
use target_state::{ExecuteAnswer, HoldAnswer, ReleaseAnswer};
use update_record::{Facts, Message, Record};

/// The length of an image, in bytes, from which on no record is executed.
const MOST_LOAD: u64 = 5_111_808;

/// The greatest batch and transaction number with which a record is executed.
const MOST: u64 = 1 << 63;

/// The line of an Execute.
fn executed_line(k: u32, index: u8, number: u32, answer: ExecuteAnswer) -> Line
    ensures { result ≡ executed_line k index number answer }
{
    match answer {
        ExecuteAnswer::Done => Line::Done {
            number,
            target: index,
        },
        ExecuteAnswer::Ended => Line::Ignored(k),
    }
}

/// Adds the line of a Release that has nothing to say any more.
fn tell_released(k: u32, answer: ReleaseAnswer, lines: &mut Lines) -> Result<(), Memory>
    ensures { OnOk result (lines.new ≡ lines.old ++ released_lines k answer) }
{
    match answer {
        ReleaseAnswer::Ended => lines.push(Line::Ignored(k)),
        ReleaseAnswer::LetGo | ReleaseAnswer::Noted => Ok(()),
    }
}

impl<D: Disk> Served<D> {
    /// Tells what it was asked.
    fn tell_held(
        &self,
        epoch: u32,
        hold: &Message,
        facts: &Facts,
        mail: &mut Mail,
    ) -> Result<(), Memory>
        requires here { self.now.index ≤ 15 }
        requires hold { ComesAs MessageKind.Hold hold.now }
        requires facts { FitsFacts facts.now }
        ensures { OnOk result (mail.new ≡ mail.old ++ fresh (held_message epoch self.now.index hold.now facts.now) ∷ []) }
    {
        let message = held_message(self.alloc, epoch, self.index, hold, facts)?;
        mail.post(&message)
    }

    /// Tells who holds it.
    fn tell_busy(
        &self,
        epoch: u32,
        hold: &Message,
        holder: u32,
        mail: &mut Mail,
    ) -> Result<(), Memory>
        requires here { self.now.index ≤ 15 }
        requires hold { ComesAs MessageKind.Hold hold.now }
        ensures { OnOk result (mail.new ≡ mail.old ++ fresh (busy_message epoch self.now.index hold.now holder) ∷ []) }
    {
        mail.post(&busy_message(self.alloc, epoch, self.index, hold, holder))
    }

    /// It is asked to be held, with a question or none.
    pub fn on_hold(
        &mut self,
        k: u32,
        message: &Message,
        question: &UpdateRequest,
        mail: &mut Mail,
        lines: &mut Lines,
    ) -> Result<(), Memory>
        requires here { self.old.index ≤ 15 }
        requires hold { ComesAs MessageKind.Hold message.now }
        requires question { All FitsUpdate question.now }
        ensures after { OnOk result (served_of D.shown self.new ≡ (on_hold k (served_of D.shown self.old) message.now question.now).target) }
        ensures lines { OnOk result (lines.new ≡ lines.old ++ (on_hold k (served_of D.shown self.old) message.now question.now).lines) }
        ensures sent { OnOk result (mail.new ≡ mail.old ++ map fresh (on_hold k (served_of D.shown self.old) message.now question.now).sent) }
        ensures disk { self.new.node.disk ≡ self.old.node.disk }
        ensures place { (self.new.cluster ≡ self.old.cluster) × (self.new.index ≡ self.old.index) }
    {
        let epoch = self.node.epoch();
        match self.node.hold(attempt_of(message), question)? {
            HoldAnswer::Held(facts) => self.tell_held(epoch, message, &facts, mail),
            HoldAnswer::Busy(holder) => self.tell_busy(epoch, message, holder, mail),
            HoldAnswer::Ended => lines.push(Line::Ignored(k)),
        }
    }

    /// Whether a record can be executed. Memory is wanted where its image would be too long, or where a number
    /// is above 2^63.
    pub(crate) fn room(&self, entry: &Record) -> Result<(), Memory>
        ensures load { OnOk result (length (state_text self.now.node.state) ≤ most_load) }
        ensures batch { OnOk result (entry.now.id.batch ≤ 2 ^ 63) }
        ensures transno { OnOk result (self.now.node.state.transno ≤ 2 ^ 63) }
    {
        if self.node.load() > MOST_LOAD || entry.id.batch > MOST || self.node.transno() > MOST {
            return Err(Memory);
        }
        Ok(())
    }

    /// It gets the record of an operation that was accepted.
    pub fn on_execute(
        &mut self,
        k: u32,
        message: &Message,
        entry: &Record,
        mail: &mut Mail,
        lines: &mut Lines,
    ) -> Result<(), Memory>
        requires here { self.old.index ≤ 15 }
        requires execute { ComesAs MessageKind.Execute message.now }
        requires entry { FitsRecord entry.now }
        ensures after { OnOk result (served_of D.shown self.new ≡ (on_execute k (served_of D.shown self.old) message.now entry.now).target) }
        ensures lines { OnOk result (lines.new ≡ lines.old ++ (on_execute k (served_of D.shown self.old) message.now entry.now).lines) }
        ensures sent { OnOk result (mail.new ≡ mail.old ++ map fresh (on_execute k (served_of D.shown self.old) message.now entry.now).sent) }
        ensures disk { self.new.node.disk ≡ self.old.node.disk }
        ensures place { (self.new.cluster ≡ self.old.cluster) × (self.new.index ≡ self.old.index) }
    {
        self.room(entry)?;
        let epoch = self.node.epoch();
        let answer = self.node.execute(attempt_of(message), entry)?;
        lines.push(executed_line(k, self.index, message.number, answer))?;
        mail.post(&executed_message(self.alloc, epoch, self.index, message))
    }

    /// It is let go.
    pub fn on_release(
        &mut self,
        k: u32,
        message: &Message,
        mail: &mut Mail,
        lines: &mut Lines,
    ) -> Result<(), Memory>
        requires here { self.old.index ≤ 15 }
        requires release { ComesAs MessageKind.Release message.now }
        ensures after { OnOk result (served_of D.shown self.new ≡ (on_release k (served_of D.shown self.old) message.now).target) }
        ensures lines { OnOk result (lines.new ≡ lines.old ++ (on_release k (served_of D.shown self.old) message.now).lines) }
        ensures sent { OnOk result (mail.new ≡ mail.old ++ map fresh (on_release k (served_of D.shown self.old) message.now).sent) }
        ensures disk { self.new.node.disk ≡ self.old.node.disk }
        ensures place { (self.new.cluster ≡ self.old.cluster) × (self.new.index ≡ self.old.index) }
    {
        let epoch = self.node.epoch();
        let answer = self.node.release(attempt_of(message));
        tell_released(k, answer, lines)?;
        mail.post(&released_message(self.alloc, epoch, self.index, message))
    }
}
