//! What a target that serves does with an order to commit, and with an answer.

ghost use Rattle.std.specs.Prelude.{◌≡◌, ◌≤◌, ◌++◌, [], map, IfOk, OnOk};
ghost use Rattle.update_record.specs.declared.message.MessageKind.{MessageKind};
ghost use Rattle.update_coordinator.specs.Fitting.{MayHear};
ghost use Rattle.cluster_mail.specs.Mail.{fresh};
ghost use Rattle.cluster_mail.specs.Answering.{ComesAs};
ghost use Rattle.target_turns.specs.Target.{fate_of};
ghost use Rattle.target_turns.specs.Helping.{on_sync};
ghost use Rattle.target_turns.specs.Turn.{on_answer, on_done};
ghost use Rattle.target_turns.specs.Seen.{served_of, after_ran};
ghost use Rattle.target_turns.specs.Touching.{Touches, RanCauses};

use crate::served::{Ran, Served};
use cluster_mail::{Mail, attempt_of, synced_message};
use outside::Disk;
use scenario_text::{Line, Lines};
use std::alloc::AllocError as Memory;
use update_coordinator::Event;
use update_record::Message;

/// The number of a request, as a message has it in its value. Memory is wanted where it is greater than such a
/// number can be.
pub(crate) fn number_of(value: u64) -> Result<u32, Memory>
    ensures { IfOk result (λ number. number ≡ value) }
{
    if value > u32::MAX as u64 {
        return Err(Memory);
    }
    Ok(value as u32)
}

impl<D: Disk> Served<D> {
    /// It is asked to commit.
    pub fn on_sync(
        &mut self,
        k: u32,
        message: &Message,
        mail: &mut Mail,
        lines: &mut Lines,
    ) -> Result<Ran, Memory>
        requires here { self.old.index ≤ 15 }
        requires sync { ComesAs MessageKind.Sync message.now }
        ensures after { IfOk result (λ ran. after_ran ran (served_of D.shown self.new) ≡ (on_sync k (served_of D.shown self.old) message.now (fate_of (after_ran ran (served_of D.shown self.new)))).target) }
        ensures lines { IfOk result (λ ran. lines.new ≡ lines.old ++ (on_sync k (served_of D.shown self.old) message.now (fate_of (after_ran ran (served_of D.shown self.new)))).lines) }
        ensures sent { IfOk result (λ ran. mail.new ≡ mail.old ++ map fresh (on_sync k (served_of D.shown self.old) message.now (fate_of (after_ran ran (served_of D.shown self.new)))).sent) }
        ensures touches { Touches (D.shown self.old.node.disk) (D.shown self.new.node.disk) }
        ensures cause { IfOk result (RanCauses (D.shown self.old.node.disk) (D.shown self.new.node.disk)) }
        ensures place { (self.new.cluster ≡ self.old.cluster) × (self.new.index ≡ self.old.index) }
    {
        if !self.node.is_held_by(attempt_of(message)) {
            lines.push(Line::Ignored(k))?;
            return Ok(Ran::Stands);
        }
        let writer = number_of(message.value)?;
        match self.sync(message.number, writer, mail, lines)? {
            Ran::Stopped => Ok(Ran::Stopped),
            Ran::Stands => {
                let epoch = self.node.epoch();
                mail.post(&synced_message(self.alloc, epoch, self.index, message))?;
                Ok(Ran::Stands)
            }
        }
    }

    /// An answer to what the home asked.
    pub fn on_answer(
        &mut self,
        k: u32,
        message: &Message,
        event: Event,
        mail: &mut Mail,
        lines: &mut Lines,
    ) -> Result<Ran, Memory>
        requires here { self.old.index ≤ 15 }
        requires from { message.now.from ≤ 15 }
        requires may_hear { MayHear event }
        ensures after { IfOk result (λ ran. after_ran ran (served_of D.shown self.new) ≡ (on_answer k (served_of D.shown self.old) message.now event (fate_of (after_ran ran (served_of D.shown self.new)))).target) }
        ensures lines { IfOk result (λ ran. lines.new ≡ lines.old ++ (on_answer k (served_of D.shown self.old) message.now event (fate_of (after_ran ran (served_of D.shown self.new)))).lines) }
        ensures sent { IfOk result (λ ran. mail.new ≡ mail.old ++ map fresh (on_answer k (served_of D.shown self.old) message.now event (fate_of (after_ran ran (served_of D.shown self.new)))).sent) }
        ensures touches { Touches (D.shown self.old.node.disk) (D.shown self.new.node.disk) }
        ensures cause { IfOk result (RanCauses (D.shown self.old.node.disk) (D.shown self.new.node.disk)) }
        ensures place { (self.new.cluster ≡ self.old.cluster) × (self.new.index ≡ self.old.index) }
    {
        let from = message.from as u8;
        if !self.coordinator.awaits(from, message.attempt, message.ask) {
            lines.push(Line::Ignored(k))?;
            return Ok(Ran::Stands);
        }
        self.hear(message.number, event, mail, lines)
    }

    /// An answer to an order.
    pub fn on_done(
        &mut self,
        k: u32,
        message: &Message,
        event: Event,
        lines: &mut Lines,
    ) -> Result<(), Memory>
        requires from { message.now.from ≤ 15 }
        requires may_hear { MayHear event }
        ensures after { OnOk result (served_of D.shown self.new ≡ (on_done k (served_of D.shown self.old) message.now event).target) }
        ensures lines { OnOk result (lines.new ≡ lines.old ++ (on_done k (served_of D.shown self.old) message.now event).lines) }
        ensures sent { OnOk result ((on_done k (served_of D.shown self.old) message.now event).sent ≡ []) }
        ensures disk { self.new.node.disk ≡ self.old.node.disk }
        ensures place { (self.new.cluster ≡ self.old.cluster) × (self.new.index ≡ self.old.index) }
    {
        let from = message.from as u8;
        if !self.coordinator.unanswered(from, message.attempt) {
            return lines.push(Line::Ignored(k));
        }
        // It is only noted, and so nothing is to be done.
        let _ = self.tell_coordinator(event)?;
        Ok(())
    }
}
