//! A target that serves takes a message, with what that says.

ghost use Rattle.std.specs.Prelude.{◌≡◌, ◌≤◌, ◌++◌, true, false, map, IfOk, IsOk, OnOk};
ghost use Rattle.update_record.specs.declared.message.MessageKind.{MessageKind};
ghost use Rattle.update_record.specs.Messages.{FitsMessage};
ghost use Rattle.cluster_mail.specs.declared.content.Content.{Content};
ghost use Rattle.update_coordinator.specs.declared.words.Event.TheVariants as events;
ghost use Rattle.cluster_mail.specs.Answering.{ComesAs};
ghost use Rattle.cluster_mail.specs.Content.{SaysOp, SaysQuestion, SaysFacts, SaysRecord};
ghost use Rattle.cluster_mail.specs.Mail.{fresh};
ghost use Rattle.target_turns.specs.Target.{Fate, fate_of};
ghost use Rattle.target_turns.specs.Turn.{on_answer, with_op, with_question, with_facts, with_record, is_request, turned_now, turned_up};
ghost use Rattle.target_turns.specs.Seen.{served_of, after_ran};
ghost use Rattle.target_turns.specs.Taking.{ComesHome, MayTake, is_note, is_order, is_signal};
ghost use Rattle.target_turns.specs.declared.served.Ran.{Ran};
ghost use Rattle.target_turns.specs.Touching.{Touches, RanCauses};

use crate::served::{Ran, Served};
use crate::serving::number_of;
use cluster_mail::{Content, Mail};
use outside::Disk;
use scenario_text::{Line, Lines};
use std::alloc::AllocError as Memory;
use tree_model::Request;
use update_coordinator::Event;
use update_record::{Message, MessageKind};

/// The least number that the clock of a target never has.
const MOST: u64 = 1 << 63;

/// Whether it is what a client asks.
pub(crate) fn is_request(kind: MessageKind) -> bool
    ensures { result ≡ is_request kind }
{
    match kind {
        MessageKind::Request => true,
        _ => false,
    }
}

/// What left the target serving.
fn stands(done: Result<(), Memory>) -> Result<Ran, Memory>
    ensures { IfOk result (λ ran. (ran ≡ Ran.Stands) × IsOk done) }
{
    match done {
        Ok(()) => Ok(Ran::Stands),
        Err(memory) => Err(memory),
    }
}

impl<D: Disk> Served<D> {
    /// A client asks for an operation.
    fn receive_request(
        &mut self,
        message: &Message,
        content: Content,
        mail: &mut Mail,
        lines: &mut Lines,
    ) -> Result<Ran, Memory>
        requires here { self.old.index ≤ 15 }
        requires says { SaysOp self.old.cluster message.now.body content }
        requires home { ComesHome self.old.cluster self.old.index message.now content }
        ensures after { IfOk result (λ ran. after_ran ran (served_of D.shown self.new) ≡ (with_op (served_of D.shown self.old) message.now (fate_of (after_ran ran (served_of D.shown self.new))) content).target) }
        ensures lines { IfOk result (λ ran. lines.new ≡ lines.old ++ (with_op (served_of D.shown self.old) message.now (fate_of (after_ran ran (served_of D.shown self.new))) content).lines) }
        ensures sent { IfOk result (λ ran. mail.new ≡ mail.old ++ map fresh (with_op (served_of D.shown self.old) message.now (fate_of (after_ran ran (served_of D.shown self.new))) content).sent) }
        ensures touches { Touches (D.shown self.old.node.disk) (D.shown self.new.node.disk) }
        ensures cause { IfOk result (RanCauses (D.shown self.old.node.disk) (D.shown self.new.node.disk)) }
        ensures place { (self.new.cluster ≡ self.old.cluster) × (self.new.index ≡ self.old.index) }
    {
        match content {
            Content::Asks(op) => {
                if message.from < 256 {
                    return Err(Memory);
                }
                let request = Request {
                    number: message.number,
                    client: (message.from - 256) as u8,
                    op,
                };
                self.on_request(request, mail, lines)
            }
            _ => unreachable!(),
        }
    }

    /// It is asked to be held.
    fn receive_hold(
        &mut self,
        k: u32,
        message: &Message,
        content: Content,
        mail: &mut Mail,
        lines: &mut Lines,
    ) -> Result<(), Memory>
        requires here { self.old.index ≤ 15 }
        requires hold { ComesAs MessageKind.Hold message.now }
        requires says { SaysQuestion message.now.body content }
        ensures after { OnOk result (served_of D.shown self.new ≡ (with_question k (served_of D.shown self.old) message.now content).target) }
        ensures lines { OnOk result (lines.new ≡ lines.old ++ (with_question k (served_of D.shown self.old) message.now content).lines) }
        ensures sent { OnOk result (mail.new ≡ mail.old ++ map fresh (with_question k (served_of D.shown self.old) message.now content).sent) }
        ensures disk { self.new.node.disk ≡ self.old.node.disk }
        ensures place { (self.new.cluster ≡ self.old.cluster) × (self.new.index ≡ self.old.index) }
    {
        match content {
            Content::Questions(question) => self.on_hold(k, message, &question, mail, lines),
            _ => unreachable!(),
        }
    }

    /// Its home gets what a held target tells. Memory is wanted too where that target's clock is 2^63 or more.
    fn receive_facts(
        &mut self,
        k: u32,
        message: &Message,
        content: Content,
        mail: &mut Mail,
        lines: &mut Lines,
    ) -> Result<Ran, Memory>
        requires here { self.old.index ≤ 15 }
        requires from { message.now.from ≤ 15 }
        requires says { SaysFacts message.now.body content }
        ensures after { IfOk result (λ ran. after_ran ran (served_of D.shown self.new) ≡ (with_facts k (served_of D.shown self.old) message.now (fate_of (after_ran ran (served_of D.shown self.new))) content).target) }
        ensures lines { IfOk result (λ ran. lines.new ≡ lines.old ++ (with_facts k (served_of D.shown self.old) message.now (fate_of (after_ran ran (served_of D.shown self.new))) content).lines) }
        ensures sent { IfOk result (λ ran. mail.new ≡ mail.old ++ map fresh (with_facts k (served_of D.shown self.old) message.now (fate_of (after_ran ran (served_of D.shown self.new))) content).sent) }
        ensures touches { Touches (D.shown self.old.node.disk) (D.shown self.new.node.disk) }
        ensures cause { IfOk result (RanCauses (D.shown self.old.node.disk) (D.shown self.new.node.disk)) }
        ensures place { (self.new.cluster ≡ self.old.cluster) × (self.new.index ≡ self.old.index) }
    {
        match content {
            Content::Tells(facts) => {
                if facts.clock >= MOST {
                    return Err(Memory);
                }
                self.on_answer(k, message, Event::Fact(facts), mail, lines)
            }
            _ => unreachable!(),
        }
    }

    /// It gets the record of an operation that was accepted.
    fn receive_record(
        &mut self,
        k: u32,
        message: &Message,
        content: Content,
        mail: &mut Mail,
        lines: &mut Lines,
    ) -> Result<(), Memory>
        requires here { self.old.index ≤ 15 }
        requires execute { ComesAs MessageKind.Execute message.now }
        requires says { SaysRecord message.now.body content }
        ensures after { OnOk result (served_of D.shown self.new ≡ (with_record k (served_of D.shown self.old) message.now content).target) }
        ensures lines { OnOk result (lines.new ≡ lines.old ++ (with_record k (served_of D.shown self.old) message.now content).lines) }
        ensures sent { OnOk result (mail.new ≡ mail.old ++ map fresh (with_record k (served_of D.shown self.old) message.now content).sent) }
        ensures disk { self.new.node.disk ≡ self.old.node.disk }
        ensures place { (self.new.cluster ≡ self.old.cluster) × (self.new.index ≡ self.old.index) }
    {
        match content {
            Content::Carries(entry) => self.on_execute(k, message, &entry, mail, lines),
            _ => unreachable!(),
        }
    }

    /// A held target tells its home, or is held by another request.
    fn receive_busy(
        &mut self,
        k: u32,
        message: &Message,
        mail: &mut Mail,
        lines: &mut Lines,
    ) -> Result<Ran, Memory>
        requires here { self.old.index ≤ 15 }
        requires from { message.now.from ≤ 15 }
        ensures after { IfOk result (λ ran. after_ran ran (served_of D.shown self.new) ≡ (on_answer k (served_of D.shown self.old) message.now (events.Busy message.now.value) (fate_of (after_ran ran (served_of D.shown self.new)))).target) }
        ensures lines { IfOk result (λ ran. lines.new ≡ lines.old ++ (on_answer k (served_of D.shown self.old) message.now (events.Busy message.now.value) (fate_of (after_ran ran (served_of D.shown self.new)))).lines) }
        ensures sent { IfOk result (λ ran. mail.new ≡ mail.old ++ map fresh (on_answer k (served_of D.shown self.old) message.now (events.Busy message.now.value) (fate_of (after_ran ran (served_of D.shown self.new)))).sent) }
        ensures touches { Touches (D.shown self.old.node.disk) (D.shown self.new.node.disk) }
        ensures cause { IfOk result (RanCauses (D.shown self.old.node.disk) (D.shown self.new.node.disk)) }
        ensures place { (self.new.cluster ≡ self.old.cluster) × (self.new.index ≡ self.old.index) }
    {
        let holder = number_of(message.value)?;
        self.on_answer(k, message, Event::Busy(holder), mail, lines)
    }

    /// Takes a message of another target, of its epoch, that has no body and after which it stands.
    fn receive_note(
        &mut self,
        k: u32,
        message: &Message,
        mail: &mut Mail,
        lines: &mut Lines,
    ) -> Result<(), Memory>
        requires here { self.old.index ≤ 15 }
        requires note { is_note message.now.kind ≡ true }
        requires fits { FitsMessage message.now }
        requires from { message.now.from ≤ 15 }
        ensures after { OnOk result ((x : Content) (f : Fate) → served_of D.shown self.new ≡ (turned_now k (served_of D.shown self.old) message.now x f message.now.kind).target) }
        ensures lines { OnOk result ((x : Content) (f : Fate) → lines.new ≡ lines.old ++ (turned_now k (served_of D.shown self.old) message.now x f message.now.kind).lines) }
        ensures sent { OnOk result ((x : Content) (f : Fate) → mail.new ≡ mail.old ++ map fresh (turned_now k (served_of D.shown self.old) message.now x f message.now.kind).sent) }
        ensures disk { self.new.node.disk ≡ self.old.node.disk }
        ensures place { (self.new.cluster ≡ self.old.cluster) × (self.new.index ≡ self.old.index) }
    {
        let from = message.from as u8;
        match message.kind {
            MessageKind::Release => self.on_release(k, message, mail, lines),
            MessageKind::Executed => {
                let event = Event::Executed(from, message.attempt);
                self.on_done(k, message, event, lines)
            }
            MessageKind::Released => {
                let event = Event::Released(from, message.attempt);
                self.on_done(k, message, event, lines)
            }
            MessageKind::Stable => {
                self.note_stable(from, message.value);
                Ok(())
            }
            MessageKind::Cancel => {
                self.node.cancel(from, message.value);
                Ok(())
            }
            _ => unreachable!(),
        }
    }

    /// Takes a message of another target, of its epoch, after which it stands.
    fn receive_order(
        &mut self,
        k: u32,
        message: &Message,
        content: Content,
        mail: &mut Mail,
        lines: &mut Lines,
    ) -> Result<(), Memory>
        requires order { is_order message.now.kind ≡ true }
        requires from { message.now.from ≤ 15 }
        requires may { MayTake self.old.cluster self.old.index message.now content }
        ensures after { OnOk result ((f : Fate) → served_of D.shown self.new ≡ (turned_now k (served_of D.shown self.old) message.now content f message.now.kind).target) }
        ensures lines { OnOk result ((f : Fate) → lines.new ≡ lines.old ++ (turned_now k (served_of D.shown self.old) message.now content f message.now.kind).lines) }
        ensures sent { OnOk result ((f : Fate) → mail.new ≡ mail.old ++ map fresh (turned_now k (served_of D.shown self.old) message.now content f message.now.kind).sent) }
        ensures disk { self.new.node.disk ≡ self.old.node.disk }
        ensures place { (self.new.cluster ≡ self.old.cluster) × (self.new.index ≡ self.old.index) }
    {
        match message.kind {
            MessageKind::Hold => self.receive_hold(k, message, content, mail, lines),
            MessageKind::Execute => self.receive_record(k, message, content, mail, lines),
            _ => self.receive_note(k, message, mail, lines),
        }
    }

    /// Takes a message of another target, of its epoch, that has no body and after which it may have stopped.
    fn receive_signal(
        &mut self,
        k: u32,
        message: &Message,
        mail: &mut Mail,
        lines: &mut Lines,
    ) -> Result<Ran, Memory>
        requires here { self.old.index ≤ 15 }
        requires signal { is_signal message.now.kind ≡ true }
        requires fits { FitsMessage message.now }
        requires from { message.now.from ≤ 15 }
        ensures after { IfOk result (λ ran. (x : Content) → after_ran ran (served_of D.shown self.new) ≡ (turned_now k (served_of D.shown self.old) message.now x (fate_of (after_ran ran (served_of D.shown self.new))) message.now.kind).target) }
        ensures lines { IfOk result (λ ran. (x : Content) → lines.new ≡ lines.old ++ (turned_now k (served_of D.shown self.old) message.now x (fate_of (after_ran ran (served_of D.shown self.new))) message.now.kind).lines) }
        ensures sent { IfOk result (λ ran. (x : Content) → mail.new ≡ mail.old ++ map fresh (turned_now k (served_of D.shown self.old) message.now x (fate_of (after_ran ran (served_of D.shown self.new))) message.now.kind).sent) }
        ensures touches { Touches (D.shown self.old.node.disk) (D.shown self.new.node.disk) }
        ensures cause { IfOk result (RanCauses (D.shown self.old.node.disk) (D.shown self.new.node.disk)) }
        ensures place { (self.new.cluster ≡ self.old.cluster) × (self.new.index ≡ self.old.index) }
    {
        match message.kind {
            MessageKind::HoldBusy => self.receive_busy(k, message, mail, lines),
            MessageKind::Synced => self.on_answer(k, message, Event::Synced, mail, lines),
            MessageKind::Sync => self.on_sync(k, message, mail, lines),
            _ => unreachable!(),
        }
    }

    /// Takes a message of another target, of its epoch. Memory is wanted too where no target sent it.
    fn receive_now(
        &mut self,
        k: u32,
        message: &Message,
        content: Content,
        mail: &mut Mail,
        lines: &mut Lines,
    ) -> Result<Ran, Memory>
        requires other { is_request message.now.kind ≡ false }
        requires may { MayTake self.old.cluster self.old.index message.now content }
        ensures after { IfOk result (λ ran. after_ran ran (served_of D.shown self.new) ≡ (turned_now k (served_of D.shown self.old) message.now content (fate_of (after_ran ran (served_of D.shown self.new))) message.now.kind).target) }
        ensures lines { IfOk result (λ ran. lines.new ≡ lines.old ++ (turned_now k (served_of D.shown self.old) message.now content (fate_of (after_ran ran (served_of D.shown self.new))) message.now.kind).lines) }
        ensures sent { IfOk result (λ ran. mail.new ≡ mail.old ++ map fresh (turned_now k (served_of D.shown self.old) message.now content (fate_of (after_ran ran (served_of D.shown self.new))) message.now.kind).sent) }
        ensures touches { Touches (D.shown self.old.node.disk) (D.shown self.new.node.disk) }
        ensures cause { IfOk result (RanCauses (D.shown self.old.node.disk) (D.shown self.new.node.disk)) }
        ensures place { (self.new.cluster ≡ self.old.cluster) × (self.new.index ≡ self.old.index) }
    {
        if message.from > 15 {
            return Err(Memory);
        }
        match message.kind {
            MessageKind::Held => self.receive_facts(k, message, content, mail, lines),
            MessageKind::HoldBusy | MessageKind::Sync | MessageKind::Synced => {
                self.receive_signal(k, message, mail, lines)
            }
            _ => stands(self.receive_order(k, message, content, mail, lines)),
        }
    }

    /// Takes a message, which has this number, with what it says.
    pub fn receive(
        &mut self,
        k: u32,
        message: &Message,
        content: Content,
        mail: &mut Mail,
        lines: &mut Lines,
    ) -> Result<Ran, Memory>
        requires { MayTake self.old.cluster self.old.index message.now content }
        ensures after { IfOk result (λ ran. after_ran ran (served_of D.shown self.new) ≡ (turned_up k (served_of D.shown self.old) message.now content (fate_of (after_ran ran (served_of D.shown self.new)))).target) }
        ensures lines { IfOk result (λ ran. lines.new ≡ lines.old ++ (turned_up k (served_of D.shown self.old) message.now content (fate_of (after_ran ran (served_of D.shown self.new)))).lines) }
        ensures sent { IfOk result (λ ran. mail.new ≡ mail.old ++ map fresh (turned_up k (served_of D.shown self.old) message.now content (fate_of (after_ran ran (served_of D.shown self.new)))).sent) }
        ensures touches { Touches (D.shown self.old.node.disk) (D.shown self.new.node.disk) }
        ensures cause { IfOk result (RanCauses (D.shown self.old.node.disk) (D.shown self.new.node.disk)) }
        ensures place { (self.new.cluster ≡ self.old.cluster) × (self.new.index ≡ self.old.index) }
    {
        if is_request(message.kind) {
            return self.receive_request(message, content, mail, lines);
        }
        if message.epoch != self.node.epoch() {
            lines.push(Line::Ignored(k))?;
            return Ok(Ran::Stands);
        }
        self.receive_now(k, message, content, mail, lines)
    }
}
