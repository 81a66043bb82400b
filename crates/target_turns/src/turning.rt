//! What a target does with a message or a command, whatever its state.

ghost use Rattle.std.specs.Prelude.{◌≡◌, ◌≤◌, ◌++◌, map, OnOk, IfOk};
ghost use Rattle.update_record.specs.Messages.{FitsMessage};
ghost use Rattle.cluster_mail.specs.Mail.{fresh};
ghost use Rattle.target_turns.specs.Target.{fate_of};
ghost use Rattle.target_turns.specs.Target as value;
ghost use Rattle.target_turns.specs.Turn.{turned, turned_away, awaits, bounced};
ghost use Rattle.target_turns.specs.Taking.{MayTake};
ghost use Rattle.target_turns.specs.Touching.{Touches, RanCauses};
ghost use Rattle.target_turns.specs.Seen.{served_of, after_ran};
ghost use Rattle.target_turns.specs.Commanded.{commits_by, resends, hears_bounce, MayBe};
ghost use Rattle.target_turns.specs.Showing.{shows_log};

use crate::served::{Ran, Served};
use crate::showing::show_log;
use crate::target::{State, Target};
use cluster_mail::{Content, Mail};
use outside::{Disk, Plant};
use scenario_text::{Line, Lines};
use std::alloc::AllocError as Memory;
use update_coordinator::Event;
use update_record::{Message, MessageKind};

/// Adds the line of a message to a target that doesn't serve.
fn turn_away(k: u32, message: &Message, lines: &mut Lines) -> Result<(), Memory>
    requires { FitsMessage message.now }
    ensures { OnOk result ((t : value.Target) → lines.new ≡ lines.old ++ (turned_away k t message.now).lines) }
{
    if message.kind == MessageKind::Request {
        return lines.push(Line::Recovering {
            number: message.number,
            target: message.to as u8,
        });
    }
    lines.push(Line::Ignored(k))
}

impl<D: Disk> Served<D> {
    /// Whether its attempt waits for what this message of its own asks another target.
    fn awaits(&self, message: &Message) -> bool
        requires { message.now.to ≤ 15 }
        ensures { result ≡ awaits (served_of D.shown self.now) message.now }
    {
        message.epoch == self.node.epoch()
            && self
                .coordinator
                .awaits(message.to as u8, message.attempt, message.ask)
    }

    /// Hears that the target that its attempt waits for doesn't serve.
    fn bounce(
        &mut self,
        message: &Message,
        mail: &mut Mail,
        lines: &mut Lines,
    ) -> Result<Ran, Memory>
        requires here { self.old.index ≤ 15 }
        requires to { message.now.to ≤ 15 }
        ensures after { IfOk result (λ ran. after_ran ran (served_of D.shown self.new) ≡ (bounced (served_of D.shown self.old) message.now (fate_of (after_ran ran (served_of D.shown self.new)))).target) }
        ensures lines { IfOk result (λ ran. lines.new ≡ lines.old ++ (bounced (served_of D.shown self.old) message.now (fate_of (after_ran ran (served_of D.shown self.new)))).lines) }
        ensures sent { IfOk result (λ ran. mail.new ≡ mail.old ++ map fresh (bounced (served_of D.shown self.old) message.now (fate_of (after_ran ran (served_of D.shown self.new)))).sent) }
        ensures touches { Touches (D.shown self.old.node.disk) (D.shown self.new.node.disk) }
        ensures cause { IfOk result (RanCauses (D.shown self.old.node.disk) (D.shown self.new.node.disk)) }
        ensures place { (self.new.cluster ≡ self.old.cluster) × (self.new.index ≡ self.old.index) }
    {
        let event = Event::Down(message.to as u8);
        self.hear(message.number, event, mail, lines)
    }
}

impl<D: Plant> Target<D> {
    /// Takes a message, which has this number, with what it says. Where its disk fails it is down after that.
    pub fn receive(
        &mut self,
        k: u32,
        message: &Message,
        content: Content,
        mail: &mut Mail,
        lines: &mut Lines,
    ) -> Result<(), Memory>
        requires may { MayTake self.old.targets self.old.index message.now content }
        ensures after { OnOk result (self.new ≡ (turned k self.old message.now content (fate_of self.new)).target) }
        ensures lines { OnOk result (lines.new ≡ lines.old ++ (turned k self.old message.now content (fate_of self.new)).lines) }
        ensures sent { OnOk result (mail.new ≡ mail.old ++ map fresh (turned k self.old message.now content (fate_of self.new)).sent) }
        ensures place { (self.new.targets ≡ self.old.targets) × (self.new.index ≡ self.old.index) }
        ensures fate { OnOk result (MayBe self.old (fate_of self.new)) }
        ensures touches { Touches self.old.disk self.new.disk }
    {
        let ran = match &mut self.state {
            Some(State::Serving(served)) => served.receive(k, message, content, mail, lines)?,
            Some(State::Opened(_)) => return turn_away(k, message, lines),
            Some(State::Down(_)) => return turn_away(k, message, lines),
            None => unreachable!(),
        };
        self.settle(ran);
        Ok(())
    }

    /// Whether its attempt waits for what this message of its own asks another target.
    pub fn awaits(&self, message: &Message) -> bool
        requires { message.now.to ≤ 15 }
        ensures { result ≡ awaits self.now message.now }
    {
        match &self.state {
            Some(State::Serving(served)) => served.awaits(message),
            Some(State::Opened(_)) => false,
            Some(State::Down(_)) => false,
            None => unreachable!(),
        }
    }

    /// Hears that the other target, which its attempt waits for, doesn't serve. Where its disk fails it is down after
    /// that.
    pub fn bounce(
        &mut self,
        message: &Message,
        mail: &mut Mail,
        lines: &mut Lines,
    ) -> Result<(), Memory>
        requires here { self.old.index ≤ 15 }
        requires to { message.now.to ≤ 15 }
        ensures after { OnOk result (self.new ≡ (hears_bounce self.old message.now (fate_of self.new)).target) }
        ensures lines { OnOk result (lines.new ≡ lines.old ++ (hears_bounce self.old message.now (fate_of self.new)).lines) }
        ensures sent { OnOk result (mail.new ≡ mail.old ++ map fresh (hears_bounce self.old message.now (fate_of self.new)).sent) }
        ensures place { (self.new.targets ≡ self.old.targets) × (self.new.index ≡ self.old.index) }
        ensures fate { OnOk result (MayBe self.old (fate_of self.new)) }
        ensures touches { Touches self.old.disk self.new.disk }
    {
        let ran = match &mut self.state {
            Some(State::Serving(served)) => served.bounce(message, mail, lines)?,
            Some(State::Opened(_)) => return Ok(()),
            Some(State::Down(_)) => return Ok(()),
            None => unreachable!(),
        };
        self.settle(ran);
        Ok(())
    }

    /// Commits it, where it serves. Where its disk fails it is down after that.
    pub fn commit(&mut self, mail: &mut Mail, lines: &mut Lines) -> Result<(), Memory>
        requires here { self.old.index ≤ 15 }
        ensures after { OnOk result (self.new ≡ (commits_by self.old (fate_of self.new)).target) }
        ensures lines { OnOk result (lines.new ≡ lines.old ++ (commits_by self.old (fate_of self.new)).lines) }
        ensures sent { OnOk result (mail.new ≡ mail.old ++ map fresh (commits_by self.old (fate_of self.new)).sent) }
        ensures place { (self.new.targets ≡ self.old.targets) × (self.new.index ≡ self.old.index) }
        ensures fate { OnOk result (MayBe self.old (fate_of self.new)) }
        ensures touches { Touches self.old.disk self.new.disk }
    {
        let ran = match &mut self.state {
            Some(State::Serving(served)) => served.commit(mail, lines)?,
            Some(State::Opened(_)) => return lines.push(self.state_line()),
            Some(State::Down(_)) => return lines.push(self.state_line()),
            None => unreachable!(),
        };
        self.settle(ran);
        Ok(())
    }

    /// Sends once more what wasn't answered, where it serves.
    pub fn resend(&self, mail: &mut Mail) -> Result<(), Memory>
        requires here { self.now.index ≤ 15 }
        ensures { OnOk result (mail.new ≡ mail.old ++ map fresh (resends self.now)) }
    {
        match &self.state {
            Some(State::Serving(served)) => served.resend(mail),
            Some(State::Opened(_)) => Ok(()),
            Some(State::Down(_)) => Ok(()),
            None => unreachable!(),
        }
    }

    /// Adds the lines of its log, or what it does where it is down.
    pub fn show_log(&self, lines: &mut Lines) -> Result<(), Memory>
        ensures { OnOk result (lines.new ≡ lines.old ++ shows_log self.now) }
    {
        match &self.state {
            Some(State::Serving(served)) => show_log(self.alloc, self.index, &served.node, lines),
            Some(State::Opened(node)) => show_log(self.alloc, self.index, node, lines),
            Some(State::Down(_)) => lines.push(self.state_line()),
            None => unreachable!(),
        }
    }
}
