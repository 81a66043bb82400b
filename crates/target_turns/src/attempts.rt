//! An attempt goes on at its home, from where it stands to where it waits or is over.

ghost use Rattle.std.specs.Prelude.{◌≡◌, ◌≤◌, ◌++◌, map, IfOk};
ghost use Rattle.update_coordinator.specs.Fitting.{MayHear, FitsAction};
ghost use Rattle.cluster_mail.specs.Mail.{fresh};
ghost use Rattle.target_turns.specs.Target.{fate_of};
ghost use Rattle.target_turns.specs.Home.{writer_at, goes_on_synced, goes_on, own_attempt, hears_awaited};
ghost use Rattle.target_turns.specs.Marks.{syncing};
ghost use Rattle.target_turns.specs.Seen.{served_of, after_ran};
ghost use Rattle.target_turns.specs.Touching.{Touches, RanCauses};

use crate::served::{Ran, Served};
use cluster_mail::Mail;
use outside::Disk;
use scenario_text::Lines;
use std::alloc::AllocError as Memory;
use update_coordinator::{Action, Event};
use update_record::Attempt;

/// The request on account of whose writes the home has to commit, where that is what comes next.
fn writer_at(index: u8, action: &Action) -> Option<u32>
    ensures { result ≡ writer_at index action.now }
{
    match action {
        Action::Sync(target, writer) => {
            if *target == index {
                Some(*writer)
            } else {
                None
            }
        }
        _ => None,
    }
}

impl<D: Disk> Served<D> {
    /// Commits for an attempt of its own, and goes on where its disk didn't fail.
    fn go_on_synced(
        &mut self,
        by: Attempt,
        writer: u32,
        mail: &mut Mail,
        lines: &mut Lines,
    ) -> Result<Ran, Memory>
        requires here { self.old.index ≤ 15 }
        requires master { by.master ≤ 15 }
        ensures after { IfOk result (λ ran. after_ran ran (served_of D.shown self.new) ≡ (goes_on_synced by (syncing by.number writer (served_of D.shown self.old) (fate_of (after_ran ran (served_of D.shown self.new))))).target) }
        ensures lines { IfOk result (λ ran. lines.new ≡ lines.old ++ (goes_on_synced by (syncing by.number writer (served_of D.shown self.old) (fate_of (after_ran ran (served_of D.shown self.new))))).lines) }
        ensures sent { IfOk result (λ ran. mail.new ≡ mail.old ++ map fresh (goes_on_synced by (syncing by.number writer (served_of D.shown self.old) (fate_of (after_ran ran (served_of D.shown self.new))))).sent) }
        ensures touches { Touches (D.shown self.old.node.disk) (D.shown self.new.node.disk) }
        ensures cause { IfOk result (RanCauses (D.shown self.old.node.disk) (D.shown self.new.node.disk)) }
        ensures place { (self.new.cluster ≡ self.old.cluster) × (self.new.index ≡ self.old.index) }
    {
        match self.sync(by.number, writer, mail, lines)? {
            Ran::Stopped => Ok(Ran::Stopped),
            Ran::Stands => {
                let action = self.tell_coordinator(Event::Synced)?;
                let last = self.walk(by, action)?;
                self.finish(by, last, mail, lines)?;
                Ok(Ran::Stands)
            }
        }
    }

    /// Does what the coordinator says, until the attempt waits for another target or is over.
    pub fn go_on(
        &mut self,
        by: Attempt,
        action: Action,
        mail: &mut Mail,
        lines: &mut Lines,
    ) -> Result<Ran, Memory>
        requires here { self.old.index ≤ 15 }
        requires master { by.master ≤ 15 }
        requires fits { FitsAction action }
        ensures after { IfOk result (λ ran. after_ran ran (served_of D.shown self.new) ≡ (goes_on by (record { target = served_of D.shown self.old; action = action }) (fate_of (after_ran ran (served_of D.shown self.new)))).target) }
        ensures lines { IfOk result (λ ran. lines.new ≡ lines.old ++ (goes_on by (record { target = served_of D.shown self.old; action = action }) (fate_of (after_ran ran (served_of D.shown self.new)))).lines) }
        ensures sent { IfOk result (λ ran. mail.new ≡ mail.old ++ map fresh (goes_on by (record { target = served_of D.shown self.old; action = action }) (fate_of (after_ran ran (served_of D.shown self.new)))).sent) }
        ensures touches { Touches (D.shown self.old.node.disk) (D.shown self.new.node.disk) }
        ensures cause { IfOk result (RanCauses (D.shown self.old.node.disk) (D.shown self.new.node.disk)) }
        ensures place { (self.new.cluster ≡ self.old.cluster) × (self.new.index ≡ self.old.index) }
    {
        let last = self.walk(by, action)?;
        match writer_at(self.index, &last) {
            Some(writer) => self.go_on_synced(by, writer, mail, lines),
            None => {
                self.finish(by, last, mail, lines)?;
                Ok(Ran::Stands)
            }
        }
    }

    /// The attempt that began last, of this request.
    pub fn own_attempt(&self, number: u32) -> Attempt
        ensures value { result ≡ own_attempt (served_of D.shown self.now) number }
    {
        Attempt {
            epoch: self.node.epoch(),
            master: self.index,
            attempt: self.coordinator.attempt(),
            number,
        }
    }

    /// The home hears what its attempt of this request waits for, and goes on.
    pub fn hear(
        &mut self,
        number: u32,
        event: Event,
        mail: &mut Mail,
        lines: &mut Lines,
    ) -> Result<Ran, Memory>
        requires here { self.old.index ≤ 15 }
        requires may_hear { MayHear event }
        ensures after { IfOk result (λ ran. after_ran ran (served_of D.shown self.new) ≡ (hears_awaited (served_of D.shown self.old) number event (fate_of (after_ran ran (served_of D.shown self.new)))).target) }
        ensures lines { IfOk result (λ ran. lines.new ≡ lines.old ++ (hears_awaited (served_of D.shown self.old) number event (fate_of (after_ran ran (served_of D.shown self.new)))).lines) }
        ensures sent { IfOk result (λ ran. mail.new ≡ mail.old ++ map fresh (hears_awaited (served_of D.shown self.old) number event (fate_of (after_ran ran (served_of D.shown self.new)))).sent) }
        ensures touches { Touches (D.shown self.old.node.disk) (D.shown self.new.node.disk) }
        ensures cause { IfOk result (RanCauses (D.shown self.old.node.disk) (D.shown self.new.node.disk)) }
        ensures place { (self.new.cluster ≡ self.old.cluster) × (self.new.index ≡ self.old.index) }
    {
        let by = self.own_attempt(number);
        let action = self.tell_coordinator(event)?;
        self.go_on(by, action, mail, lines)
    }
}
