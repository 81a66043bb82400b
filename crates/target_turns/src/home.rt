//! What a home does for an attempt, from what its coordinator says.

ghost use Rattle.std.specs.Prelude.{◌≡◌, ◌≤◌, ◌<◌, ◌^◌, ◌++◌, ◌∷◌, [], ℕ, true, All, map, OnOk, IfOk};
ghost use Rattle.std.specs.List.{flat_map};
ghost use Rattle.out_update.specs.Spelling.{FitsUpdate};
ghost use Rattle.plan_base.specs.Planners.{FitsNeed};
ghost use Rattle.update_record.specs.Spelling.{FitsRecord, is_answer, targets_from};
ghost use Rattle.scenario_text.specs.declared.line.Line.{Line};
ghost use Rattle.target_state.specs.declared.holding.Taking.{Taking};
ghost use Rattle.target_state.specs.Rules.{taken};
ghost use Rattle.update_coordinator.specs.declared.words.Action.{Action};
ghost use Rattle.update_coordinator.specs.Fitting.{MayHear, FitsAction};
ghost use Rattle.cluster_mail.specs.Mail.{fresh};
ghost use Rattle.cluster_mail.specs.Asking.{hold_message, sync_message};
ghost use Rattle.target_turns.specs.Home.{execute_to, executes, release_to, releases, hears, looks, ends_with, accepts, finishes};
ghost use Rattle.target_turns.specs.Seen.{served_of};
ghost use Rattle.target_turns.specs.Stepping.{Steps, Walks};

use crate::committing::ALL;
use crate::served::Served;
use cluster_mail::{Mail, execute_message, hold_message, release_message, sync_message};
use fid_space::Targets;
use out_update::{Update, UpdateRequest};
use outside::Disk;
use scenario_text::{Line, Lines};
use std::alloc::AllocError as Memory;
use striped_dir::Need;
use target_state::HoldAnswer;
use tree_model::Reply;
use update_coordinator::{Action, Event};
use update_record::{Attempt, Record};

/// What the clock of a target stays below.
const CLOCK_END: u64 = 1 << 63;

/// How an attempt comes out of a step.
#[derive(Drop)]
pub(crate) enum Step {
    /// It goes on with this.
    Goes(Action),
    /// The step needs a disk call or another target, or the attempt is over.
    Rests(Action),
}

impl<D: Disk> Served<D> {
    /// The coordinator hears what an attempt waits for. Memory is wanted too where the attempt has asked 2^32 - 1
    /// times.
    pub(crate) fn tell_coordinator(&mut self, event: Event) -> Result<Action, Memory>
        requires { MayHear event }
        ensures action { IfOk result (λ a. a ≡ (hears (served_of D.shown self.old) event).action) }
        ensures after { OnOk result (served_of D.shown self.new ≡ (hears (served_of D.shown self.old) event).target) }
        ensures fits { IfOk result FitsAction }
        ensures node { self.new.node ≡ self.old.node }
        ensures place { (self.new.cluster ≡ self.old.cluster) × (self.new.index ≡ self.old.index) }
    {
        if self.coordinator.ask() == u32::MAX {
            return Err(Memory);
        }
        self.coordinator.on(event)
    }

    /// That the attempt holds this target, and that the clock is in its bounds.
    #[tactic(auto, using(crate::proofs::Staying::stays))]
    fn may_look(&self, by: Attempt) -> Result<(), Memory>
        ensures held { OnOk result (taken self.now.node.state by ≡ Taking.Stays) }
        ensures clock { OnOk result (self.now.node.state.clock < 2 ^ 63) }
    {
        let holds = by.epoch == self.node.epoch() && self.node.is_held_by(by);
        if holds && self.node.clock() < CLOCK_END {
            return Ok(());
        }
        Err(Memory)
    }

    /// Looks at an object here. Memory is wanted too where the attempt doesn't hold this target.
    fn look(&mut self, by: Attempt, ask: Update) -> Result<Action, Memory>
        requires master { by.master < 16 }
        requires ask { FitsUpdate ask }
        ensures action { IfOk result (λ a. a ≡ (looks (served_of D.shown self.old) ask).action) }
        ensures after { OnOk result (served_of D.shown self.new ≡ (looks (served_of D.shown self.old) ask).target) }
        ensures fits { IfOk result FitsAction }
        ensures disk { self.new.node.disk ≡ self.old.node.disk }
        ensures place { (self.new.cluster ≡ self.old.cluster) × (self.new.index ≡ self.old.index) }
    {
        self.may_look(by)?;
        let mut question = UpdateRequest::new(self.alloc);
        question.push(ask)?;
        match self.node.hold(by, &question)? {
            HoldAnswer::Held(facts) => self.tell_coordinator(Event::Fact(facts)),
            HoldAnswer::Busy(_) | HoldAnswer::Ended => unreachable!(),
        }
    }

    /// An ask that may be about an object here.
    fn step_ask(&mut self, by: Attempt, need: Need) -> Result<Step, Memory>
        requires master { by.master < 16 }
        requires fits { FitsAction (Action.Ask need) }
        ensures step { IfOk result (λ s. Steps (served_of D.shown self.old) (served_of D.shown self.new) (Action.Ask need) s) }
        ensures disk { self.new.node.disk ≡ self.old.node.disk }
        ensures place { (self.new.cluster ≡ self.old.cluster) × (self.new.index ≡ self.old.index) }
    {
        if need.target == self.index {
            return Ok(Step::Goes(self.look(by, need.ask)?));
        }
        Ok(Step::Rests(Action::Ask(need)))
    }

    /// A commit that may be one of this target, where nothing waits for it.
    fn step_sync(&mut self, target: u8, writer: u32) -> Result<Step, Memory>
        requires fits { FitsAction (Action.Sync target writer) }
        ensures step { IfOk result (λ s. Steps (served_of D.shown self.old) (served_of D.shown self.new) (Action.Sync target writer) s) }
        ensures disk { self.new.node.disk ≡ self.old.node.disk }
        ensures place { (self.new.cluster ≡ self.old.cluster) × (self.new.index ≡ self.old.index) }
    {
        if target == self.index && self.node.is_idle() {
            return Ok(Step::Goes(self.tell_coordinator(Event::Synced)?));
        }
        Ok(Step::Rests(Action::Sync(target, writer)))
    }

    /// Does one thing that the coordinator says, if it needs no disk call and no other target.
    fn step(&mut self, by: Attempt, action: Action) -> Result<Step, Memory>
        requires master { by.master < 16 }
        requires fits { FitsAction action }
        ensures step { IfOk result (λ s. Steps (served_of D.shown self.old) (served_of D.shown self.new) action s) }
        ensures disk { self.new.node.disk ≡ self.old.node.disk }
        ensures place { (self.new.cluster ≡ self.old.cluster) × (self.new.index ≡ self.old.index) }
    {
        match action {
            Action::Ask(need) => self.step_ask(by, need),
            Action::Sync(target, writer) => self.step_sync(target, writer),
            other => Ok(Step::Rests(other)),
        }
    }

    /// Does what the coordinator says, until that needs a disk call or another target, or the attempt is over.
    pub(crate) fn walk(&mut self, by: Attempt, action: Action) -> Result<Action, Memory>
        requires master { by.master < 16 }
        requires fits { FitsAction action }
        ensures walk { IfOk result (λ last. Walks (served_of D.shown self.old) (served_of D.shown self.new) action last) }
        ensures disk { self.new.node.disk ≡ self.old.node.disk }
        ensures place { (self.new.cluster ≡ self.old.cluster) × (self.new.index ≡ self.old.index) }
    {
        let mut next = action;
        for _step in 0..u64::MAX {
            match self.step(by, next)? {
                Step::Goes(action) => next = action,
                Step::Rests(action) => return Ok(action),
            }
        }
        Err(Memory)
    }

    /// Has a target let go, where it is one of these.
    fn tell_release(
        &self,
        by: Attempt,
        on: Targets,
        target: u8,
        mail: &mut Mail,
    ) -> Result<(), Memory>
        requires master { by.master ≤ 15 }
        requires target { target < 16 }
        ensures { OnOk result (mail.new ≡ mail.old ++ map fresh (release_to by on target)) }
    {
        if on.has(target) {
            return mail.post(&release_message(self.alloc, by, target));
        }
        Ok(())
    }

    /// Has those of these targets let go that are in the set.
    #[tactic(auto, using(crate::proofs::Joining::joined))]
    fn tell_releases_to(
        &self,
        by: Attempt,
        on: Targets,
        targets: &[u8],
        mail: &mut Mail,
    ) -> Result<(), Memory>
        requires master { by.master ≤ 15 }
        requires below { All (λ (t : ℕ). t < 16) targets.now }
        ensures { OnOk result (mail.new ≡ mail.old ++ map fresh (flat_map (release_to by on) targets.now)) }
    {
        for target in targets {
            self.tell_release(by, on, *target, mail)?;
        }
        Ok(())
    }

    /// Has the targets of a set let go, ascending.
    #[tactic(auto, unfolding(crate::specs::Home::releases))]
    fn tell_releases(&self, by: Attempt, on: Targets, mail: &mut Mail) -> Result<(), Memory>
        requires master { by.master ≤ 15 }
        ensures { OnOk result (mail.new ≡ mail.old ++ map fresh (releases by on)) }
    {
        self.tell_releases_to(by, on, &ALL, mail)
    }

    /// Sends the record to a target, where it is another one that takes part.
    fn tell_execute(
        &self,
        by: Attempt,
        entry: &Record,
        target: u8,
        mail: &mut Mail,
    ) -> Result<(), Memory>
        requires master { by.master ≤ 15 }
        requires entry { FitsRecord entry.now }
        requires target { target < 16 }
        ensures { OnOk result (mail.new ≡ mail.old ++ map fresh (execute_to by self.now.index entry.now target)) }
    {
        if entry.targets().has(target) && target != self.index {
            let message = execute_message(self.alloc, by, target, entry)?;
            return mail.post(&message);
        }
        Ok(())
    }

    /// Sends the record to those of these targets that are others that take part.
    #[tactic(auto, using(crate::proofs::Joining::joined))]
    fn tell_executes_to(
        &self,
        by: Attempt,
        entry: &Record,
        targets: &[u8],
        mail: &mut Mail,
    ) -> Result<(), Memory>
        requires master { by.master ≤ 15 }
        requires entry { FitsRecord entry.now }
        requires below { All (λ (t : ℕ). t < 16) targets.now }
        ensures { OnOk result (mail.new ≡ mail.old ++ map fresh (flat_map (execute_to by self.now.index entry.now) targets.now)) }
    {
        for target in targets {
            self.tell_execute(by, entry, *target, mail)?;
        }
        Ok(())
    }

    /// Sends the record to each other target that takes part, ascending.
    #[tactic(auto, unfolding(crate::specs::Home::executes))]
    fn tell_executes(&self, by: Attempt, entry: &Record, mail: &mut Mail) -> Result<(), Memory>
        requires master { by.master ≤ 15 }
        requires entry { FitsRecord entry.now }
        ensures { OnOk result (mail.new ≡ mail.old ++ map fresh (executes by self.now.index entry.now)) }
    {
        self.tell_executes_to(by, entry, &ALL, mail)
    }

    /// Asks another target about an object.
    fn ask(&self, by: Attempt, need: Need, mail: &mut Mail) -> Result<(), Memory>
        requires master { by.master ≤ 15 }
        requires need { FitsNeed need }
        ensures { OnOk result (mail.new ≡ mail.old ++ fresh (hold_message by need.target self.now.coordinator.asks (need.ask ∷ [])) ∷ []) }
    {
        let Need { target, ask } = need;
        let mut question = UpdateRequest::new(self.alloc);
        question.push(ask)?;
        let number = self.coordinator.ask();
        let message = hold_message(self.alloc, by, target, number, &question)?;
        mail.post(&message)
    }

    /// Holds another target without a question.
    fn hold_only(&self, by: Attempt, target: u8, mail: &mut Mail) -> Result<(), Memory>
        requires master { by.master ≤ 15 }
        requires target { target < 16 }
        ensures { OnOk result (mail.new ≡ mail.old ++ fresh (hold_message by target self.now.coordinator.asks []) ∷ []) }
    {
        let question = UpdateRequest::new(self.alloc);
        let number = self.coordinator.ask();
        let message = hold_message(self.alloc, by, target, number, &question)?;
        mail.post(&message)
    }

    /// Has another target commit, because of what this writer wrote.
    fn ask_sync(&self, by: Attempt, target: u8, writer: u32, mail: &mut Mail) -> Result<(), Memory>
        requires master { by.master ≤ 15 }
        requires target { target < 16 }
        ensures { OnOk result (mail.new ≡ mail.old ++ fresh (sync_message by target self.now.coordinator.asks writer) ∷ []) }
    {
        let number = self.coordinator.ask();
        mail.post(&sync_message(self.alloc, by, target, number, writer))
    }

    /// Accepts an operation: its part here is executed, and the other targets get the record. Memory is wanted too
    /// where there is no room here.
    fn accept(
        &mut self,
        by: Attempt,
        entry: Record,
        mail: &mut Mail,
        lines: &mut Lines,
    ) -> Result<(), Memory>
        requires master { by.master ≤ 15 }
        requires entry { FitsRecord entry }
        ensures after { OnOk result (served_of D.shown self.new ≡ (accepts by (served_of D.shown self.old) entry).target) }
        ensures lines { OnOk result (lines.new ≡ lines.old ++ (accepts by (served_of D.shown self.old) entry).lines) }
        ensures sent { OnOk result (mail.new ≡ mail.old ++ map fresh (accepts by (served_of D.shown self.old) entry).sent) }
        ensures disk { self.new.node.disk ≡ self.old.node.disk }
        ensures place { (self.new.cluster ≡ self.old.cluster) × (self.new.index ≡ self.old.index) }
    {
        self.room(&entry)?;
        let _ = self.node.execute(by, &entry)?;
        self.tell_executes(by, &entry, mail)?;
        let on = self.coordinator.releases();
        self.tell_releases(by, on, mail)?;
        tell_accept(entry, lines)
    }

    /// Ends an attempt that accepts nothing: this target lets go, and each other one that was asked.
    fn end(
        &mut self,
        by: Attempt,
        line: Line,
        mail: &mut Mail,
        lines: &mut Lines,
    ) -> Result<(), Memory>
        requires master { by.master ≤ 15 }
        ensures after { OnOk result (served_of D.shown self.new ≡ (ends_with by (served_of D.shown self.old) line).target) }
        ensures lines { OnOk result (lines.new ≡ lines.old ++ (ends_with by (served_of D.shown self.old) line).lines) }
        ensures sent { OnOk result (mail.new ≡ mail.old ++ map fresh (ends_with by (served_of D.shown self.old) line).sent) }
        ensures disk { self.new.node.disk ≡ self.old.node.disk }
        ensures place { (self.new.cluster ≡ self.old.cluster) × (self.new.index ≡ self.old.index) }
    {
        lines.push(line)?;
        let _ = self.node.release(by);
        let on = self.coordinator.releases();
        self.tell_releases(by, on, mail)
    }

    /// Asks a target, or ends the attempt.
    pub(crate) fn finish(
        &mut self,
        by: Attempt,
        action: Action,
        mail: &mut Mail,
        lines: &mut Lines,
    ) -> Result<(), Memory>
        requires master { by.master ≤ 15 }
        requires fits { FitsAction action }
        ensures after { OnOk result (served_of D.shown self.new ≡ (finishes by (served_of D.shown self.old) action).target) }
        ensures lines { OnOk result (lines.new ≡ lines.old ++ (finishes by (served_of D.shown self.old) action).lines) }
        ensures sent { OnOk result (mail.new ≡ mail.old ++ map fresh (finishes by (served_of D.shown self.old) action).sent) }
        ensures disk { self.new.node.disk ≡ self.old.node.disk }
        ensures place { (self.new.cluster ≡ self.old.cluster) × (self.new.index ≡ self.old.index) }
    {
        let number = by.number;
        match action {
            Action::Nothing => Ok(()),
            Action::Ask(need) => self.ask(by, need, mail),
            Action::HoldOnly(target) => self.hold_only(by, target, mail),
            Action::Sync(target, writer) => self.ask_sync(by, target, writer, mail),
            Action::Accept(entry) => self.accept(by, entry, mail, lines),
            Action::Answer(reply) => self.end(by, Line::Reply { number, reply }, mail, lines),
            Action::Busy(holder) => self.end(by, Line::Busy { number, holder }, mail, lines),
            Action::Full(target, load, need) => {
                let line = full_line(number, target, load, need);
                self.end(by, line, mail, lines)
            }
            Action::Recovering(target) => {
                self.end(by, Line::Recovering { number, target }, mail, lines)
            }
        }
    }
}

/// The line of an attempt that ended for want of room.
fn full_line(number: u32, target: u8, load: u64, need: u64) -> Line
    ensures { result ≡ Line.Full number target load need }
{
    Line::Full {
        number,
        target,
        load,
        need,
    }
}

/// Adds the lines of an operation that was accepted.
fn tell_accept(entry: Record, lines: &mut Lines) -> Result<(), Memory>
    requires { FitsRecord entry }
    ensures { OnOk result (lines.new ≡ lines.old ++ Line.Accept entry.number entry.reply (targets_from 0 entry.parts) ∷ Line.Reply entry.number entry.reply ∷ []) }
{
    let number = entry.number;
    let on = entry.targets();
    let reply = copy_answer(&entry.reply);
    lines.push(Line::Accept { number, reply, on })?;
    lines.push(Line::Reply {
        number,
        reply: entry.reply,
    })
}

/// A copy of the reply of a record, which is `Ok` or an error.
fn copy_answer(reply: &Reply) -> Reply
    requires { is_answer reply.now ≡ true }
    ensures { result ≡ reply.now }
{
    match reply {
        Reply::Err(errno) => Reply::Err(*errno),
        _ => Reply::Ok,
    }
}
