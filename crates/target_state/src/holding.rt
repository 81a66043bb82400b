//! Who holds the target, and what it tells.

ghost use Rattle.std.specs.Prelude.{◌≡◌, ◌<◌, ◌≤◌, All, length, IfOk, OnOk, OnErr};
ghost use Rattle.out_update.specs.Spelling.{FitsUpdate};
ghost use Rattle.target_state.specs.Rules.{is_held_by, is_past, with_ended, held_taking, taken, after_hold, is_stripe, writer_told, results_told, facts, answer_as, let_go, after_release, release_answer};
ghost use Rattle.out_update.specs.Replies.{FitsReply};
ghost use Rattle.update_record.specs.Messages.{FitsWriter, FitsFacts};
ghost use Rattle.target_state.specs.Image.{state_text};
ghost use Rattle.target_state.specs.Holding.{FitsHold};

use crate::answers::{HoldAnswer, ReleaseAnswer};
use crate::state::State;
use fid_space::{Class, Targets, class_of};
use out_update::{Kind, UpdateReply, UpdateRequest};
use std::alloc::AllocError as Memory;
use update_record::{Attempt, Facts};

/// How a target takes an attempt that wants to hold it.
#[derive(Clone, Copy, Debug)]
pub enum Taking {
    /// Nothing holds it: the attempt does from now on.
    Comes,
    /// The attempt holds it already.
    Stays,
    /// An earlier attempt of the same request holds it, and gives way.
    TakesOver(Attempt),
    /// Another request holds it, or a later attempt of the same.
    Busy(u32),
    /// The attempt is of another epoch, or has ended here.
    Ended,
}

/// Whether this attempt holds.
pub(crate) fn is_held_by(holder: Option<Attempt>, by: Attempt) -> bool
    ensures { result ≡ is_held_by holder by }
{
    match holder {
        None => false,
        Some(holder) => holder == by,
    }
}

/// Whether the attempt, or a later one of its master, ended.
fn is_past(ended: &[u64; 16], by: Attempt) -> bool
    requires { by.master < 16 }
    ensures { result ≡ is_past ended.now by }
{
    by.attempt <= ended[by.master as usize]
}

/// Notes an attempt as ended.
fn end(ended: &mut [u64; 16], by: Attempt)
    requires { by.master < 16 }
    ensures { ended.new ≡ with_ended ended.old by }
{
    let last = ended[by.master as usize];
    ended[by.master as usize] = last.max(by.attempt);
}

/// How an attempt is taken by a target that is held.
fn taking_from(holder: Attempt, past: bool, by: Attempt) -> Taking
    ensures { result ≡ held_taking holder past by }
{
    if holder == by {
        Taking::Stays
    } else if past {
        Taking::Ended
    } else if holder.number == by.number && holder.attempt < by.attempt {
        Taking::TakesOver(holder)
    } else {
        Taking::Busy(holder.number)
    }
}

impl State {
    /// How it takes an attempt, by the cases of the rule in their order.
    fn taking(&self, by: Attempt) -> Taking
        requires { by.master < 16 }
        ensures { result ≡ taken self.now by }
    {
        if by.epoch != self.front.epoch {
            return Taking::Ended;
        }
        let past = is_past(&self.ended, by);
        match self.holder {
            None => { if past { Taking::Ended } else { Taking::Comes } }
            Some(holder) => taking_from(holder, past, by),
        }
    }

    /// The last uncommitted writer of what is asked for.
    fn writer(&self, ask: &UpdateRequest) -> Option<(u32, Targets)>
        ensures value { result ≡ writer_told self.now ask.now }
        ensures fits { FitsWriter result }
    {
        let update = ask.get(0)?;
        match update.kind {
            Kind::AttrGet => match class_of(self.front.cluster, update.fid) {
                Class::Stripe => None,
                _ => self.pending.writer(update.fid),
            },
            _ => self.pending.writer(update.fid),
        }
    }

    /// The result of the question.
    fn results(&self, ask: &UpdateRequest) -> Result<UpdateReply, Memory>
        requires { All FitsUpdate ask.now }
        ensures value { IfOk result (λ reply. reply ≡ results_told self.now ask.now) }
        ensures fits { IfOk result FitsReply }
    {
        let mut reply = UpdateReply::new(self.alloc);
        match ask.get(0) {
            None => Ok(reply),
            Some(update) => {
                let result = self.objects.read(self.alloc, update)?;
                reply.push(result)?;
                Ok(reply)
            }
        }
    }

    /// What it tells.
    fn facts(&self, ask: &UpdateRequest) -> Result<Facts, Memory>
        requires { All FitsUpdate ask.now }
        ensures value { IfOk result (λ f. f ≡ facts self.now (length (state_text self.now)) ask.now) }
        ensures fits { IfOk result FitsFacts }
    {
        Ok(Facts {
            load: self.load(),
            clock: self.clock(),
            writer: self.writer(ask),
            reply: self.results(ask)?,
        })
    }

    /// Holds the target for an attempt, and tells what it asks for. Want of memory changes nothing.
    pub fn hold(&mut self, by: Attempt, ask: &UpdateRequest) -> Result<HoldAnswer, Memory>
        requires master { by.master < 16 }
        requires ask { All FitsUpdate ask.now }
        ensures answer { IfOk result (λ a. a ≡ answer_as self.old (length (state_text self.old)) ask.now (taken self.old by)) }
        // What is told has a spelling.
        ensures spelled { IfOk result FitsHold }
        ensures state { OnOk result (self.new ≡ after_hold self.old by) }
        ensures err { OnErr result (self.new ≡ self.old) }
    {
        match self.taking(by) {
            Taking::Busy(number) => Ok(HoldAnswer::Busy(number)),
            Taking::Ended => Ok(HoldAnswer::Ended),
            Taking::Stays => Ok(HoldAnswer::Held(self.facts(ask)?)),
            Taking::Comes => {
                let facts = self.facts(ask)?;
                self.holder = Some(by);
                Ok(HoldAnswer::Held(facts))
            }
            Taking::TakesOver(old) => {
                let facts = self.facts(ask)?;
                end(&mut self.ended, old);
                self.holder = Some(by);
                Ok(HoldAnswer::Held(facts))
            }
        }
    }

    /// Lets go, with the attempt noted as ended.
    pub(crate) fn let_go(&mut self, by: Attempt)
        requires { by.master < 16 }
        ensures { self.new ≡ let_go self.old by }
    {
        self.holder = None;
        end(&mut self.ended, by);
    }

    /// Lets the target go, or notes that the attempt has ended. It takes no memory.
    pub fn release(&mut self, by: Attempt) -> ReleaseAnswer
        requires { by.master < 16 }
        ensures answer { result ≡ release_answer self.old by }
        ensures state { self.new ≡ after_release self.old by }
    {
        if by.epoch != self.front.epoch {
            return ReleaseAnswer::Ended;
        }
        if is_held_by(self.holder, by) {
            self.let_go(by);
            return ReleaseAnswer::LetGo;
        }
        if is_past(&self.ended, by) {
            return ReleaseAnswer::Ended;
        }
        end(&mut self.ended, by);
        ReleaseAnswer::Noted
    }
}
