ghost use Rattle.std.specs.Prelude.{◌≡◌, ◌<◌, ◌++◌, ◌∷◌, [], ℕ, All, IfOk, OnOk};
ghost use Rattle.std.specs.List.{flat_map};
ghost use Rattle.out_update.specs.Spelling.{FitsRequest};
ghost use Rattle.plan_base.specs.Planners.{FitsNeed};
ghost use Rattle.update_record.specs.Messages.{AsksOne, FitsMessage};
ghost use Rattle.update_record.specs.Spelling.{FitsRecord};
ghost use Rattle.update_coordinator.specs.Fitting.{FitsWaits};
ghost use Rattle.update_coordinator.specs.Resending.{hold_message, sync_message, ask_message, asks_of, execute_message, release_message, execute_to, release_to, releases_to, executes_from, releases_from, resent};

use crate::coordinator::Coordinator;
use crate::course::ALL;
use crate::words::{Flight, Going, Waits};
use fid_space::Bytes;
use out_update::UpdateRequest;
use std::alloc::{AllocError as Memory, Global};
use striped_dir::Need;
use update_record::{Message, MessageKind, Messages, Record};

/// Adds a message at the end.
fn add_message(out: &mut Messages, message: Message) -> Result<(), Memory>
    requires message { FitsMessage message }
    requires fits { All FitsMessage out.old }
    ensures value { OnOk result (out.new ≡ out.old ++ message ∷ []) }
    ensures fits { OnOk result (All FitsMessage out.new) }
{
    out.push(message)?;
    Ok(())
}

impl Coordinator {
    /// The last ask as a Hold, with a question or none.
    #[tactic(auto, using(crate::proofs::Spelled::hold_fits))]
    fn hold(
        &self,
        alloc: Global,
        number: u32,
        target: u8,
        question: &UpdateRequest,
    ) -> Result<Message, Memory>
        requires target { target < 16 }
        requires fits { FitsRequest question.now }
        requires one { AsksOne question.now }
        ensures value { IfOk result (λ m. m ≡ hold_message self.now number target question.now) }
        ensures fits { IfOk result FitsMessage }
    {
        let mut body = Bytes::new(alloc);
        question.encode(&mut body)?;
        Ok(Message {
            kind: MessageKind::Hold,
            epoch: self.epoch(),
            from: self.master as u32,
            to: target as u32,
            number,
            attempt: self.attempt(),
            ask: self.ask(),
            value: 0,
            body,
        })
    }

    /// A look as a Hold.
    #[tactic(auto, using(crate::proofs::Spelled::one_asked))]
    fn look(&self, alloc: Global, number: u32, need: &Need) -> Result<Message, Memory>
        requires { FitsNeed need.now }
        ensures value { IfOk result (λ m. m ≡ hold_message self.now number need.now.target (need.now.ask ∷ [])) }
        ensures fits { IfOk result FitsMessage }
    {
        let mut question = UpdateRequest::new(alloc);
        question.push(need.ask.copy(alloc)?)?;
        self.hold(alloc, number, need.target, &question)
    }

    /// A Hold that asks nothing.
    #[tactic(auto, using(crate::proofs::Spelled::none_asked))]
    fn hold_only(&self, alloc: Global, number: u32, target: u8) -> Result<Message, Memory>
        requires { target < 16 }
        ensures value { IfOk result (λ m. m ≡ hold_message self.now number target []) }
        ensures fits { IfOk result FitsMessage }
    {
        self.hold(alloc, number, target, &UpdateRequest::new(alloc))
    }

    /// The last ask as a Sync.
    #[tactic(auto, using(crate::proofs::Spelled::sync_fits))]
    fn sync_message(&self, alloc: Global, number: u32, target: u8, writer: u32) -> Message
        requires { target < 16 }
        ensures value { result ≡ sync_message self.now number target writer }
        ensures fits { FitsMessage result }
    {
        Message {
            kind: MessageKind::Sync,
            epoch: self.epoch(),
            from: self.master as u32,
            to: target as u32,
            number,
            attempt: self.attempt(),
            ask: self.ask(),
            value: u64::from(writer),
            body: Bytes::new(alloc),
        }
    }

    /// What is awaited, as a message.
    fn ask_message(&self, alloc: Global, going: &Going) -> Result<Message, Memory>
        requires { FitsWaits going.now.course going.now.waits }
        ensures value { IfOk result (λ m. m ≡ ask_message self.now going.now.course.request.number going.now.waits) }
        ensures fits { IfOk result FitsMessage }
    {
        let number = going.course.request.number;
        match &going.waits {
            Waits::Look(need) => self.look(alloc, number, need),
            Waits::Hold(_, target) => self.hold_only(alloc, number, *target),
            Waits::Sync(_, _, target, writer) => Ok(self.sync_message(
                alloc, number, *target, *writer,
            )),
        }
    }

    /// Adds what is awaited of another target.
    fn add_ask(&self, alloc: Global, out: &mut Messages) -> Result<(), Memory>
        requires { All FitsMessage out.old }
        ensures value { OnOk result (out.new ≡ out.old ++ asks_of self.now self.now.current) }
        ensures fits { OnOk result (All FitsMessage out.new) }
    {
        let Some(going) = &self.current else {
            return Ok(());
        };
        if going.waits.target() == self.master {
            return Ok(());
        }
        add_message(out, self.ask_message(alloc, going)?)
    }

    /// An Execute of an ended attempt.
    #[tactic(auto, using(crate::proofs::Spelled::execute_fits))]
    fn execute(
        &self,
        alloc: Global,
        flight: &Flight,
        entry: &Record,
        target: u8,
    ) -> Result<Message, Memory>
        requires target { target < 16 }
        requires entry { FitsRecord entry.now }
        ensures value { IfOk result (λ m. m ≡ execute_message self.now flight.now entry.now target) }
        ensures fits { IfOk result FitsMessage }
    {
        let mut body = Bytes::new(alloc);
        entry.encode(&mut body)?;
        Ok(Message {
            kind: MessageKind::Execute,
            epoch: self.epoch(),
            from: self.master as u32,
            to: target as u32,
            number: flight.number(),
            attempt: flight.attempt(),
            ask: 0,
            value: 0,
            body,
        })
    }

    /// A Release of an ended attempt.
    #[tactic(auto, using(crate::proofs::Spelled::release_fits))]
    fn release(&self, alloc: Global, flight: &Flight, target: u8) -> Message
        requires { target < 16 }
        ensures value { result ≡ release_message self.now flight.now target }
        ensures fits { FitsMessage result }
    {
        Message {
            kind: MessageKind::Release,
            epoch: self.epoch(),
            from: self.master as u32,
            to: target as u32,
            number: flight.number(),
            attempt: flight.attempt(),
            ask: 0,
            value: 0,
            body: Bytes::new(alloc),
        }
    }

    /// Adds the Execute to a target, if it owes an answer.
    #[tactic(auto, unfolding(crate::specs::Resending::execute_to))]
    fn add_execute(
        &self,
        alloc: Global,
        out: &mut Messages,
        flight: &Flight,
        entry: &Record,
        target: u8,
    ) -> Result<(), Memory>
        requires below { target < 16 }
        requires entry { FitsRecord entry.now }
        requires fits { All FitsMessage out.old }
        ensures value { OnOk result (out.new ≡ out.old ++ execute_to self.now flight.now entry.now target) }
        ensures fits { OnOk result (All FitsMessage out.new) }
    {
        if !flight.executes.has(target) {
            return Ok(());
        }
        add_message(out, self.execute(alloc, flight, entry, target)?)
    }

    /// Adds the Release to a target, if it owes an answer.
    #[tactic(auto, unfolding(crate::specs::Resending::release_to))]
    fn add_release(
        &self,
        alloc: Global,
        out: &mut Messages,
        flight: &Flight,
        target: u8,
    ) -> Result<(), Memory>
        requires below { target < 16 }
        requires fits { All FitsMessage out.old }
        ensures value { OnOk result (out.new ≡ out.old ++ release_to self.now flight.now target) }
        ensures fits { OnOk result (All FitsMessage out.new) }
    {
        if !flight.releases.has(target) {
            return Ok(());
        }
        add_message(out, self.release(alloc, flight, target))
    }

    /// Adds the Executes of an ended attempt that have no answer.
    #[tactic(auto, unfolding(crate::specs::Resending::executes_from))]
    fn add_executes(&self, alloc: Global, out: &mut Messages, flight: &Flight) -> Result<(), Memory>
        requires { All FitsMessage out.old }
        ensures value { OnOk result (out.new ≡ out.old ++ executes_from self.now flight.now) }
        ensures fits { OnOk result (All FitsMessage out.new) }
    {
        match &flight.accepted {
            None => Ok(()),
            Some(accepted) => add_executes_to(self, alloc, out, flight, accepted.entry(), &ALL),
        }
    }

    /// Adds the Releases of an ended attempt that have no answer.
    #[tactic(auto, unfolding(crate::specs::Resending::releases_from))]
    fn add_releases(&self, alloc: Global, out: &mut Messages, flight: &Flight) -> Result<(), Memory>
        requires { All FitsMessage out.old }
        ensures value { OnOk result (out.new ≡ out.old ++ releases_from self.now flight.now) }
        ensures fits { OnOk result (All FitsMessage out.new) }
    {
        add_releases_to(self, alloc, out, flight, &ALL)
    }

    /// What is sent again: the Hold or Sync that is awaited, then each Execute and then each Release without an
    /// answer, by attempt and target. Each has its old numbers.
    pub fn resend(&self, alloc: Global) -> Result<Messages, Memory>
        ensures value { IfOk result (λ ms. ms ≡ resent self.now) }
        ensures fits { IfOk result (All FitsMessage) }
    {
        let mut out = Messages::new(alloc);
        self.add_ask(alloc, &mut out)?;
        add_all_executes(self, alloc, &mut out)?;
        add_all_releases(self, alloc, &mut out)?;
        Ok(out)
    }
}

/// Adds the Executes to those of the targets that owe an answer.
#[tactic(auto, using(crate::proofs::Joining::joined))]
fn add_executes_to(
    home: &Coordinator,
    alloc: Global,
    out: &mut Messages,
    flight: &Flight,
    entry: &Record,
    targets: &[u8],
) -> Result<(), Memory>
    requires below { All (λ (t : ℕ). t < 16) targets.now }
    requires entry { FitsRecord entry.now }
    requires fits { All FitsMessage out.old }
    ensures value { OnOk result (out.new ≡ out.old ++ flat_map (execute_to home.now flight.now entry.now) targets.now) }
    ensures fits { OnOk result (All FitsMessage out.new) }
{
    for target in targets {
        home.add_execute(alloc, out, flight, entry, *target)?;
    }
    Ok(())
}

/// Adds the Releases to those of the targets that owe an answer.
#[tactic(auto, using(crate::proofs::Joining::joined))]
fn add_releases_to(
    home: &Coordinator,
    alloc: Global,
    out: &mut Messages,
    flight: &Flight,
    targets: &[u8],
) -> Result<(), Memory>
    requires below { All (λ (t : ℕ). t < 16) targets.now }
    requires fits { All FitsMessage out.old }
    ensures value { OnOk result (out.new ≡ out.old ++ releases_to home.now flight.now targets.now) }
    ensures fits { OnOk result (All FitsMessage out.new) }
{
    for target in targets {
        home.add_release(alloc, out, flight, *target)?;
    }
    Ok(())
}

#[tactic(auto, using(crate::proofs::Joining::joined))]
fn add_all_executes(home: &Coordinator, alloc: Global, out: &mut Messages) -> Result<(), Memory>
    requires { All FitsMessage out.old }
    ensures value { OnOk result (out.new ≡ out.old ++ flat_map (executes_from home.now) home.now.flights) }
    ensures fits { OnOk result (All FitsMessage out.new) }
{
    for flight in home.flights.items() {
        home.add_executes(alloc, out, flight)?;
    }
    Ok(())
}

#[tactic(auto, using(crate::proofs::Joining::joined))]
fn add_all_releases(home: &Coordinator, alloc: Global, out: &mut Messages) -> Result<(), Memory>
    requires { All FitsMessage out.old }
    ensures value { OnOk result (out.new ≡ out.old ++ flat_map (releases_from home.now) home.now.flights) }
    ensures fits { OnOk result (All FitsMessage out.new) }
{
    for flight in home.flights.items() {
        home.add_releases(alloc, out, flight)?;
    }
    Ok(())
}
