//! Messages are delivered.

ghost use Rattle.std.specs.Prelude.{◌≡◌, ◌≤◌, ◌<◌, ◌↔◌, ◌++◌, ℕ, List, length, IsTrue, OnOk, IfOk, true, false};
ghost use Rattle.tree_model.specs.OpText.{IsOp};
ghost use Rattle.tree_model.specs.declared.op.OpFault.{OpFault};
ghost use Rattle.update_record.specs.Messages.{FitsMessage};
ghost use Rattle.update_coordinator.specs.Fitting.{IsRequest};
ghost use Rattle.cluster_mail.specs.Mail.{message_of, next_of};
ghost use Rattle.scenario_text.specs.declared.line.Line.{Line};
ghost use Rattle.target_turns.specs.Target.{serves};
ghost use Rattle.target_turns.specs.Turn.{turned, asks, awaits, is_request, request_of};
ghost use Rattle.target_turns.specs.Commanded.{hears_bounce};
ghost use Rattle.cluster_core.specs.Cluster.{AreTouched, Turns, target_at, turn_lines};
ghost use Rattle.cluster_core.specs.Delivery.{MayReach, Reaches, Delivers, DeliversBy, Nexts, Settles, marked, bounces, Hands, IsLost, rest_lines};

use crate::members::Members;
use cluster_mail::Content;
use fid_space::{Cluster, locate};
use outside::Plant;
use scenario_text::{Line, Lines};
use std::alloc::{AllocError as Memory, Global};
use tree_model::{Op, OpFault, one_text_per_operation};
use update_record::{Message, MessageKind};

/// Whether it asks something of a target.
fn asks(kind: MessageKind) -> bool
    ensures { result ≡ asks kind }
{
    kind == MessageKind::Hold || kind == MessageKind::Sync
}

/// Whether it is what a client sends.
fn is_request(kind: MessageKind) -> bool
    ensures { result ≡ is_request kind }
{
    kind == MessageKind::Request
}

/// Whether a message that asks for this operation is a request that comes to its home.
fn comes_home(cluster: Cluster, message: &Message, op: &Op) -> bool
    requires { IsOp cluster op.now }
    ensures { IsTrue result ↔ IsRequest cluster message.now.to (request_of message.now op.now) }
{
    let home = match locate(cluster, op.first_fid()) {
        Ok(home) => u32::from(home),
        Err(_) => return false,
    };
    home == message.to && 1 <= message.number && message.number <= 65_536 && message.from < 320
}

/// Whether memory was wanted.
fn is_memory(fault: OpFault) -> bool
    ensures { IsTrue result ↔ fault ≡ OpFault.Memory }
{
    fault == OpFault::Memory
}

/// What a client asks for, where it asks the home of its request.
#[tactic(auto, using(crate::proofs::Reached::asks_home, crate::proofs::Reached::not_asked, crate::proofs::Reached::not_spelled))]
fn asked(alloc: Global, cluster: Cluster, message: &Message) -> Result<Option<Content>, Memory>
    requires fits { FitsMessage message.now }
    requires kind { is_request message.now.kind ≡ true }
    requires there { message.now.to < cluster }
    ensures { IfOk result (Reaches cluster message.now) }
{
    one_text_per_operation();
    match Op::parse(alloc, message.body.bytes(), cluster) {
        Ok(op) => {
            if comes_home(cluster, message, &op) {
                return Ok(Some(Content::Asks(op)));
            }
            Ok(None)
        }
        Err(fault) => {
            if is_memory(fault) {
                return Err(Memory);
            }
            Ok(None)
        }
    }
}

/// What a message says to its target, or `None` where no target takes it.
#[tactic(auto, using(crate::proofs::Reached::reaches, crate::proofs::Reached::says_some))]
fn content_of(alloc: Global, cluster: Cluster, message: &Message) -> Result<Option<Content>, Memory>
    requires fits { FitsMessage message.now }
    ensures { IfOk result (Reaches cluster message.now) }
{
    if message.to >= u32::from(cluster.targets()) {
        return Ok(None);
    }
    if is_request(message.kind) {
        return asked(alloc, cluster, message);
    }
    Ok(Some(Content::read(alloc, cluster, message)?))
}

impl<D: Plant> Members<D> {
    /// Whether a target of this number is there and serves.
    pub fn is_serving(&self, target: u32) -> bool
        ensures { result ≡ serves (target_at self.now.targets target) }
    {
        let target = target as usize;
        target < self.targets.len() && self.targets[target].is_serving()
    }

    /// Whether the attempt of a message's sender waits for what the message asks.
    fn is_awaited(&self, message: &Message) -> bool
        requires { message.now.to ≤ 15 }
        ensures { result ≡ awaits (target_at self.now.targets message.now.from) message.now }
    {
        let home = message.from as usize;
        home < self.targets.len() && self.targets[home].awaits(message)
    }

    /// Whether a message comes back to the home that asked.
    fn bounces(&self, message: &Message) -> bool
        requires { message.now.to ≤ 15 }
        ensures back { result ≡ bounces self.now.targets message.now }
        ensures there { IsTrue result → message.now.from < length self.now.targets }
    {
        !self.is_serving(message.to) && asks(message.kind) && self.is_awaited(message)
    }

    /// Hands a message to its target.
    fn hand(
        &mut self,
        k: u32,
        message: &Message,
        content: Content,
        lines: &mut Lines,
    ) -> Result<(), Memory>
        requires { MayReach (length self.old.targets) message.now content }
        ensures turn { OnOk result (Turns self.old message.now.to (turned k (target_at self.old.targets message.now.to) message.now content) self.new) }
        ensures lines { OnOk result (lines.new ≡ lines.old ++ turn_lines self.new message.now.to (turned k (target_at self.old.targets message.now.to) message.now content)) }
        ensures touched { AreTouched self.old.targets self.new.targets }
    {
        self.targets[message.to as usize].receive(k, message, content, &mut self.mail, lines)
    }

    /// Tells the home that asked that the target of the message doesn't serve.
    fn bounce(&mut self, message: &Message, lines: &mut Lines) -> Result<(), Memory>
        requires there { message.now.from < length self.old.targets }
        requires to { message.now.to ≤ 15 }
        ensures turn { OnOk result (Turns self.old message.now.from (hears_bounce (target_at self.old.targets message.now.from) message.now) self.new) }
        ensures lines { OnOk result (lines.new ≡ lines.old ++ turn_lines self.new message.now.from (hears_bounce (target_at self.old.targets message.now.from) message.now)) }
        ensures touched { AreTouched self.old.targets self.new.targets }
    {
        self.targets[message.from as usize].bounce(message, &mut self.mail, lines)
    }

    /// Delivers the message of this number.
    pub fn deliver(&mut self, k: u32, lines: &mut Lines) -> Result<(), Memory>
        requires low { 1 ≤ k }
        requires sent { k ≤ length self.old.sent }
        ensures does { OnOk result ((ls : List Line) × Delivers self.old k self.new ls × (lines.new ≡ lines.old ++ ls)) }
        ensures touched { AreTouched self.old.targets self.new.targets }
    {
        let message = self.mail.take(k)?;
        if self.bounces(&message) {
            return self.bounce(&message, lines);
        }
        match content_of(self.alloc, self.cluster, &message)? {
            Some(content) => self.hand(k, &message, content, lines),
            None => lines.push(Line::Ignored(k)),
        }
    }

    /// Delivers the message with the least number that waits, where there is one.
    fn deliver_next(&mut self, lines: &mut Lines) -> Result<bool, Memory>
        ensures does { IfOk result (λ more. (ls : List Line) × Nexts more self.old self.new ls × (lines.new ≡ lines.old ++ ls)) }
        ensures touched { AreTouched self.old.targets self.new.targets }
    {
        match self.mail.next() {
            None => Ok(false),
            Some(k) => {
                self.deliver(k, lines)?;
                Ok(true)
            }
        }
    }

    /// Says where a message is left.
    fn tell_rest(&mut self, lines: &mut Lines) -> Result<(), Memory>
        ensures same { self.new ≡ self.old }
        ensures lines { OnOk result (lines.new ≡ lines.old ++ rest_lines (next_of 1 self.old.sent)) }
    {
        match self.mail.next() {
            None => Ok(()),
            Some(_) => lines.push(Line::Unsettled),
        }
    }

    /// Delivers messages, the least number first, until none waits or 100,000 were delivered.
    pub fn settle(&mut self, lines: &mut Lines) -> Result<(), Memory>
        ensures does { OnOk result ((ls : List Line) × Settles self.old self.new ls × (lines.new ≡ lines.old ++ ls)) }
        ensures touched { AreTouched self.old.targets self.new.targets }
    {
        for turn in 0..100_000u32 {
            if !self.deliver_next(lines)? {
                return Ok(());
            }
        }
        self.tell_rest(lines)
    }
}
