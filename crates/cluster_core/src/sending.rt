//! Messages are sent and dropped.

ghost use Rattle.std.specs.Prelude.{◌≡◌, ◌≤◌, ◌<◌, ◌++◌, length, map, ℕ, Some, OnOk, IfOk};
ghost use Rattle.std.specs.List.{flat_map};
ghost use Rattle.tree_model.specs.OpText.{IsOp};
ghost use Rattle.tree_model.specs.Participants.{home_of};
ghost use Rattle.update_record.specs.Messages.{FitsMessage};
ghost use Rattle.cluster_mail.specs.Mail.{fresh};
ghost use Rattle.target_turns.specs.Commanded.{resends};
ghost use Rattle.cluster_core.specs.Commands.{request_message, sends, sends_again, drops, resends_of, resends_all};

use crate::members::Members;
use fid_space::{Bytes, Cluster, locate};
use outside::Plant;
use std::alloc::{AllocError as Memory, Global};
use tree_model::{Op, Request};
use update_record::{Message, MessageKind};

/// The home of a request.
fn home_of(cluster: Cluster, op: &Op) -> u8
    requires { IsOp cluster op.now }
    ensures place { home_of cluster op.now ≡ Some result }
    ensures small { result ≤ 15 }
{
    match locate(cluster, op.first_fid()) {
        Ok(home) => home,
        Err(_) => unreachable!(),
    }
}

/// The message by which a client, below 64, asks the home of its request, below 16. A request whose text reaches
/// 2^32 bytes is answered as want of memory.
#[tactic(auto, using(crate::proofs::Asked::request_fits))]
fn request_message(alloc: Global, home: u8, request: &Request) -> Result<Message, Memory>
    requires client { request.now.client < 64 }
    requires number { request.now.number ≤ 65536 }
    requires home { home ≤ 15 }
    ensures value { IfOk result (λ m. m ≡ request_message home request.now) }
    ensures fits { IfOk result FitsMessage }
{
    let mut body = Bytes::new(alloc);
    request.op.print(&mut body)?;
    if body.len() > u32::MAX as usize {
        return Err(Memory);
    }
    Ok(Message {
        kind: MessageKind::Request,
        epoch: 0,
        from: 256 + u32::from(request.client),
        to: u32::from(home),
        number: request.number,
        attempt: 0,
        ask: 0,
        value: 0,
        body,
    })
}

impl<D: Plant> Members<D> {
    /// Sends a request of a client to its home, which has this number.
    fn send_to(&mut self, home: u8, request: &Request) -> Result<(), Memory>
        requires client { request.now.client < 64 }
        requires number { request.now.number ≤ 65536 }
        requires home { home ≤ 15 }
        ensures after { OnOk result (self.new ≡ sends self.old home request.now) }
        ensures targets { self.new.targets ≡ self.old.targets }
    {
        let message = request_message(self.alloc, home, request)?;
        self.mail.post(&message)
    }

    /// Sends a request of a client to its home.
    pub fn send(&mut self, request: &Request) -> Result<(), Memory>
        requires client { request.now.client < 64 }
        requires number { request.now.number ≤ 65536 }
        requires op { IsOp (length self.old.targets) request.now.op }
        ensures after { OnOk result ((home : ℕ) × (home_of (length self.old.targets) request.now.op ≡ Some home) × (self.new ≡ sends self.old home request.now)) }
        ensures targets { self.new.targets ≡ self.old.targets }
    {
        let home = home_of(self.cluster, &request.op);
        self.send_to(home, request)
    }

    /// Sends the message of this number once more.
    pub fn send_again(&mut self, k: u32) -> Result<(), Memory>
        requires low { 1 ≤ k }
        requires sent { k ≤ length self.old.sent }
        ensures after { OnOk result (self.new ≡ sends_again self.old k) }
        ensures targets { self.new.targets ≡ self.old.targets }
    {
        self.mail.post_again(k)
    }

    /// Marks the message of this number as dropped.
    pub fn drop_message(&mut self, k: u32)
        requires low { 1 ≤ k }
        requires sent { k ≤ length self.old.sent }
        ensures after { self.new ≡ drops self.old k }
    {
        self.mail.drop_message(k);
    }

    /// Sends once more what wasn't answered to a target.
    fn resend_of(&mut self, target: u8) -> Result<(), Memory>
        requires { target < length self.old.targets }
        ensures after { OnOk result (self.new ≡ resends_of self.old target) }
        ensures targets { self.new.targets ≡ self.old.targets }
    {
        self.targets[target as usize].resend(&mut self.mail)
    }

    /// Sends once more what wasn't answered.
    #[tactic(auto, using(target_turns::proofs::Joining::joined))]
    pub fn resend(&mut self) -> Result<(), Memory>
        ensures after { OnOk result (self.new ≡ resends_all self.old) }
        ensures targets { self.new.targets ≡ self.old.targets }
    {
        for target in 0..self.count() {
            self.resend_of(target)?;
        }
        Ok(())
    }
}
