ghost use Rattle.std.specs.Prelude.{◌≡◌, ◌≤◌, ◌<◌, ◌+◌, ◌^◌, ◌++◌, ◌∷◌, [], false, true, All, length, take, OnOk, OnErr, IfOk, IfSome};
ghost use Rattle.update_record.specs.Messages.{FitsMessage};
ghost use Rattle.cluster_mail.specs.Mail.{fresh, sent_at, message_of, mark_delivered, mark_dropped, waits, next_of, size_of};
ghost use Rattle.cluster_mail.specs.Kept.{seen, IsSpelled};

use crate::content::wanted;
use fid_space::Bytes;
use std::alloc::{AllocError as Memory, AllocFailed, Global};
use std::marker::Model;
use update_record::{
    Message, a_message_is_read_back, one_spelling_per_message, verdicts_are_of_spelled_messages,
};

/// A message that was sent, as bytes, and what became of it.
#[derive(Drop)]
struct Kept {
    bytes: Bytes,
    delivered: bool,
    dropped: bool,
}

impl Kept {
    /// A message that was just sent.
    fn new(bytes: Bytes) -> Kept
        ensures { result ≡ record { bytes = bytes; delivered = false; dropped = false } }
    {
        Kept {
            bytes,
            delivered: false,
            dropped: false,
        }
    }

    /// Whether it is to be delivered.
    fn waits(&self) -> bool
        ensures { result ≡ waits (seen self.now) }
    {
        !self.delivered && !self.dropped
    }

    /// The message.
    fn read(&self, alloc: Global) -> Result<Message, Memory>
        requires { IsSpelled self.now }
        ensures fits { OnOk result (FitsMessage (seen self.now).message) }
        ensures message { IfOk result (λ m. m ≡ (seen self.now).message) }
    {
        one_spelling_per_message();
        verdicts_are_of_spelled_messages();
        match Message::decode(alloc, self.bytes.bytes()) {
            Ok((message, _)) => Ok(message),
            Err(fault) => Err(wanted(fault)),
        }
    }
}

/// All messages ever sent, numbered from 1. Contracts see a list of them, each with its marks.
#[derive(Drop)]
pub struct Mail {
    alloc: Global,
    sent: Vec<Kept>,
    // no message before this index waits
    first: usize,
    bytes: u64,
}

impl Model for Mail {
    ghost use Rattle.std.specs.Prelude.{List, map};
    ghost use Rattle.cluster_mail.specs.Mail.{Sent};
    ghost use Rattle.cluster_mail.specs.Kept.{seen, AreKept};

    ghost Value = { List Sent };

    ghost view = { λ m. map seen m.sent.items };

    ghost invariant = { λ m. AreKept m.sent.items m.first m.bytes };
}

impl Mail {
    /// No message.
    pub fn new(alloc: Global) -> Mail
        ensures { result ≡ [] }
    {
        Mail {
            alloc,
            sent: Vec::new(alloc),
            first: 0,
            bytes: 0,
        }
    }

    /// How many messages were sent.
    pub fn len(&self) -> u32
        ensures { result ≡ length self.now }
    {
        self.sent.len() as u32
    }

    /// How many bytes all of them have.
    pub fn bytes(&self) -> u64
        ensures { result ≡ size_of self.now }
    {
        self.bytes
    }

    /// Keeps what was just sent, where there is room for its number and its bytes. Want of memory changes nothing.
    fn keep(&mut self, sent: Kept) -> Result<(), Memory>
        requires { IsSpelled sent }
        ensures ok { OnOk result (self.new ≡ self.old ++ seen sent ∷ []) }
        ensures err { OnErr result (self.new ≡ self.old) }
    {
        let len = sent.bytes.len() as u64;
        if self.sent.len() >= 4_294_967_295 || len > u64::MAX - self.bytes {
            return Err(Memory);
        }
        match self.sent.push(sent) {
            Ok(()) => {
                self.bytes += len;
                Ok(())
            }
            Err(AllocFailed { .. }) => Err(Memory),
        }
    }

    /// Sends a message. Memory is wanted too where its number would reach 2^32, or the bytes of all 2^64. Want of
    /// memory changes nothing.
    pub fn post(&mut self, message: &Message) -> Result<(), Memory>
        requires { FitsMessage message.now }
        ensures ok { OnOk result (self.new ≡ self.old ++ fresh message.now ∷ []) }
        ensures err { OnErr result (self.new ≡ self.old) }
    {
        a_message_is_read_back();
        let mut bytes = Bytes::new(self.alloc);
        message.encode(&mut bytes)?;
        self.keep(Kept::new(bytes))
    }

    /// Sends the message of this number once more, under a number of its own.
    pub fn post_again(&mut self, k: u32) -> Result<(), Memory>
        requires low { 1 ≤ k }
        requires sent { k ≤ length self.old }
        ensures ok { OnOk result (self.new ≡ self.old ++ fresh (message_of self.old k) ∷ []) }
        ensures err { OnErr result (self.new ≡ self.old) }
    {
        let mut bytes = Bytes::new(self.alloc);
        bytes.append(self.sent[k as usize - 1].bytes.bytes())?;
        self.keep(Kept::new(bytes))
    }

    /// The message of this number.
    pub fn read(&self, k: u32) -> Result<Message, Memory>
        requires low { 1 ≤ k }
        requires sent { k ≤ length self.now }
        ensures fits { OnOk result (FitsMessage (message_of self.now k)) }
        ensures message { IfOk result (λ m. m ≡ message_of self.now k) }
    {
        self.sent[k as usize - 1].read(self.alloc)
    }

    /// Takes the message of this number, and marks it as delivered. Want of memory changes nothing.
    pub fn take(&mut self, k: u32) -> Result<Message, Memory>
        requires low { 1 ≤ k }
        requires sent { k ≤ length self.old }
        ensures few { length self.old < 2 ^ 32 }
        ensures fits { OnOk result (FitsMessage (message_of self.old k)) }
        ensures message { IfOk result (λ m. m ≡ message_of self.old k) }
        ensures ok { OnOk result (self.new ≡ mark_delivered self.old k) }
        ensures err { OnErr result (self.new ≡ self.old) }
    {
        let message = self.read(k)?;
        self.sent[k as usize - 1].delivered = true;
        Ok(message)
    }

    /// Marks the message of this number as dropped.
    pub fn drop_message(&mut self, k: u32)
        requires low { 1 ≤ k }
        requires sent { k ≤ length self.old }
        ensures { self.new ≡ mark_dropped self.old k }
    {
        self.sent[k as usize - 1].dropped = true;
    }

    /// Whether the message of this number is to be delivered.
    pub fn waits(&self, k: u32) -> bool
        requires low { 1 ≤ k }
        requires sent { k ≤ length self.now }
        ensures { result ≡ waits (sent_at self.now k) }
    {
        self.sent[k as usize - 1].waits()
    }

    /// The least index of a message that waits, or how many there are.
    fn first_waiting(&self) -> usize
        ensures within { result ≤ length self.now }
        ensures past { All (λ s. waits s ≡ false) (take result self.now) }
        ensures here { result < length self.now → waits (sent_at self.now (result + 1)) ≡ true }
    {
        for index in self.first..self.sent.len() {
            if self.sent[index].waits() {
                return index;
            }
        }
        self.sent.len()
    }

    /// The least number of a message that is to be delivered. A message that waits no more never does again, and so
    /// the next call begins where this one ends.
    pub fn next(&mut self) -> Option<u32>
        ensures least { result ≡ next_of 1 self.old }
        ensures sent { IfSome result (λ k. (1 ≤ k) × (k ≤ length self.old)) }
        ensures after { self.new ≡ self.old }
    {
        self.first = self.first_waiting();
        if self.first == self.sent.len() {
            return None;
        }
        Some(self.first as u32 + 1)
    }
}
