ghost use Rattle.std.specs.Prelude.{◌≡◌, ◌++◌, ◌∷◌, [], length, slice_get, OnOk, OnErr};
ghost use Rattle.std.specs.Option.{option_copied};

use fid_space::{Bytes, Targets};
use out_update::UpdateReply;
use std::alloc::{AllocError as Memory, AllocFailed, Global};
use std::marker::Model;

/// What a message is.
#[derive(Clone, Copy, Debug, PartialEq, Eq)]
pub enum MessageKind {
    /// A client asks for an operation.
    Request,
    /// Asks a target to be held, and a question about an object there.
    Hold,
    /// It is held, and this is the answer.
    Held,
    /// It is held by another request.
    HoldBusy,
    /// Asks a target to commit what a request wrote there.
    Sync,
    /// It is committed.
    Synced,
    /// The operation was accepted, and this is its record.
    Execute,
    /// The target has done its part.
    Executed,
    /// The target is not held any more.
    Release,
    /// It has let go.
    Released,
    /// Says up to which batch the master's records are committed at the sender.
    Stable,
    /// Says up to which batch they are committed everywhere.
    Cancel,
}

/// What a target, or a client, sends to a target.
#[derive(Debug, Drop)]
pub struct Message {
    /// What it is.
    pub kind: MessageKind,
    /// The epoch in which it was sent; 0 for a request.
    pub epoch: u32,
    /// The sender: a target, or 256 more than a client.
    pub from: u32,
    /// The target that it is for.
    pub to: u32,
    /// The number of the request; 0 for `Stable` and `Cancel`.
    pub number: u32,
    /// The attempt of its home; 0 for `Request`, `Stable` and `Cancel`.
    pub attempt: u64,
    /// Which ask of the attempt it is or answers; 0 where it is none.
    pub ask: u32,
    /// The holder, the writer, the batch or the mark; 0 in the other kinds.
    pub value: u64,
    /// The operation's text, a question, facts or a record; empty in the other kinds.
    pub body: Bytes,
}

/// Who asks a target to be held.
#[derive(Clone, Copy, Debug, PartialEq, Eq)]
pub struct Attempt {
    /// The epoch.
    pub epoch: u32,
    /// The home of the request.
    pub master: u8,
    /// The number of the attempt there.
    pub attempt: u64,
    /// The number of the request.
    pub number: u32,
}

/// What a held target tells.
#[derive(Debug, Drop)]
pub struct Facts {
    /// The length of the image that it would commit now, in bytes.
    pub load: u64,
    /// Its clock.
    pub clock: u64,
    /// The request that wrote last, without being committed, what was asked about, and its targets.
    pub writer: Option<(u32, Targets)>,
    /// The answer to the question.
    pub reply: UpdateReply,
}

/// A list of messages.
#[derive(Debug, Drop)]
pub struct Messages {
    inner: Vec<Message>,
}

impl Model for Messages {
    ghost use Rattle.std.specs.Prelude.{List};
    ghost use Rattle.update_record.specs.declared.message.Message.{Message};

    ghost Value = { List Message };

    ghost view = { λ m. m.inner.items };
}

impl Messages {
    /// The empty list.
    pub fn new(alloc: Global) -> Messages
        ensures { result ≡ [] }
    {
        Messages {
            inner: Vec::new(alloc),
        }
    }

    /// Adds a message at the end. Want of memory changes nothing.
    pub fn push(&mut self, item: Message) -> Result<(), Memory>
        ensures ok { OnOk result (self.new ≡ self.old ++ item ∷ []) }
        ensures err { OnErr result (self.new ≡ self.old) }
    {
        match self.inner.push(item) {
            Ok(()) => Ok(()),
            Err(AllocFailed { .. }) => Err(Memory),
        }
    }

    /// How many messages there are.
    pub fn len(&self) -> usize
        ensures { result ≡ length self.now }
    {
        self.inner.len()
    }

    /// Lends the message at an index, counted from 0, or `None` past the end.
    pub fn get(&self, i: usize) -> Option<&Message>
        ensures { option_copied result ≡ slice_get self.now i }
    {
        self.inner.get(i)
    }
}
