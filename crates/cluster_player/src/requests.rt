//! The requests that were sent.

ghost use Rattle.std.specs.Prelude.{◌≡◌, OnOk, OnErr};
ghost use Rattle.std.specs.FinMap as map;

use std::alloc::{AllocError as Memory, Global};
use std::collections::BTreeMap;
use std::marker::Model;

/// The requests that were sent, by their numbers, each with the number of its message.
#[derive(Drop)]
pub struct Requests {
    messages: BTreeMap<u32, u32>,
}

impl Model for Requests {
    ghost use Rattle.std.specs.FinMap.{from_entries};
    ghost use Rattle.cluster_player.specs.Requests.{Messages, coded_messages};

    ghost Value = { Messages };

    ghost coded = { coded_messages };

    ghost view = { λ r. from_entries r.messages.entries };
}

impl Requests {
    /// None was sent.
    pub fn new(alloc: Global) -> Requests
        ensures { result ≡ map.empty }
    {
        Requests {
            messages: BTreeMap::new(alloc),
        }
    }

    /// The message by which the request with this number was sent, if it was.
    pub fn message(&self, number: u32) -> Option<u32>
        ensures { result ≡ map.get self.now number }
    {
        self.messages.get(&number).copied()
    }

    /// Notes by which message the request with this number was sent. Want of memory changes nothing.
    pub fn note(&mut self, number: u32, message: u32) -> Result<(), Memory>
        ensures ok { OnOk result (self.new ≡ map.insert self.old number message) }
        ensures err { OnErr result (self.new ≡ self.old) }
    {
        let _ = self.messages.insert(number, message)?;
        Ok(())
    }
}
