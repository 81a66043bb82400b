ghost use Rattle.std.specs.Prelude.{◌≡◌, ◌⊎◌, ◌<◌, ◌≤◌, Some, [], IfOk, OnErr, IsErr, Contains, length, is_some};
ghost use Rattle.std.specs.Io.KnownBytes.{WriteAppends};
ghost use Rattle.outside.specs.Causes.{HasCause, CountsFailure, one_more, Rose};
ghost use Rattle.outside.specs.Feed.{Held};

use crate::sink::{Sink, SinkFault};
use std::alloc::{AllocError as Memory, Global};
use std::marker::Model;

/// A text that grows in memory. The writes with the listed numbers fail, counted from 1; a number may stand
/// more than once and in any place, and 0 is no write's.
#[derive(Drop)]
pub struct TextSink {
    bytes: Vec<u8>,
    failing: Vec<u64>,
    calls: u64,
    faults: u64,
    refused: u64,
}

impl Model for TextSink {
    ghost use Rattle.outside.specs.Feed.{Held};

    ghost Value = { Held };

    ghost view = { λ s. record { bytes = s.bytes.items; failing = s.failing.items; calls = s.calls; faults = s.faults; refused = s.refused } };
}

impl TextSink {
    /// An empty text. It fails only where there is no memory for the list of numbers.
    pub fn new(alloc: Global, failing: &[u64]) -> Result<TextSink, Memory>
        ensures { IfOk result (λ s. s ≡ record { bytes = []; failing = failing.now; calls = 0; faults = 0; refused = 0 }) }
    {
        Ok(TextSink {
            bytes: Vec::new(alloc),
            failing: Vec::from_slice(alloc, failing)?,
            calls: 0,
            faults: 0,
            refused: 0,
        })
    }

    /// What was written so far.
    pub fn bytes(&self) -> &[u8]
        ensures { result.now ≡ self.now.bytes }
    {
        self.bytes.as_slice()
    }

    /// How many writes failed since there was no memory for the longer text. They are counted in the faults too.
    pub fn refused(&self) -> u64
        ensures { result ≡ self.now.refused }
    {
        self.refused
    }
}

impl Sink for TextSink {
    ghost written = { λ s. Some s.bytes };

    ghost sink_faults = { λ s. s.faults };

    fn faults(&self) -> u64 {
        self.faults
    }

    fn write(&mut self, piece: &[u8]) -> Result<usize, SinkFault>
        ensures bound { IfOk result (λ n. n ≤ length piece.now) }
        ensures some { IfOk result (λ n. 0 < length piece.now → 0 < n) }
        ensures bytes { WriteAppends (Some self.old.bytes) (Some self.new.bytes) result piece.now }
        ensures tells { is_some (Some self.new.bytes) ≡ is_some (Some self.old.bytes) }
        ensures cause { HasCause self.old.faults self.new.faults result }
        // It fails at the listed calls, and else where a growth is refused; a write that does not fail takes the whole piece.
        ensures fails { OnErr result (Contains self.old.failing (one_more self.old.calls) ⊎ Rose self.old.refused self.new.refused) }
        ensures listed { Contains self.old.failing (one_more self.old.calls) → IsErr result × (self.new.refused ≡ self.old.refused) }
        ensures refused { (Contains self.old.failing (one_more self.old.calls) → ⊥) → CountsFailure self.old.refused self.new.refused result }
        ensures whole { IfOk result (λ n. n ≡ length piece.now) }
        ensures counted { CountsFailure self.old.faults self.new.faults result }
        ensures calls { self.new.calls ≡ one_more self.old.calls }
        ensures failing { self.new.failing ≡ self.old.failing }
    {
        self.calls = self.calls.saturating_add(1);
        if self.failing.contains(&self.calls) {
            self.faults = self.faults.saturating_add(1);
            return Err(SinkFault::Failed);
        }
        if self.bytes.extend_from_slice(piece).is_err() {
            self.refused = self.refused.saturating_add(1);
            self.faults = self.faults.saturating_add(1);
            return Err(SinkFault::Failed);
        }
        Ok(piece.len())
    }
}
