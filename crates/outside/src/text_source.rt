ghost use Rattle.std.specs.Prelude.{◌≡◌, ◌↔◌, min, Some, IfOk, MatchResult, IsErr, Contains, length, is_some, drop};
ghost use Rattle.std.specs.Io.{ReadsAtMost};
ghost use Rattle.std.specs.Io.KnownBytes.{ReadConsumes};
ghost use Rattle.outside.specs.Causes.{HasCause, CountsFailure, one_more};
ghost use Rattle.outside.specs.Feed.{Feed};

use crate::source::{Source, SourceFault};
use std::alloc::{AllocError as Memory, Global};
use std::marker::Model;

/// A text in memory. The reads with the listed numbers fail, counted from 1; a number may stand more than
/// once and in any place, and 0 is no read's.
#[derive(Drop)]
pub struct TextSource {
    bytes: Vec<u8>,
    at: usize,
    failing: Vec<u64>,
    calls: u64,
    faults: u64,
}

impl Model for TextSource {
    ghost use Rattle.std.specs.Prelude.{◌≤◌, drop, vec_len};
    ghost use Rattle.outside.specs.Feed.{Feed};

    ghost Value = { Feed };

    ghost view = { λ s. record { left = drop s.at s.bytes.items; failing = s.failing.items; calls = s.calls; faults = s.faults } };

    ghost invariant = { λ s. s.at ≤ vec_len s.bytes };
}

impl TextSource {
    /// A text of these bytes. It fails only where there is no memory for a copy of them and of the list of numbers.
    pub fn new(alloc: Global, bytes: &[u8], failing: &[u64]) -> Result<TextSource, Memory>
        ensures { IfOk result (λ s. s ≡ record { left = bytes.now; failing = failing.now; calls = 0; faults = 0 }) }
    {
        Ok(TextSource {
            bytes: Vec::from_slice(alloc, bytes)?,
            at: 0,
            failing: Vec::from_slice(alloc, failing)?,
            calls: 0,
            faults: 0,
        })
    }
}

impl Source for TextSource {
    ghost left = { λ s. Some s.left };

    ghost source_faults = { λ s. s.faults };

    fn faults(&self) -> u64 {
        self.faults
    }

    fn read(&mut self, into: &mut [u8]) -> Result<usize, SourceFault>
        ensures bound { ReadsAtMost result into.new }
        ensures bytes { ReadConsumes (Some self.old.left) (Some self.new.left) result into.new }
        ensures tells { is_some (Some self.new.left) ≡ is_some (Some self.old.left) }
        ensures cause { HasCause self.old.faults self.new.faults result }
        // It fails exactly at the listed calls, and else gives as much as fits.
        ensures fails { IsErr result ↔ Contains self.old.failing (one_more self.old.calls) }
        ensures full { IfOk result (λ n. n ≡ min (length into.old) (length self.old.left)) }
        ensures rest { IfOk result (λ n. self.new.left ≡ drop n self.old.left) }
        ensures beyond { MatchResult result (λ n. drop n into.new ≡ drop n into.old) (λ _. into.new ≡ into.old) }
        ensures counted { CountsFailure self.old.faults self.new.faults result }
        ensures calls { self.new.calls ≡ one_more self.old.calls }
        ensures failing { self.new.failing ≡ self.old.failing }
    {
        self.calls = self.calls.saturating_add(1);
        if self.failing.contains(&self.calls) {
            self.faults = self.faults.saturating_add(1);
            return Err(SourceFault::Failed);
        }
        let count = into.len().min(self.bytes.len() - self.at);
        into[..count].copy_from_slice(&self.bytes[self.at..self.at + count]);
        self.at += count;
        Ok(count)
    }
}
