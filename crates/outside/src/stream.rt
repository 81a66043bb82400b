ghost use Rattle.std.specs.Prelude.{◌≡◌, ◌<◌, ◌≤◌, ℕ, List, None, IfOk, length, is_some};
ghost use Rattle.std.specs.Io.{ReadsAtMost};
ghost use Rattle.std.specs.Io.KnownBytes.{ReadConsumes, WriteAppends};
ghost use Rattle.outside.specs.Causes.{HasCause, CountsFailure};

use crate::sink::{Sink, SinkFault};
use crate::source::{Source, SourceFault};
use std::io::{Read, Write};
use std::marker::Model;

/// A source over a reader, which tells nothing of its bytes. Each error of the reader, whatever its kind, is
/// one fault and is handed on as one; no call is tried again.
#[derive(Drop)]
pub struct StreamSource<R: Read> {
    inner: R,
    faults: u64,
}

impl<R: Read> Model for StreamSource<R> {
    ghost use Rattle.outside.specs.Feed.{Stream, stream_code};

    ghost Value = { Stream R };

    ghost coded = { stream_code R.code };

    ghost view = { λ s. record { inner = s.inner; faults = s.faults } };
}

impl<R: Read> StreamSource<R> {
    /// A source with no fault so far, which reads nothing before it is read.
    pub fn new(inner: R) -> StreamSource<R>
        ensures { result ≡ record { inner = inner; faults = 0 } }
    {
        StreamSource { inner, faults: 0 }
    }
}

impl<R: Read> Source for StreamSource<R> {
    ghost left = { λ _. None };

    ghost source_faults = { λ s. s.faults };

    fn faults(&self) -> u64 {
        self.faults
    }

    fn read(&mut self, into: &mut [u8]) -> Result<usize, SourceFault>
        ensures bound { ReadsAtMost result into.new }
        ensures bytes { ReadConsumes None None result into.new }
        ensures tells { is_some {T = List ℕ} None ≡ is_some {T = List ℕ} None }
        ensures cause { HasCause self.old.faults self.new.faults result }
        ensures counted { CountsFailure self.old.faults self.new.faults result }
        // Where the reader's own bytes are known, they are what is given.
        ensures inner { ReadConsumes (R.remaining self.old.inner) (R.remaining self.new.inner) result into.new }
    {
        match self.inner.read(into) {
            Ok(count) => Ok(count),
            Err(_) => {
                self.faults = self.faults.saturating_add(1);
                Err(SourceFault::Failed)
            }
        }
    }
}

/// A sink over a writer, which tells nothing of its bytes. Each error of the writer, whatever its kind, is one
/// fault, and so is a write that takes nothing of a piece; no call is tried again, and nothing is flushed.
#[derive(Drop)]
pub struct StreamSink<W: Write> {
    inner: W,
    faults: u64,
}

impl<W: Write> Model for StreamSink<W> {
    ghost use Rattle.outside.specs.Feed.{Stream, stream_code};

    ghost Value = { Stream W };

    ghost coded = { stream_code W.code };

    ghost view = { λ s. record { inner = s.inner; faults = s.faults } };
}

impl<W: Write> StreamSink<W> {
    /// A sink with no fault so far.
    pub fn new(inner: W) -> StreamSink<W>
        ensures { result ≡ record { inner = inner; faults = 0 } }
    {
        StreamSink { inner, faults: 0 }
    }
}

impl<W: Write> Sink for StreamSink<W> {
    ghost written = { λ _. None };

    ghost sink_faults = { λ s. s.faults };

    fn faults(&self) -> u64 {
        self.faults
    }

    fn write(&mut self, piece: &[u8]) -> Result<usize, SinkFault>
        ensures bound { IfOk result (λ n. n ≤ length piece.now) }
        ensures some { IfOk result (λ n. 0 < length piece.now → 0 < n) }
        ensures bytes { WriteAppends None None result piece.now }
        ensures tells { is_some {T = List ℕ} None ≡ is_some {T = List ℕ} None }
        ensures cause { HasCause self.old.faults self.new.faults result }
        ensures counted { CountsFailure self.old.faults self.new.faults result }
        // Where the writer's own bytes are known, they grow by what was taken.
        ensures inner { WriteAppends (W.contents self.old.inner) (W.contents self.new.inner) result piece.now }
    {
        match self.inner.write(piece) {
            Ok(count) if count > 0 || piece.is_empty() => Ok(count),
            _ => {
                self.faults = self.faults.saturating_add(1);
                Err(SinkFault::Failed)
            }
        }
    }
}
