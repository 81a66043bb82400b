ghost use Rattle.std.specs.Prelude.{◌≡◌, ◌<◌, ◌≤◌, ℕ, List, Option, is_some, IfOk, length};
ghost use Rattle.std.specs.Io.KnownBytes.{WriteAppends};
ghost use Rattle.outside.specs.Causes.{HasCause};

/// Why a write took nothing. A write that failed is counted in [`Sink::faults`].
#[derive(Clone, Copy, Debug, PartialEq, Eq)]
pub enum SinkFault {
    /// The write failed, and took no byte. Nothing more is known of why.
    Failed,
}

/// A place that bytes are written to. It counts its faults: the count never falls, and stops rising only at
/// its last value.
pub trait Sink {
    /// The bytes that were written, where it tells them. Whether it tells them never changes.
    ghost written: { Self → Option (List ℕ) };

    /// The count of faults.
    ghost sink_faults: { Self → ℕ };

    /// The count of faults so far.
    fn faults(&self) -> u64
        ensures { result ≡ sink_faults self.now };

    /// Writes a front of the piece, and answers how many bytes. A write that failed may be tried again.
    fn write(&mut self, piece: &[u8]) -> Result<usize, SinkFault>
        ensures bound { IfOk result (λ n. n ≤ length piece.now) }
        ensures some { IfOk result (λ n. 0 < length piece.now → 0 < n) }
        ensures bytes { WriteAppends (written self.old) (written self.new) result piece.now }
        ensures tells { is_some (written self.new) ≡ is_some (written self.old) }
        ensures cause { HasCause (sink_faults self.old) (sink_faults self.new) result };
}
