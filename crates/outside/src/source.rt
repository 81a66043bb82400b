ghost use Rattle.std.specs.Prelude.{◌≡◌, ℕ, List, Option, is_some};
ghost use Rattle.std.specs.Io.{ReadsAtMost};
ghost use Rattle.std.specs.Io.KnownBytes.{ReadConsumes};
ghost use Rattle.outside.specs.Causes.{HasCause};

/// Why a read gave nothing. A read that failed is counted in [`Source::faults`].
#[derive(Clone, Copy, Debug, PartialEq, Eq)]
pub enum SourceFault {
    /// The read failed, and took no byte. Nothing more is known of why.
    Failed,
}

/// A place that bytes are read from. It counts its faults: the count never falls, and stops rising only at
/// its last value.
pub trait Source {
    /// The bytes that are left, where it tells them. Whether it tells them never changes.
    ghost left: { Self → Option (List ℕ) };

    /// The count of faults.
    ghost source_faults: { Self → ℕ };

    /// The count of faults so far.
    fn faults(&self) -> u64
        ensures { result ≡ source_faults self.now };

    /// Reads into the front of the slice, and answers how many bytes. 0 at a slice with room is the end. What the
    /// slice holds past them, or after a failure, is not said. A read that failed may be tried again.
    fn read(&mut self, into: &mut [u8]) -> Result<usize, SourceFault>
        ensures bound { ReadsAtMost result into.new }
        ensures bytes { ReadConsumes (left self.old) (left self.new) result into.new }
        ensures tells { is_some (left self.new) ≡ is_some (left self.old) }
        ensures cause { HasCause (source_faults self.old) (source_faults self.new) result };
}
