ghost use Rattle.std.specs.Prelude.{◌≡◌, ◌≤◌, ℕ, is_some, OnOk, OnErr, length, take};
ghost use Rattle.std.specs.Io.KnownBytes.{Appends};
ghost use Rattle.outside.specs.Causes.{HasCause};

use crate::sink::{Sink, SinkFault};

/// Writes all of the bytes, in as many writes as the sink needs, and stops at the first that fails. How long the
/// front is that the sink took then is not said. No byte is no write.
pub fn put_all<O: Sink>(sink: &mut O, bytes: &[u8]) -> Result<(), SinkFault>
    ensures ok { OnOk result (Appends (O.written sink.old) (O.written sink.new) bytes.now) }
    ensures front { OnErr result ((n : ℕ) × Appends (O.written sink.old) (O.written sink.new) (take n bytes.now)) }
    ensures tells { is_some (O.written sink.new) ≡ is_some (O.written sink.old) }
    ensures cause { HasCause (O.sink_faults sink.old) (O.sink_faults sink.new) result }
{
    let mut at = 0;
    while at < bytes.len() {
        let count = sink.write(&bytes[at..])?;
        at += count;
    }
    Ok(())
}
