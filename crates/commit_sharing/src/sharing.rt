ghost use Rattle.std.specs.Prelude.{◌≡◌};
ghost use Rattle.commit_sharing.specs.Sharing.{uncovered, asked, must_sync};

use fid_space::{Fid, Targets};

/// What an attempt was told of an object that it asked for.
#[derive(Clone, Copy, Debug)]
pub struct Seen {
    /// The target of the object.
    pub target: u8,
    /// The object.
    pub fid: Fid,
    /// The request that wrote it last and isn't committed there, with the targets that it is on.
    pub writer: Option<(u32, Targets)>,
}

/// The writer, where it isn't on each of the targets.
fn uncovered(writer: Option<(u32, Targets)>, on: Targets) -> Option<u32>
    ensures { result ≡ uncovered writer on }
{
    match writer {
        None => None,
        Some((number, writer_on)) => {
            if writer_on.covers(on) {
                None
            } else {
                Some(number)
            }
        }
    }
}

/// The writer of an object that was seen at the target, where it isn't on each of the targets.
fn asked(seen: Seen, on: Targets, target: u8) -> Option<u32>
    ensures { result ≡ asked seen on target }
{
    if seen.target == target {
        uncovered(seen.writer, on)
    } else {
        None
    }
}

/// The writer for which the target has to commit before an operation on the targets `on` is accepted: that
/// of the first object seen there whose writer isn't on all of them. It takes no memory.
pub fn must_sync(reads: &[Seen], on: Targets, target: u8) -> Option<u32>
    ensures { result ≡ must_sync reads.now on target }
{
    for seen in reads {
        if let Some(number) = asked(*seen, on, target) {
            return Some(number);
        }
    }
    None
}
