ghost use Rattle.std.specs.Prelude.{◌≡◌};
ghost use Rattle.plan_base.specs.Told.{Told};
ghost use Rattle.plan_base.specs.Stops.{Passes};
ghost use Rattle.plan_base.specs.Asks.{walk_told, parent_seen};
ghost use Rattle.cross_rename.specs.Kept.{IsOnTheWay, MayKeep};

use fid_space::Fid;
use plan_base::{Facts, Seen, Stop};
use tree_model::Errno;

/// How far a walk came from a directory up to the root.
#[derive(Clone, Copy, Debug)]
pub(crate) struct Walked {
    /// The directory that moves.
    pub(crate) moved: Fid,
    /// The first member.
    pub(crate) from: Fid,
    /// How many more members may be asked.
    pub(crate) left: u16,
    /// The member that was reached.
    pub(crate) at: Fid,
}

/// Walks from a directory up to the root, past at most 1,024 directories, from where the same walk came to before.
/// Each is compared with the moved one before it is asked for.
pub(crate) fn walk(
    facts: &Facts,
    kept: &mut Option<Walked>,
    moved: Fid,
    from: Fid,
) -> Result<(), Stop>
    requires { MayKeep facts.now kept.old }
    ensures passes { Passes result (walk_told facts.now moved 1023 from) }
    ensures kept { MayKeep facts.now kept.new }
{
    let first = begun(*kept, moved, from);
    let mut at = first.at;
    for asked in 0..first.left {
        if at == Fid::ROOT {
            return Ok(());
        }
        if at == moved {
            return Err(Stop::Refused(Errno::EINVAL));
        }
        *kept = Some(Walked {
            moved,
            from,
            left: first.left - asked,
            at,
        });
        at = parent_of(facts.node(at)?);
    }
    last(at, moved)
}

/// Where a walk goes on: where the same walk came to before, or at its first member.
fn begun(kept: Option<Walked>, moved: Fid, from: Fid) -> Walked
    ensures moved { result.moved ≡ moved }
    ensures from { result.from ≡ from }
    ensures kept { (told : Told) → MayKeep told kept → IsOnTheWay told result }
{
    match kept {
        Some(walked) if walked.moved == moved && walked.from == from => walked,
        _ => Walked {
            moved,
            from,
            left: 1023,
            at: from,
        },
    }
}

/// The last member, which may not be asked for.
fn last(at: Fid, moved: Fid) -> Result<(), Stop>
    ensures { (told : Told) → Passes result (walk_told told moved 0 at) }
{
    if at == Fid::ROOT {
        return Ok(());
    }
    if at == moved {
        return Err(Stop::Refused(Errno::EINVAL));
    }
    Err(Stop::Refused(Errno::ELOOP))
}

/// The parent of a directory.
fn parent_of(seen: Option<Seen>) -> Fid
    ensures { result ≡ parent_seen seen }
{
    match seen {
        Some(seen) => seen.body.fid,
        None => Fid::ROOT,
    }
}
