ghost use Rattle.std.specs.Prelude.{◌≡◌, ◌++◌, [], is_some, IfOk, OnOk, OnErr};
ghost use Rattle.std.specs.Option.{unwrap_or};
ghost use Rattle.fid_space.specs.Homes.{is_root, class_of, class_word, target_text, home_text};

use crate::bytes::Bytes;
use crate::cluster::Cluster;
use crate::fid::Fid;
use crate::places::{NoHome, is_client, is_in_range, locate, offset_of};
use std::alloc::AllocError as Memory;

/// What kind of FID it is.
#[derive(Clone, Copy, Debug, PartialEq, Eq)]
pub enum Class {
    /// The root directory's.
    Root,
    /// One that a client may make.
    Client,
    /// In the upper half of a target's range, where the FIDs of stripes are.
    Stripe,
    /// Any other.
    Other,
}

impl Class {
    /// The kind's name, in lower case.
    pub fn word(self) -> &'static str
        ensures { result.now ≡ class_word self }
    {
        match self {
            Class::Root => "root",
            Class::Client => "client",
            Class::Stripe => "stripe",
            Class::Other => "other",
        }
    }
}

/// Whether the FID is that of the root directory.
fn is_root(fid: Fid) -> bool
    ensures { result ≡ is_root fid }
{
    fid.seq == Fid::ROOT.seq && fid.oid == Fid::ROOT.oid && fid.ver == Fid::ROOT.ver
}

/// What kind of FID it is in the cluster. One without a place is `Class::Other`.
pub fn class_of(cluster: Cluster, fid: Fid) -> Class
    ensures { result ≡ class_of cluster fid }
{
    if is_root(fid) {
        Class::Root
    } else if is_client(cluster, fid) {
        Class::Client
    } else if is_in_range(cluster.targets(), fid.seq) && offset_of(fid.seq) >= 0x8_0000 {
        Class::Stripe
    } else {
        Class::Other
    }
}

/// Adds `target T CLASS` at the end, the target in decimal digits, and answers true; or adds nothing and
/// answers false where no target of the cluster owns the FID's sequence. Want of memory adds nothing.
pub fn print_home(cluster: Cluster, fid: Fid, out: &mut Bytes) -> Result<bool, Memory>
    ensures home { IfOk result (λ home. home ≡ is_some (home_text cluster fid)) }
    ensures ok { OnOk result (out.new ≡ out.old ++ unwrap_or (home_text cluster fid) []) }
    ensures err { OnErr result (out.new ≡ out.old) }
{
    match locate(cluster, fid) {
        Err(NoHome) => Ok(false),
        Ok(target) => {
            print_target(target, class_of(cluster, fid), out)?;
            Ok(true)
        }
    }
}

fn print_target(target: u8, class: Class, out: &mut Bytes) -> Result<(), Memory>
    ensures ok { OnOk result (out.new ≡ out.old ++ target_text target class) }
    ensures err { OnErr result (out.new ≡ out.old) }
{
    let mut text = Bytes::new(out.alloc());
    text.append(b"target ")?;
    let digits = target.to_string(out.alloc())?;
    text.append(digits.as_bytes())?;
    text.push(b' ')?;
    text.append(class.word().as_bytes())?;
    out.append(text.bytes())
}
