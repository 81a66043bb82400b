ghost use Rattle.std.specs.Prelude.{◌≡◌, ◌<◌, ◌≤◌, ◌-◌, ◌/◌, ◌%◌, ◌&&◌, ℕ, true, nat_le, nat_lt, Some, IfOk};
ghost use Rattle.fid_space.specs.declared.fid.Fid.{Fid};
ghost use Rattle.std.specs.Result.{result_ok};
ghost use Rattle.fid_space.specs.Places.{base_of, place_of, is_client, client_fid, stripe_fid};

use crate::cluster::Cluster;
use crate::fid::Fid;

/// The first sequence of target 0: FID_SEQ_NORMAL of Lustre's lustre_idl.h.
const FIRST: u64 = 0x2_0000_0400;

/// A target owns so many sequences: two to this power.
const RANGE_BITS: u32 = 20;

/// How many sequences a target owns.
const RANGE: u64 = 1 << RANGE_BITS;

/// The sequence of the root directory, which target 0 owns: FID_SEQ_ROOT of lustre_idl.h.
const ROOT: u64 = 0x2_0000_0007;

/// Whether one of so many targets owns the sequence by its range.
pub(crate) fn is_in_range(targets: u8, seq: u64) -> bool
    ensures { result ≡ (nat_le (base_of 0) seq && nat_lt seq (base_of targets)) }
{
    let end = FIRST + u64::from(targets) * RANGE;
    FIRST <= seq && seq < end
}

/// The target whose range has the sequence, where there is one.
fn target_of(seq: u64) -> u64
    requires { base_of 0 ≤ seq }
    ensures { result ≡ (seq - base_of 0) / 0x100000 }
{
    (seq - FIRST) >> RANGE_BITS
}

/// The distance of the sequence from its target's first one.
pub(crate) fn offset_of(seq: u64) -> u64
    requires { base_of 0 ≤ seq }
    ensures { result ≡ (seq - base_of 0) % 0x100000 }
{
    (seq - FIRST) & (RANGE - 1)
}

/// No target of the cluster owns the FID's sequence.
#[derive(Clone, Copy, Debug, PartialEq, Eq)]
pub struct NoHome;

/// The target that owns the FID's sequence, counted from 0. The object id and the version don't matter:
/// whether there is such an object, its target knows. Sequences are handed out to targets in ranges, as
/// the FID location database of the Lustre Operations Manual records them.
pub fn locate(cluster: Cluster, fid: Fid) -> Result<u8, NoHome>
    ensures place { result_ok result ≡ place_of cluster fid }
    ensures below { IfOk result (λ target. target < cluster) }
    ensures small { IfOk result (λ target. target < 16) }
{
    if fid.seq == ROOT {
        return Ok(0);
    }
    if is_in_range(cluster.targets(), fid.seq) {
        Ok(target_of(fid.seq) as u8)
    } else {
        Err(NoHome)
    }
}

/// Whether the FID may name a node that a client makes: its offset in its target's range is below
/// 0x8000, its object id at least 1 and its version 0. The root's FID is none.
pub fn is_client(cluster: Cluster, fid: Fid) -> bool
    ensures { result ≡ is_client cluster fid }
{
    is_client_of(cluster.targets(), fid)
}

/// The same, in a cluster of so many targets.
fn is_client_of(targets: u8, fid: Fid) -> bool
    ensures { result ≡ is_client targets fid }
{
    is_in_range(targets, fid.seq) && offset_of(fid.seq) < 0x8000 && fid.oid >= 1 && fid.ver == 0
}

/// The FID that a client makes on a target, or `None` where the target is above 15, the client is not
/// below 0x8000 or the object id is 0. Each client has one sequence on each target.
pub fn client_fid(target: u8, client: u16, oid: u32) -> Option<Fid>
    ensures { result ≡ client_fid target client oid }
{
    if target < 16 && client < 0x8000 && oid >= 1 {
        Some(Fid {
            seq: FIRST + u64::from(target) * RANGE + u64::from(client),
            oid,
            ver: 0,
        })
    } else {
        None
    }
}

/// The FID of a stripe of the directory: the stripe's index, counted from 0, the target that it stands on,
/// and the generation of the directory's layout. `None` where the directory's FID is none that a client
/// makes in a cluster of 16, the target or the index is above 15, or the generation above 0x0ffffffe.
pub fn stripe_fid(dir: Fid, target: u8, index: u8, generation: u32) -> Option<Fid>
    ensures { result ≡ stripe_fid dir target index generation }
{
    if is_client_of(16, dir) && target < 16 && index < 16 && generation <= 0x0fff_fffe {
        let own = target_of(dir.seq) * 0x8000 + offset_of(dir.seq);
        Some(Fid {
            seq: FIRST + u64::from(target) * RANGE + (0x8_0000 + own),
            oid: dir.oid,
            ver: 1 + u32::from(index) + 16 * generation,
        })
    } else {
        None
    }
}

/// A FID that a client makes has the target that it was made on as its place in a cluster of 16, and
/// is one that a client may make. The call does nothing: its contract is a law.
pub fn client_fids_have_their_place()
    ensures place { (target client oid : ℕ) (f : Fid) → client_fid target client oid ≡ Some f → place_of 16 f ≡ Some target }
    ensures client { (target client oid : ℕ) (f : Fid) → client_fid target client oid ≡ Some f → is_client 16 f ≡ true }
{}
