ghost use Rattle.std.specs.Prelude.{◌≡◌, IfOk, IsErrOf};
ghost use Rattle.byte_grammar.specs.Values.{Gives};
ghost use Rattle.out_update.specs.Values.{fid_value};
ghost use Rattle.plan_base.specs.Heard.{IsChild};
ghost use Rattle.plan_base.specs.Planners.{seen_in, node_in, child_in, entries_in, attribute_in};

use crate::seen::Seen;
use crate::updates::copied;
use byte_grammar::{BuildFault, u32_at, u64_at};
use fid_space::{Bytes, Fid};
use object_store::Body;
use out_update::UpdateResult;
use std::alloc::{AllocError as Memory, Global};

#[tactic(auto, unfolding(out_update::specs::Values::fid_value))]
pub(crate) fn fid_at(bytes: &[u8]) -> Result<(Fid, &[u8]), BuildFault>
    ensures value { Gives (λ x. (x.0, x.1.now)) result (fid_value bytes.now) }
    ensures free { IsErrOf result BuildFault.Memory → ⊥ }
{
    let (seq, rest) = u64_at(bytes)?;
    let (oid, rest) = u32_at(rest)?;
    let (ver, rest) = u32_at(rest)?;
    Ok((Fid { seq, oid, ver }, rest))
}

/// What the result of an attr_get says of a node.
#[tactic(auto, unfolding(crate::specs::Planners::seen_in))]
fn seen_in(bytes: &[u8]) -> Option<Seen>
    ensures { result ≡ seen_in bytes.now }
{
    let Ok((body, rest)) = Body::decode(bytes) else {
        return None;
    };
    match u32_at(rest) {
        Ok((attributes, _)) => Some(Seen { body, attributes }),
        Err(_) => None,
    }
}

/// The node that an attr_get tells of; an error tells of none.
pub(crate) fn node_in(fact: &UpdateResult) -> Option<Seen>
    ensures { result ≡ node_in fact.now }
{
    if fact.code == 0 {
        seen_in(fact.body.bytes())
    } else {
        None
    }
}

/// What a lookup tells that the name stands for; an error tells of nothing.
pub(crate) fn child_in(fact: &UpdateResult) -> Option<Fid>
    ensures value { result ≡ child_in fact.now }
    ensures fid { IsChild result }
{
    if fact.code != 0 {
        return None;
    }
    match fid_at(fact.body.bytes()) {
        Ok((fid, _)) => Some(fid),
        Err(_) => None,
    }
}

/// How many entries a count tells of; an error tells of none.
pub(crate) fn entries_in(fact: &UpdateResult) -> u32
    ensures { result ≡ entries_in fact.now }
{
    if fact.code != 0 {
        return 0;
    }
    match u32_at(fact.body.bytes()) {
        Ok((entries, _)) => entries,
        Err(_) => 0,
    }
}

/// What the result of an xattr_get says of an attribute.
pub(crate) fn attribute_in(alloc: Global, fact: &UpdateResult) -> Result<Option<Bytes>, Memory>
    ensures { IfOk result (λ v. v ≡ attribute_in fact.now) }
{
    if fact.code != 0 {
        return Ok(None);
    }
    Ok(Some(copied(alloc, fact.body.bytes())?))
}
