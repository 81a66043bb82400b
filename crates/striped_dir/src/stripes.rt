ghost use Rattle.std.specs.Prelude.{◌≡◌, ◌<◌, ◌∷◌, [], IfOk};
ghost use Rattle.striped_dir.specs.Layouts.{laid};
ghost use Rattle.striped_dir.specs.Parts.{FitsDirectory, stripe_body, made_stripe, removed_stripe, made_stripes, removed_stripes};

use crate::layout::Layout;
use crate::placing::stripe;
use fid_space::{Bytes, Cluster, Fid};
use out_update::{Kind, Params, Parts, Update, UpdateRequest};
use std::alloc::{AllocError as Memory, Global};

/// The creates of a directory's stripes by index: one pair for each, of its target and its one update, so a
/// target may come more than once. A plain directory has none. The batch is that of the record, at least 1.
#[tactic(auto, using(crate::proofs::Indices::one_more), unfolding(crate::specs::Parts::made_stripes))]
pub fn make_parts(
    alloc: Global,
    cluster: Cluster,
    dir: Fid,
    layout: Layout,
    batch: u64,
) -> Result<Parts, Memory>
    requires fits { FitsDirectory cluster dir (laid layout) }
    ensures { IfOk result (λ parts. parts ≡ made_stripes cluster dir (laid layout) batch) }
{
    let mut parts = Parts::new(alloc);
    for index in 0..layout.count {
        parts.push(made(alloc, cluster, dir, layout, batch, index)?)?;
    }
    Ok(parts)
}

/// The destroys of a directory's stripes by index: one pair for each, of its target and its one update, so
/// a target may come more than once. A plain directory has none. The batch is that of the record, at least 1.
#[tactic(auto, using(crate::proofs::Indices::one_more), unfolding(crate::specs::Parts::removed_stripes))]
pub fn remove_parts(
    alloc: Global,
    cluster: Cluster,
    dir: Fid,
    layout: Layout,
    batch: u64,
) -> Result<Parts, Memory>
    requires fits { FitsDirectory cluster dir (laid layout) }
    ensures { IfOk result (λ parts. parts ≡ removed_stripes cluster dir (laid layout) batch) }
{
    let mut parts = Parts::new(alloc);
    for index in 0..layout.count {
        parts.push(removed(alloc, cluster, dir, layout, batch, index)?)?;
    }
    Ok(parts)
}

/// The target of a stripe with the update that makes it.
fn made(
    alloc: Global,
    cluster: Cluster,
    dir: Fid,
    layout: Layout,
    batch: u64,
    index: u8,
) -> Result<(u8, UpdateRequest), Memory>
    requires fits { FitsDirectory cluster dir (laid layout) }
    requires within { index < layout.count }
    ensures { IfOk result (λ pair. pair ≡ made_stripe cluster dir (laid layout) batch index) }
{
    let (target, fid) = stripe(cluster, dir, layout, index);
    let mut params = Params::new(alloc);
    params.push(body_of(alloc, dir, index)?)?;
    let kind = Kind::Create;
    let update = Update {
        kind,
        batch,
        fid,
        params,
    };
    Ok((target, one(alloc, update)?))
}

/// The target of a stripe with the update that removes it.
fn removed(
    alloc: Global,
    cluster: Cluster,
    dir: Fid,
    layout: Layout,
    batch: u64,
    index: u8,
) -> Result<(u8, UpdateRequest), Memory>
    requires fits { FitsDirectory cluster dir (laid layout) }
    requires within { index < layout.count }
    ensures { IfOk result (λ pair. pair ≡ removed_stripe cluster dir (laid layout) batch index) }
{
    let (target, fid) = stripe(cluster, dir, layout, index);
    let params = Params::new(alloc);
    let kind = Kind::Destroy;
    let update = Update {
        kind,
        batch,
        fid,
        params,
    };
    Ok((target, one(alloc, update)?))
}

/// A request of one update.
fn one(alloc: Global, update: Update) -> Result<UpdateRequest, Memory>
    ensures { IfOk result (λ request. request ≡ update ∷ []) }
{
    let mut request = UpdateRequest::new(alloc);
    request.push(update)?;
    Ok(request)
}

/// The body of a stripe as its create has it.
#[tactic(auto, unfolding(crate::specs::Parts::stripe_body, byte_grammar::specs::Numbers::word, byte_grammar::specs::Numbers::zeros))]
fn body_of(alloc: Global, dir: Fid, index: u8) -> Result<Bytes, Memory>
    ensures { IfOk result (λ body. body ≡ stripe_body dir index) }
{
    let mut body = Bytes::new(alloc);
    body.append(&3u32.to_le_bytes())?;
    body.append(&[0; 24])?;
    body.append(&dir.seq.to_le_bytes())?;
    body.append(&dir.oid.to_le_bytes())?;
    body.append(&dir.ver.to_le_bytes())?;
    body.append(&u32::from(index).to_le_bytes())?;
    Ok(body)
}
