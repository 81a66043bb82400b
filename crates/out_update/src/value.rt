ghost use Rattle.std.specs.Prelude.{◌≡◌};
ghost use Rattle.byte_grammar.specs.Values.{Gives, many};
ghost use Rattle.out_update.specs.Values.{param_value, fid_value, update_value, request_at, result_value, reply_at};

use crate::kinds::kind_of;
use crate::result::{UpdateReply, UpdateResult};
use crate::update::{Params, Update, UpdateRequest};
use byte_grammar::{BuildFault, padding_of, part, u16_at, u32_at, u64_at};
use fid_space::{Bytes, Fid};
use std::alloc::Global;

#[tactic(auto, unfolding(crate::specs::Values::param_value))]
fn param_of(alloc: Global, bytes: &[u8]) -> Result<(Bytes, &[u8]), BuildFault>
    ensures { Gives (λ x. (x.0, x.1.now)) result (param_value bytes.now) }
{
    let (size, rest) = u16_at(bytes)?;
    let (_, rest) = part(6, rest)?;
    let (text, rest) = part(size as usize, rest)?;
    let (_, rest) = part(padding_of(size as u32), rest)?;
    let mut param = Bytes::new(alloc);
    param.append(text)?;
    Ok((param, rest))
}

#[tactic(auto, unfolding(crate::specs::Values::fid_value))]
fn fid_of(bytes: &[u8]) -> Result<(Fid, &[u8]), BuildFault>
    ensures { Gives (λ x. (x.0, x.1.now)) result (fid_value bytes.now) }
{
    let (seq, rest) = u64_at(bytes)?;
    let (oid, rest) = u32_at(rest)?;
    let (ver, rest) = u32_at(rest)?;
    Ok((Fid { seq, oid, ver }, rest))
}

fn params_of(alloc: Global, count: u16, bytes: &[u8]) -> Result<(Params, &[u8]), BuildFault>
    ensures { Gives (λ x. (x.0, x.1.now)) result (many param_value count bytes.now) }
{
    let mut params = Params::new(alloc);
    let mut rest = bytes;
    for _ in 0..count {
        let (param, after) = param_of(alloc, rest)?;
        params.push(param)?;
        rest = after;
    }
    Ok((params, rest))
}

#[tactic(auto, unfolding(crate::specs::Values::update_value))]
fn update_of(alloc: Global, bytes: &[u8]) -> Result<(Update, &[u8]), BuildFault>
    ensures { Gives (λ x. (x.0, x.1.now)) result (update_value bytes.now) }
{
    let (code, rest) = u16_at(bytes)?;
    let Some(kind) = kind_of(code) else {
        return Err(BuildFault::Short);
    };
    let (count, rest) = u16_at(rest)?;
    let (_, rest) = part(4, rest)?;
    let (batch, rest) = u64_at(rest)?;
    let (fid, rest) = fid_of(rest)?;
    let (params, rest) = params_of(alloc, count, rest)?;
    let update = Update {
        kind,
        batch,
        fid,
        params,
    };
    Ok((update, rest))
}

fn updates_of(alloc: Global, count: u16, bytes: &[u8]) -> Result<(UpdateRequest, &[u8]), BuildFault>
    ensures { Gives (λ x. (x.0, x.1.now)) result (many update_value count bytes.now) }
{
    let mut updates = UpdateRequest::new(alloc);
    let mut rest = bytes;
    for _ in 0..count {
        let (update, after) = update_of(alloc, rest)?;
        updates.push(update)?;
        rest = after;
    }
    Ok((updates, rest))
}

/// The request that the first of these bytes spell, where they spell one, and the bytes behind it. Nothing
/// is judged: this is for bytes that were.
#[tactic(auto, unfolding(crate::specs::Values::request_at))]
pub fn request_of(alloc: Global, bytes: &[u8]) -> Result<(UpdateRequest, &[u8]), BuildFault>
    ensures { Gives (λ x. (x.0, x.1.now)) result (request_at bytes.now) }
{
    let (_, rest) = part(4, bytes)?;
    let (count, rest) = u16_at(rest)?;
    let (_, rest) = part(2, rest)?;
    updates_of(alloc, count, rest)
}

#[tactic(auto, unfolding(crate::specs::Values::result_value))]
fn result_of(alloc: Global, bytes: &[u8]) -> Result<(UpdateResult, &[u8]), BuildFault>
    ensures { Gives (λ x. (x.0, x.1.now)) result (result_value bytes.now) }
{
    let (code, rest) = u32_at(bytes)?;
    let (size, rest) = u32_at(rest)?;
    let (text, rest) = part(size as usize, rest)?;
    let (_, rest) = part(padding_of(size), rest)?;
    let mut body = Bytes::new(alloc);
    body.append(text)?;
    Ok((UpdateResult { code, body }, rest))
}

fn results_of(alloc: Global, count: u16, bytes: &[u8]) -> Result<(UpdateReply, &[u8]), BuildFault>
    ensures { Gives (λ x. (x.0, x.1.now)) result (many result_value count bytes.now) }
{
    let mut results = UpdateReply::new(alloc);
    let mut rest = bytes;
    for _ in 0..count {
        let (item, after) = result_of(alloc, rest)?;
        results.push(item)?;
        rest = after;
    }
    Ok((results, rest))
}

/// The reply that the first of these bytes spell, where they spell one, and the bytes behind it. Nothing is
/// judged: this is for bytes that were.
#[tactic(auto, unfolding(crate::specs::Values::reply_at))]
pub fn reply_of(alloc: Global, bytes: &[u8]) -> Result<(UpdateReply, &[u8]), BuildFault>
    ensures { Gives (λ x. (x.0, x.1.now)) result (reply_at bytes.now) }
{
    let (_, rest) = part(4, bytes)?;
    let (count, rest) = u16_at(rest)?;
    let (_, rest) = part(2, rest)?;
    results_of(alloc, count, rest)
}
