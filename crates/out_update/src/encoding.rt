ghost use Rattle.std.specs.Prelude.{◌≡◌, ◌≤◌, ◌<◌, ◌^◌, ◌++◌, length, OnOk, OnErr, All};
ghost use Rattle.std.specs.Int.{w16, w32, w64};
ghost use Rattle.byte_grammar.specs.Numbers.{word};
ghost use Rattle.out_update.specs.Spelling.{param_text, params_text, fid_bytes, update_text, updates_text, request_text, FitsUpdate, FitsRequest};
ghost use Rattle.out_update.specs.Replies.{result_text, results_text, reply_text, FitsResult, FitsReply};

use crate::kinds::number_of_kind;
use crate::result::{UpdateReply, UpdateResult};
use crate::update::{Update, UpdateRequest};
use byte_grammar::{padding_of, put_zeros, put16, put32, put64};
use fid_space::{Bytes, Fid};
use std::alloc::AllocError as Memory;

fn put_param(out: &mut Vec<u8>, param: &Bytes) -> Result<(), Memory>
    requires { length param.now < 2 ^ 16 }
    ensures { OnOk result (out.new.items ≡ out.old.items ++ param_text param.now) }
{
    let len = param.len() as u16;
    put16(out, len)?;
    put_zeros(out, 2)?;
    put_zeros(out, 4)?;
    out.extend_from_slice(param.bytes())?;
    put_zeros(out, padding_of(len as u32))?;
    Ok(())
}

fn put_fid(out: &mut Vec<u8>, fid: Fid) -> Result<(), Memory>
    ensures { OnOk result (out.new.items ≡ out.old.items ++ fid_bytes fid) }
{
    put64(out, fid.seq)?;
    put32(out, fid.oid)?;
    put32(out, fid.ver)?;
    Ok(())
}

#[tactic(auto, unfolding(crate::specs::Spelling::params_text))]
fn put_params(out: &mut Vec<u8>, params: &[Bytes]) -> Result<(), Memory>
    requires { All (λ p. length p < 2 ^ 16) params.now }
    ensures { OnOk result (out.new.items ≡ out.old.items ++ params_text params.now) }
{
    for param in params {
        put_param(out, param)?;
    }
    Ok(())
}

fn put_update(out: &mut Vec<u8>, update: &Update) -> Result<(), Memory>
    requires { FitsUpdate update.now }
    ensures { OnOk result (out.new.items ≡ out.old.items ++ update_text update.now) }
{
    put16(out, number_of_kind(update.kind))?;
    put16(out, update.params.len() as u16)?;
    put32(out, 0)?;
    put64(out, update.batch)?;
    put_fid(out, update.fid)?;
    put_params(out, update.params.inner.as_slice())?;
    Ok(())
}

#[tactic(auto, unfolding(crate::specs::Spelling::updates_text))]
fn put_updates(out: &mut Vec<u8>, updates: &[Update]) -> Result<(), Memory>
    requires { All FitsUpdate updates.now }
    ensures { OnOk result (out.new.items ≡ out.old.items ++ updates_text updates.now) }
{
    for update in updates {
        put_update(out, update)?;
    }
    Ok(())
}

impl UpdateRequest {
    /// Adds the request's spelling at the end. Want of memory adds nothing.
    pub fn encode(&self, out: &mut Bytes) -> Result<(), Memory>
        requires { FitsRequest self.now }
        ensures ok { OnOk result (out.new ≡ out.old ++ request_text self.now) }
        ensures err { OnErr result (out.new ≡ out.old) }
    {
        let mut text = Vec::new(out.alloc());
        put32(&mut text, 0xbdde_0001)?;
        put16(&mut text, self.inner.len() as u16)?;
        put_zeros(&mut text, 2)?;
        put_updates(&mut text, self.inner.as_slice())?;
        out.append(&text)
    }
}

fn put_result(out: &mut Vec<u8>, item: &UpdateResult) -> Result<(), Memory>
    requires { FitsResult item.now }
    ensures { OnOk result (out.new.items ≡ out.old.items ++ result_text item.now) }
{
    put32(out, item.code)?;
    put32(out, item.body.len() as u32)?;
    out.extend_from_slice(item.body.bytes())?;
    put_zeros(out, padding_of(item.body.len() as u32))?;
    Ok(())
}

#[tactic(auto, unfolding(crate::specs::Replies::results_text))]
fn put_results(out: &mut Vec<u8>, results: &[UpdateResult]) -> Result<(), Memory>
    requires { All FitsResult results.now }
    ensures { OnOk result (out.new.items ≡ out.old.items ++ results_text results.now) }
{
    for item in results {
        put_result(out, item)?;
    }
    Ok(())
}

impl UpdateReply {
    /// Adds the reply's spelling at the end. Want of memory adds nothing.
    pub fn encode(&self, out: &mut Bytes) -> Result<(), Memory>
        requires { FitsReply self.now }
        ensures ok { OnOk result (out.new ≡ out.old ++ reply_text self.now) }
        ensures err { OnErr result (out.new ≡ out.old) }
    {
        let mut text = Vec::new(out.alloc());
        put32(&mut text, 0xbdde_0101)?;
        put16(&mut text, self.inner.len() as u16)?;
        put_zeros(&mut text, 2)?;
        put_results(&mut text, self.inner.as_slice())?;
        out.append(&text)
    }
}
