ghost use Rattle.std.specs.Prelude.{◌≡◌, ◌≤◌, true, length, IfOk};
ghost use Rattle.std.specs.Option.{option_map};
ghost use Rattle.std.specs.FinMap as map;
ghost use Rattle.out_update.specs.Spelling.{FitsUpdate};
ghost use Rattle.out_update.specs.Replies.{is_code, FitsResult};
ghost use Rattle.object_store.specs.Reads.{failed, found, node, holder, attr_get, xattr_get, lookup, names, count, reads};

use crate::body::ObjectKind;
use crate::meaning::{name_of, parameter};
use crate::object::Stored;
use crate::objects::Objects;
use crate::writing::{put_body, put_fid, put_names};
use byte_grammar::put32;
use fid_space::Bytes;
use out_update::{Kind, Update, UpdateResult};
use std::alloc::{AllocError as Memory, Global};

/// An error's result.
fn failed(alloc: Global, code: u32) -> UpdateResult
    requires { is_code code ≡ true }
    ensures value { result ≡ failed code }
    ensures fits { FitsResult result }
{
    UpdateResult {
        code,
        body: Bytes::new(alloc),
    }
}

fn found(alloc: Global, bytes: &[u8]) -> Result<UpdateResult, Memory>
    requires { length bytes.now ≤ 16384 }
    ensures value { IfOk result (λ r. r ≡ found bytes.now) }
    ensures fits { IfOk result FitsResult }
{
    let mut body = Bytes::new(alloc);
    body.append(bytes)?;
    Ok(UpdateResult { code: 0, body })
}

/// The object, if it is a file or a directory.
fn node(object: Option<&Stored>) -> Option<&Stored>
    ensures { option_map (λ o. o.now) result ≡ node (option_map (λ o. o.now) object.entry) }
{
    let object = object?;
    match object.body().kind {
        ObjectKind::File | ObjectKind::Directory => Some(object),
        ObjectKind::Stripe => None,
    }
}

/// The object, if it may have entries.
fn holder(object: Option<&Stored>) -> Option<&Stored>
    ensures { option_map (λ o. o.now) result ≡ holder (option_map (λ o. o.now) object.entry) }
{
    let object = object?;
    match object.body().kind {
        ObjectKind::File => None,
        ObjectKind::Directory | ObjectKind::Stripe => Some(object),
    }
}

#[tactic(auto, using(crate::proofs::Lengths::attr_length))]
fn attr_get(alloc: Global, object: Option<&Stored>) -> Result<UpdateResult, Memory>
    ensures value { IfOk result (λ r. r ≡ attr_get (option_map (λ o. o.now) object.entry)) }
    ensures fits { IfOk result FitsResult }
{
    let Some(object) = object else {
        return Ok(failed(alloc, 2));
    };
    let mut bytes = Vec::new(alloc);
    put_body(&mut bytes, object.body())?;
    put32(&mut bytes, object.attributes().len() as u32)?;
    put32(&mut bytes, 0)?;
    found(alloc, &bytes)
}

fn xattr_get(alloc: Global, object: Option<&Stored>, name: &[u8]) -> Result<UpdateResult, Memory>
    ensures value { IfOk result (λ r. r ≡ xattr_get (option_map (λ o. o.now) object.entry) name.now) }
    ensures fits { IfOk result FitsResult }
{
    let Some(object) = object else {
        return Ok(failed(alloc, 2));
    };
    let name = name_of(alloc, name)?;
    match object.attributes().get(&name) {
        Some(value) => found(alloc, value.bytes()),
        None => Ok(failed(alloc, 61)),
    }
}

#[tactic(auto, using(crate::proofs::Lengths::fid_length))]
fn lookup(alloc: Global, object: Option<&Stored>, name: &[u8]) -> Result<UpdateResult, Memory>
    ensures value { IfOk result (λ r. r ≡ lookup (option_map (λ o. o.now) object.entry) name.now) }
    ensures fits { IfOk result FitsResult }
{
    let Some(object) = object else {
        return Ok(failed(alloc, 20));
    };
    let name = name_of(alloc, name)?;
    let Some(fid) = object.entries().get(&name) else {
        return Ok(failed(alloc, 2));
    };
    let mut bytes = Vec::new(alloc);
    put_fid(&mut bytes, fid)?;
    found(alloc, &bytes)
}

fn names(alloc: Global, object: Option<&Stored>) -> Result<UpdateResult, Memory>
    ensures value { IfOk result (λ r. r ≡ names (option_map (λ o. o.now) object.entry)) }
    ensures fits { IfOk result FitsResult }
{
    let Some(object) = object else {
        return Ok(failed(alloc, 20));
    };
    let mut bytes = Vec::new(alloc);
    put_names(&mut bytes, object.entries().inner())?;
    found(alloc, &bytes)
}

#[tactic(auto, using(crate::proofs::Lengths::four))]
fn count(alloc: Global, object: Option<&Stored>) -> Result<UpdateResult, Memory>
    ensures value { IfOk result (λ r. r ≡ count (option_map (λ o. o.now) object.entry)) }
    ensures fits { IfOk result FitsResult }
{
    let Some(object) = object else {
        return Ok(failed(alloc, 20));
    };
    let mut bytes = Vec::new(alloc);
    put32(&mut bytes, object.entries().len() as u32)?;
    found(alloc, &bytes)
}

impl Objects {
    /// The result of a question, with 0 or an error number of Linux: attr_get gives the body and the count
    /// of attributes, and 2 where no file or directory has the FID; xattr_get the value, 2 likewise, and 61
    /// where there is no such attribute; lookup the FID under a name, 20 where the object isn't there or is a
    /// file, and 2 where the name isn't there; names the first 33 entries and count their number, 20 likewise. An
    /// update of a writing type has a result without bytes.
    #[tactic(auto, unfolding(crate::specs::Reads::reads))]
    pub fn read(&self, alloc: Global, ask: &Update) -> Result<UpdateResult, Memory>
        requires fits { FitsUpdate ask.now }
        ensures value { IfOk result (λ r. r ≡ reads self.now ask.now) }
        // It has a spelling.
        ensures spelled { IfOk result FitsResult }
    {
        let object = self.get(ask.fid);
        let name = parameter(ask, 0);
        match ask.kind {
            Kind::AttrGet => attr_get(alloc, node(object)),
            Kind::XattrGet => xattr_get(alloc, node(object), name),
            Kind::Lookup => lookup(alloc, holder(object), name),
            Kind::Names => names(alloc, holder(object)),
            Kind::Count => count(alloc, holder(object)),
            _ => found(alloc, &[]),
        }
    }
}
