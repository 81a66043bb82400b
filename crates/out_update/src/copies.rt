ghost use Rattle.std.specs.Prelude.{◌≡◌, ◌++◌, IfOk, OnOk};

use crate::parts::Parts;
use crate::result::{UpdateReply, UpdateResult};
use crate::update::{Params, Update, UpdateRequest};
use fid_space::Bytes;
use std::alloc::{AllocError as Memory, Global};

fn copy_bytes(alloc: Global, bytes: &Bytes) -> Result<Bytes, Memory>
    ensures { IfOk result (λ b. b ≡ bytes.now) }
{
    let mut copy = Bytes::new(alloc);
    copy.append(bytes.bytes())?;
    Ok(copy)
}

impl Params {
    /// A copy that takes its memory from the allocator.
    pub fn copy(&self, alloc: Global) -> Result<Params, Memory>
        ensures { IfOk result (λ p. p ≡ self.now) }
    {
        let mut copy = Params::new(alloc);
        for param in &self.inner {
            copy.push(copy_bytes(alloc, param)?)?;
        }
        Ok(copy)
    }
}

impl Update {
    /// A copy that takes its memory from the allocator.
    pub fn copy(&self, alloc: Global) -> Result<Update, Memory>
        ensures { IfOk result (λ u. u ≡ self.now) }
    {
        Ok(Update {
            kind: self.kind,
            batch: self.batch,
            fid: self.fid,
            params: self.params.copy(alloc)?,
        })
    }
}

impl UpdateRequest {
    /// A copy that takes its memory from the allocator.
    pub fn copy(&self, alloc: Global) -> Result<UpdateRequest, Memory>
        ensures { IfOk result (λ r. r ≡ self.now) }
    {
        let mut copy = UpdateRequest::new(alloc);
        for update in &self.inner {
            copy.push(update.copy(alloc)?)?;
        }
        Ok(copy)
    }
}

impl UpdateResult {
    /// A copy that takes its memory from the allocator.
    pub fn copy(&self, alloc: Global) -> Result<UpdateResult, Memory>
        ensures { IfOk result (λ r. r ≡ self.now) }
    {
        Ok(UpdateResult {
            code: self.code,
            body: copy_bytes(alloc, &self.body)?,
        })
    }
}

impl UpdateReply {
    /// A copy that takes its memory from the allocator.
    pub fn copy(&self, alloc: Global) -> Result<UpdateReply, Memory>
        ensures { IfOk result (λ r. r ≡ self.now) }
    {
        let mut copy = UpdateReply::new(alloc);
        for item in &self.inner {
            copy.push(item.copy(alloc)?)?;
        }
        Ok(copy)
    }
}

impl Parts {
    /// A copy that takes its memory from the allocator.
    pub fn copy(&self, alloc: Global) -> Result<Parts, Memory>
        ensures { IfOk result (λ p. p ≡ self.now) }
    {
        let mut copy = Parts::new(alloc);
        for part in &self.inner {
            copy.push((part.0, part.1.copy(alloc)?))?;
        }
        Ok(copy)
    }
}
