ghost use Rattle.std.specs.Prelude.{◌≡◌, IfOk};

use fid_space::Bytes;
use std::alloc::{AllocError as Memory, Global};
use tree_model::Reply;
use update_record::Record;

fn copy_bytes(alloc: Global, bytes: &Bytes) -> Result<Bytes, Memory>
    ensures { IfOk result (λ b. b ≡ bytes.now) }
{
    let mut copy = Bytes::new(alloc);
    copy.append(bytes.bytes())?;
    Ok(copy)
}

fn copy_reply(alloc: Global, reply: &Reply) -> Result<Reply, Memory>
    ensures { IfOk result (λ r. r ≡ reply.now) }
{
    match reply {
        Reply::Ok => Ok(Reply::Ok),
        Reply::Fid(fid) => Ok(Reply::Fid(*fid)),
        Reply::Attr {
            dir,
            mode,
            uid,
            gid,
            links,
        } => Ok(Reply::Attr {
            dir: *dir,
            mode: *mode,
            uid: *uid,
            gid: *gid,
            links: *links,
        }),
        Reply::Value(bytes) => Ok(Reply::Value(copy_bytes(alloc, bytes)?)),
        Reply::Err(errno) => Ok(Reply::Err(*errno)),
    }
}

/// A copy of a record.
pub fn copy_record(alloc: Global, old: &Record) -> Result<Record, Memory>
    ensures { IfOk result (λ r. r ≡ old.now) }
{
    Ok(Record {
        id: old.id,
        stamp: old.stamp,
        number: old.number,
        client: old.client,
        reply: copy_reply(alloc, &old.reply)?,
        parts: old.parts.copy(alloc)?,
    })
}
