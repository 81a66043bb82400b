ghost use Rattle.std.specs.Prelude.{◌≡◌, ◌++◌, OnOk, OnErr};
ghost use Rattle.fid_space.specs.HexText.{hex_text};
ghost use Rattle.tree_model.specs.ReplyText.{reply_text};

use crate::errno::Errno;
use crate::text::print_attr;
use fid_space::{Bytes, Fid, print_hex};
use std::alloc::AllocError as Memory;

/// The answer to an operation.
#[derive(Clone, Debug, Drop)]
pub enum Reply {
    /// The operation was done.
    Ok,
    /// What a name stands for.
    Fid(Fid),
    /// A node: whether it is a directory, its mode, owner, group and links.
    Attr {
        dir: bool,
        mode: u16,
        uid: u32,
        gid: u32,
        links: u32,
    },
    /// The value of an extended attribute.
    Value(Bytes),
    /// The operation was refused, and changed nothing.
    Err(Errno),
}

impl Reply {
    /// Adds the text: `OK`, a FID, a node's attributes, a value in hexadecimal digits, or the name of the
    /// error. Want of memory adds nothing.
    pub fn print(&self, out: &mut Bytes) -> Result<(), Memory>
        ensures ok { OnOk result (out.new ≡ out.old ++ reply_text self.now) }
        ensures err { OnErr result (out.new ≡ out.old) }
    {
        match self {
            Reply::Ok => out.append(b"OK"),
            Reply::Fid(fid) => fid.print(out),
            Reply::Attr {
                dir,
                mode,
                uid,
                gid,
                links,
            } => print_attr(*dir, *mode, *uid, *gid, *links, out),
            Reply::Value(value) => print_value(value, out),
            Reply::Err(errno) => out.append(errno.word().as_bytes()),
        }
    }
}

/// Adds a value in hexadecimal digits. Want of memory adds nothing.
fn print_value(value: &Bytes, out: &mut Bytes) -> Result<(), Memory>
    ensures ok { OnOk result (out.new ≡ out.old ++ hex_text value.now) }
    ensures err { OnErr result (out.new ≡ out.old) }
{
    let mut digits = Bytes::new(out.alloc());
    print_hex(value.bytes(), &mut digits)?;
    out.append(digits.bytes())
}
