ghost use Rattle.std.specs.Prelude.{◌≡◌, ◌≢◌, ◌++◌, ◌∷◌, [], ℕ, List, map, IfOk, IfErr, IsErr, OnOk, OnErr};
ghost use Rattle.tree_model.specs.OpText.{op_words, op_text, IsOp};
ghost use Rattle.tree_model.specs.OpReading.{IsOpFault};
ghost use Rattle.tree_model.specs.Participants.{first_fid};
ghost use Rattle.tree_model.specs.declared.op.Op.{Op};
ghost use Rattle.std.specs.List.{slice_split};
ghost use Rattle.std.specs.Prelude.{◌==◌};

use crate::name::Name;
use crate::op_print::print_op;
use crate::op_words::of_words;
use crate::reading::words;
use fid_space::{Bytes, Cluster, Fid};
use std::alloc::{AllocError as Memory, Global};

/// An operation on the tree. The client chooses the FID of a new node.
#[derive(Clone, Debug, Drop)]
pub enum Op {
    /// Makes a file and its entry, as POSIX `open` does with `O_CREAT` and `O_EXCL`.
    Create {
        parent: Fid,
        name: Name,
        fid: Fid,
    },
    /// Makes a directory and its entry, as POSIX `mkdir` does: plain, or with a count of stripes, the
    /// first of which stands on the target with this index.
    Mkdir {
        parent: Fid,
        name: Name,
        fid: Fid,
        stripes: Option<(u32, u32)>,
    },
    /// Gives a file one more name, as POSIX `link` does.
    Link {
        parent: Fid,
        name: Name,
        fid: Fid,
    },
    /// Takes a file's name away, as POSIX `unlink` does.
    Unlink {
        parent: Fid,
        name: Name,
    },
    /// Takes an empty directory away, as POSIX `rmdir` does.
    Rmdir {
        parent: Fid,
        name: Name,
    },
    /// Gives a node another name, in the place of what had it, as POSIX `rename` does.
    Rename {
        parent: Fid,
        name: Name,
        to_parent: Fid,
        to_name: Name,
    },
    /// Sets mode, owner and group.
    SetAttr {
        fid: Fid,
        mode: u16,
        uid: u32,
        gid: u32,
    },
    /// Sets an extended attribute.
    SetXattr {
        fid: Fid,
        name: Name,
        value: Bytes,
    },
    /// Takes an extended attribute away.
    DelXattr {
        fid: Fid,
        name: Name,
    },
    /// Gives a directory other stripes, as `lfs migrate -m` does.
    Migrate {
        dir: Fid,
        count: u32,
        index: u32,
    },
    /// Asks what a name stands for.
    Lookup {
        parent: Fid,
        name: Name,
    },
    /// Asks for a node's attributes.
    GetAttr {
        fid: Fid,
    },
    /// Asks for the value of an extended attribute.
    GetXattr {
        fid: Fid,
        name: Name,
    },
}

/// Which operation it is.
#[derive(Clone, Copy, Debug, PartialEq, Eq)]
pub enum OpKind {
    Create,
    Mkdir,
    Link,
    Unlink,
    Rmdir,
    Rename,
    SetAttr,
    SetXattr,
    DelXattr,
    Migrate,
    Lookup,
    GetAttr,
    GetXattr,
}

/// Why a text is no operation. The first word is judged first, then the count of the words, then each
/// word from the left.
#[derive(Clone, Copy, Debug, PartialEq, Eq)]
pub enum OpFault {
    /// The first word names no operation.
    BadOperation,
    /// The operation has another count of words.
    BadWords,
    /// A number isn't spelled as one, or passes its limit.
    BadNumber,
    /// A FID isn't spelled as one.
    BadFid,
    /// A FID has no place in the cluster.
    NoHome,
    /// A name isn't spelled as one.
    BadName,
    /// A value isn't spelled as one, or has more than 4,096 bytes.
    BadHex,
    /// Memory ran out.
    Memory,
}

/// A client's request.
#[derive(Debug, Drop)]
pub struct Request {
    /// Stands once in a scenario.
    pub number: u32,
    /// Who asks.
    pub client: u8,
    /// What is asked for.
    pub op: Op,
}

impl Op {
    /// Reads an operation whose FIDs have a place in the cluster. The words are parted by one space each.
    pub fn parse(alloc: Global, text: &[u8], cluster: Cluster) -> Result<Op, OpFault>
        ensures ok { IfOk result (λ op. IsOp cluster op × (text.now ≡ op_text op)) }
        ensures refused { IsErr result → result ≢ Err OpFault.Memory → (op : Op) → IsOp cluster op → text.now ≢ op_text op }
        ensures fault { IfErr result (λ fault. fault ≢ OpFault.Memory → IsOpFault cluster (slice_split (λ b. b == 32) text.now) fault) }
    {
        let words = match words(alloc, text) {
            Ok(words) => words,
            Err(_) => return Err(OpFault::Memory),
        };
        Op::from_words(alloc, words.as_slice(), cluster)
    }

    /// Reads an operation from the words of its text, as one that stands at the end of a longer line.
    pub fn from_words(alloc: Global, words: &[&[u8]], cluster: Cluster) -> Result<Op, OpFault>
        ensures ok { IfOk result (λ op. IsOp cluster op × (map (λ w. w.now) words.now ≡ op_words op)) }
        ensures refused { IsErr result → result ≢ Err OpFault.Memory → (op : Op) → IsOp cluster op → map (λ w. w.now) words.now ≢ op_words op }
        ensures fault { IfErr result (λ fault. fault ≢ OpFault.Memory → IsOpFault cluster (map (λ w. w.now) words.now) fault) }
    {
        of_words(alloc, words, cluster)
    }

    /// The first FID in the text, whose place is the operation's home.
    pub fn first_fid(&self) -> Fid
        ensures { result ≡ first_fid self.now }
    {
        match self {
            Op::Create { parent, .. }
            | Op::Mkdir { parent, .. }
            | Op::Link { parent, .. }
            | Op::Unlink { parent, .. }
            | Op::Rmdir { parent, .. }
            | Op::Rename { parent, .. }
            | Op::Lookup { parent, .. } => *parent,
            Op::SetAttr { fid, .. }
            | Op::SetXattr { fid, .. }
            | Op::DelXattr { fid, .. }
            | Op::GetAttr { fid }
            | Op::GetXattr { fid, .. } => *fid,
            Op::Migrate { dir, .. } => *dir,
        }
    }

    /// Adds the text. Want of memory adds nothing.
    pub fn print(&self, out: &mut Bytes) -> Result<(), Memory>
        ensures ok { OnOk result (out.new ≡ out.old ++ op_text self.now) }
        ensures err { OnErr result (out.new ≡ out.old) }
    {
        let mut text = Bytes::new(out.alloc());
        print_op(self, &mut text)?;
        out.append(text.bytes())
    }

    /// A copy with memory of its own.
    pub fn copy(&self) -> Result<Op, Memory>
        ensures { IfOk result (λ op. op ≡ self.now) }
    {
        self.clone()
    }
}
