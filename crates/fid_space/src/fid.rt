ghost use Rattle.std.specs.Prelude.{◌≡◌, ◌++◌, IfOk, OnOk, OnErr};
ghost use Rattle.fid_space.specs.FidText.{fid_text, IsFid};
ghost use Rattle.fid_space.specs.FidReading.{Sees, fid_at};

use crate::bytes::Bytes;
use crate::reading;
use std::alloc::AllocError as Memory;
use std::fmt;

/// Names an object of a cluster, as struct lu_fid in Lustre's lustre_idl.h. FIDs are in order by
/// sequence, then by object id, then by version.
#[derive(Clone, Copy, Debug, PartialEq, Eq, PartialOrd, Ord)]
pub struct Fid {
    /// The sequence, which says what target the object lives on.
    pub seq: u64,
    /// The object id within the sequence.
    pub oid: u32,
    /// The version: 0 for each object that a client makes.
    pub ver: u32,
}

/// Why a text is no FID, and the place of the first byte that can't stand where it does. Places are
/// counted in bytes from 0; the text's length is the place of a byte that is missing.
#[derive(Clone, Copy, Debug, PartialEq, Eq)]
pub enum FidFault {
    /// Another byte has to stand at the place: a bracket, a colon, 0x or a lower-case digit, or none.
    BadShape(usize),
    /// The digits that begin at the place have a leading zero, or are more than 16 of a sequence or
    /// more than 8 of an object id or a version.
    BadNumber(usize),
}

impl fmt::Display for Fid {
    ghost use Rattle.std.specs.Prelude.{Some};
    ghost use Rattle.fid_space.specs.FidText.{fid_text};

    ghost output = { λ f. Some (fid_text f) };

    fn fmt<W: fmt::Write>(&self, f: &mut fmt::Formatter<W>) -> fmt::Result {
        let seq = self.seq;
        let oid = self.oid;
        let ver = self.ver;
        write!(f, "[0x{seq:x}:0x{oid:x}:0x{ver:x}]")
    }
}

impl Fid {
    /// The root directory: FID_SEQ_ROOT of lustre_idl.h with object id 1.
    pub const ROOT: Fid = Fid {
        seq: 0x2_0000_0007,
        oid: 1,
        ver: 0,
    };

    /// Reads the text of a FID, judged from left to right: its three numbers in lower-case hexadecimal
    /// digits, as `lfs path2fid` of the Lustre Operations Manual shows it. Each FID has one text.
    pub fn parse(text: &[u8]) -> Result<Fid, FidFault>
        // What is read is spelled so.
        ensures found { IfOk result (λ f. IsFid f × (text.now ≡ fid_text f)) }
        // What is spelled so is read.
        ensures only { (f : Fid) → IsFid f → text.now ≡ fid_text f → result ≡ Ok f }
        // The first byte that can't stand where it does.
        ensures exact { Sees (λ f. f) result (fid_at text.now) }
    {
        reading::fid(text)
    }

    /// Adds the FID's text at the end. Want of memory adds nothing.
    pub fn print(&self, out: &mut Bytes) -> Result<(), Memory>
        ensures ok { OnOk result (out.new ≡ out.old ++ fid_text self.now) }
        ensures err { OnErr result (out.new ≡ out.old) }
    {
        let text = self.to_string(out.alloc())?;
        out.append(text.as_bytes())
    }
}

/// No two FIDs have one text. The call does nothing: its contract is a law.
pub fn one_text_per_fid()
    ensures { (f g : Fid) → IsFid f → IsFid g → fid_text f ≡ fid_text g → f ≡ g }
{}
