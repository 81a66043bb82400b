//! The parts of fixed length that images are made of.

ghost use Rattle.std.specs.Prelude.{◌≡◌, ◌++◌};
ghost use Rattle.std.specs.Int.{w16, w32};
ghost use Rattle.byte_grammar.specs.Numbers.{word};
ghost use Rattle.out_update.specs.Spelling.{fid_bytes};
ghost use Rattle.object_store.specs.Bodies.{body_bytes};

use crate::body::{Body, number_of_kind};
use fid_space::Fid;

/// The bytes of a FID.
#[tactic(auto, unfolding(byte_grammar::specs::Numbers::word))]
pub(crate) fn fid_array(fid: Fid) -> [u8; 16]
    ensures { result ≡ fid_bytes fid }
{
    let mut bytes = [0; 16];
    bytes[..8].copy_from_slice(&fid.seq.to_le_bytes());
    bytes[8..12].copy_from_slice(&fid.oid.to_le_bytes());
    bytes[12..].copy_from_slice(&fid.ver.to_le_bytes());
    bytes
}

impl Body {
    /// Its 48 bytes: kind, mode, owner, group, links, layout, FID and index.
    #[tactic(auto, unfolding(byte_grammar::specs::Numbers::word, crate::specs::Bodies::body_bytes))]
    pub fn encode(&self) -> [u8; 48]
        ensures { result ≡ body_bytes self.now }
    {
        let mut bytes = [0; 48];
        bytes[..4].copy_from_slice(&number_of_kind(self.kind).to_le_bytes());
        bytes[4..8].copy_from_slice(&self.mode.to_le_bytes());
        bytes[8..12].copy_from_slice(&self.uid.to_le_bytes());
        bytes[12..16].copy_from_slice(&self.gid.to_le_bytes());
        bytes[16..20].copy_from_slice(&self.links.to_le_bytes());
        bytes[20..28].copy_from_slice(&self.layout.encode());
        bytes[28..44].copy_from_slice(&fid_array(self.fid));
        bytes[44..].copy_from_slice(&self.index.to_le_bytes());
        bytes
    }
}

/// What stands before the parts of an object: its FID, its body, and how many entries and attributes it has.
#[tactic(auto, unfolding(byte_grammar::specs::Numbers::word, crate::specs::Bodies::body_bytes))]
pub(crate) fn object_head(fid: Fid, body: &Body, entries: u32, attributes: u32) -> [u8; 72]
    ensures { result ≡ fid_bytes fid ++ (body_bytes body.now ++ (word w32 entries ++ word w32 attributes)) }
{
    let mut head = [0; 72];
    head[..16].copy_from_slice(&fid_array(fid));
    head[16..64].copy_from_slice(&body.encode());
    head[64..68].copy_from_slice(&entries.to_le_bytes());
    head[68..].copy_from_slice(&attributes.to_le_bytes());
    head
}

/// What stands before the name of an entry: the length of the name, zeros, and the FID.
#[tactic(auto, unfolding(byte_grammar::specs::Numbers::word))]
pub(crate) fn entry_head(name_len: u16, fid: Fid) -> [u8; 24]
    ensures { result ≡ word w16 name_len ++ (word w16 0 ++ (word w32 0 ++ fid_bytes fid)) }
{
    let mut head = [0; 24];
    head[..2].copy_from_slice(&name_len.to_le_bytes());
    head[8..].copy_from_slice(&fid_array(fid));
    head
}

/// What stands before the name and the value of an attribute: their lengths, and zeros.
#[tactic(auto, unfolding(byte_grammar::specs::Numbers::word))]
pub(crate) fn attribute_head(name_len: u16, value_len: u16) -> [u8; 8]
    ensures { result ≡ word w16 name_len ++ (word w16 value_len ++ word w32 0) }
{
    let [a, b] = name_len.to_le_bytes();
    let [c, d] = value_len.to_le_bytes();
    [a, b, c, d, 0, 0, 0, 0]
}

/// What stands before all objects: their count, and zeros.
#[tactic(auto, unfolding(byte_grammar::specs::Numbers::word))]
pub(crate) fn image_head(count: u32) -> [u8; 8]
    ensures { result ≡ word w32 count ++ word w32 0 }
{
    let mut head = [0; 8];
    head[..4].copy_from_slice(&count.to_le_bytes());
    head
}
