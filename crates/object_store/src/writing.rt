ghost use Rattle.std.specs.Prelude.{◌≡◌, ◌++◌, ◌+◌, ◌≤◌, length, take, OnOk};
ghost use Rattle.std.specs.List.{flat_map};
ghost use Rattle.std.specs.BTreeMap.{IsOrdered};
ghost use Rattle.tree_model.specs.Fids.{name_cmp};
ghost use Rattle.out_update.specs.Spelling.{fid_bytes};
ghost use Rattle.object_store.specs.Bodies.{body_bytes};
ghost use Rattle.object_store.specs.Reads.{entry_bytes};

use crate::body::Body;
use crate::heads::fid_array;
use byte_grammar::put16;
use fid_space::Fid;
use std::alloc::AllocError as Memory;
use std::collections::BTreeMap;
use tree_model::Name;

/// Adds the 16 bytes of a FID at the end.
pub(crate) fn put_fid(out: &mut Vec<u8>, fid: Fid) -> Result<(), Memory>
    ensures { OnOk result (out.new.items ≡ out.old.items ++ fid_bytes fid) }
{
    out.extend_from_slice(&fid_array(fid))
}

/// Adds the 48 bytes of a body at the end.
pub(crate) fn put_body(out: &mut Vec<u8>, body: &Body) -> Result<(), Memory>
    ensures { OnOk result (out.new.items ≡ out.old.items ++ body_bytes body.now) }
{
    out.extend_from_slice(&body.encode())
}

/// Adds an entry: the length of its name, the name, and its FID, without padding.
#[tactic(auto, using(crate::proofs::Lengths::entry_length))]
pub(crate) fn put_entry(out: &mut Vec<u8>, name: &Name, fid: Fid) -> Result<(), Memory>
    ensures small { OnOk result (length (entry_bytes (name.now, fid)) ≤ 273) }
    ensures text { OnOk result (out.new.items ≡ out.old.items ++ entry_bytes (name.now, fid)) }
{
    let bytes = name.bytes();
    put16(out, bytes.len() as u16)?;
    out.extend_from_slice(bytes)?;
    put_fid(out, fid)?;
    Ok(())
}

/// Adds the first 33 entries.
pub(crate) fn put_names(out: &mut Vec<u8>, names: &BTreeMap<Name, Fid>) -> Result<(), Memory>
    ensures text { OnOk result (out.new.items ≡ out.old.items ++ flat_map entry_bytes (take 33 names.now.entries)) }
    ensures small { OnOk result (length out.new.items ≤ length out.old.items + 9009) }
    ensures ordered { IsOrdered name_cmp names.now }
{
    let _len = names.len();
    let mut left: u32 = 33;
    for (name, fid) in names {
        if left == 0 {
            return Ok(());
        }
        put_entry(out, name, *fid)?;
        left -= 1;
    }
    Ok(())
}
