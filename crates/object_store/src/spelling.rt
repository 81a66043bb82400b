ghost use Rattle.std.specs.Prelude.{◌≡◌, ◌++◌, ◌≤◌, ◌<◌, ◌^◌, ℕ, length, OnOk, OnErr};
ghost use Rattle.std.specs.BTreeMap.{IsOrdered};
ghost use Rattle.std.specs.List.{flat_map, AllByRecursion};
ghost use Rattle.tree_model.specs.Fids.{fid_cmp, name_cmp};
ghost use Rattle.fid_space.specs.FidText.{IsFid};
ghost use Rattle.object_store.specs.ImageText.{padded_text, entry_text, attribute_text, object_text, FitsEntry, FitsAttribute, FitsObject, IsFront};

use crate::body::Body;
use crate::heads::{attribute_head, entry_head, object_head};
use crate::object::Stored;
use byte_grammar::padding_of;
use fid_space::{Bytes, Fid};
use std::alloc::AllocError as Memory;
use std::collections::BTreeMap;
use tree_model::Name;

/// Adds bytes, and zeros up to a multiple of 8.
#[tactic(auto, unfolding(crate::specs::ImageText::padded_text, byte_grammar::specs::Numbers::zeros))]
fn spell_padded(out: &mut Bytes, bytes: &[u8]) -> Result<(), Memory>
    requires { length bytes.now ≤ 4096 }
    ensures text { OnOk result (out.new ≡ out.old ++ padded_text bytes.now) }
    ensures front { OnErr result (IsFront (padded_text bytes.now) out.old out.new) }
{
    let zeros = [0u8; 8];
    out.append(bytes)?;
    out.append(&zeros[..padding_of(bytes.len() as u32)])?;
    Ok(())
}

/// Adds an entry.
#[tactic(auto, unfolding(crate::specs::ImageText::entry_text))]
fn spell_entry(out: &mut Bytes, name: &Name, fid: Fid) -> Result<(), Memory>
    ensures text { OnOk result (out.new ≡ out.old ++ entry_text (name.now, fid)) }
    ensures front { OnErr result (IsFront (entry_text (name.now, fid)) out.old out.new) }
    ensures fits { FitsEntry (name.now, fid) }
{
    let bytes = name.bytes();
    out.append(&entry_head(bytes.len() as u16, fid))?;
    spell_padded(out, bytes)?;
    Ok(())
}

/// Adds an attribute.
#[tactic(auto, unfolding(crate::specs::ImageText::attribute_text))]
fn spell_attribute(out: &mut Bytes, name: &Name, value: &[u8]) -> Result<(), Memory>
    requires { length value.now ≤ 4096 }
    ensures text { OnOk result (out.new ≡ out.old ++ attribute_text (name.now, value.now)) }
    ensures front { OnErr result (IsFront (attribute_text (name.now, value.now)) out.old out.new) }
    ensures fits { FitsAttribute (name.now, value.now) }
{
    let bytes = name.bytes();
    out.append(&attribute_head(bytes.len() as u16, value.len() as u16))?;
    spell_padded(out, bytes)?;
    spell_padded(out, value)?;
    Ok(())
}

/// Adds entries by their names.
fn spell_entries(out: &mut Bytes, entries: &BTreeMap<Name, Fid>) -> Result<(), Memory>
    ensures text { OnOk result (out.new ≡ out.old ++ flat_map entry_text entries.now.entries) }
    ensures front { OnErr result (IsFront (flat_map entry_text entries.now.entries) out.old out.new) }
    ensures fits { OnOk result (AllByRecursion FitsEntry entries.now.entries) }
    ensures ordered { IsOrdered name_cmp entries.now }
{
    let _len = entries.len();
    for (name, fid) in entries {
        spell_entry(out, name, *fid)?;
    }
    Ok(())
}

/// Adds attributes by their names.
fn spell_attributes(out: &mut Bytes, attributes: &BTreeMap<Name, Bytes>) -> Result<(), Memory>
    requires { IsOrdered name_cmp attributes.now → AllByRecursion (λ a. length a.1 ≤ 4096) attributes.now.entries }
    ensures text { OnOk result (out.new ≡ out.old ++ flat_map attribute_text attributes.now.entries) }
    ensures front { OnErr result (IsFront (flat_map attribute_text attributes.now.entries) out.old out.new) }
    ensures fits { OnOk result (AllByRecursion FitsAttribute attributes.now.entries) }
    ensures ordered { IsOrdered name_cmp attributes.now }
{
    let _len = attributes.len();
    for (name, value) in attributes {
        spell_attribute(out, name, value.bytes())?;
    }
    Ok(())
}

/// The same body, whose numbers fit their types.
fn whole(body: Body) -> Body
    ensures value { result ≡ body }
    ensures owner { (body.uid < 2 ^ 32) × (body.gid < 2 ^ 32) }
    ensures other { IsFid body.fid }
{
    body
}

/// Adds an object.
#[tactic(auto, unfolding(crate::specs::ImageText::object_text))]
fn spell_object(out: &mut Bytes, fid: Fid, object: &Stored) -> Result<(), Memory>
    ensures text { OnOk result (out.new ≡ out.old ++ object_text (fid, object.now)) }
    ensures front { OnErr result (IsFront (object_text (fid, object.now)) out.old out.new) }
    ensures fits { OnOk result (FitsObject (fid, object.now)) }
{
    let body = whole(*object.body());
    let entries = object.entries();
    let attributes = object.attributes();
    out.append(&object_head(fid, &body, entries.len() as u32, attributes.len() as u32))?;
    spell_entries(out, entries.inner())?;
    spell_attributes(out, attributes.inner())?;
    Ok(())
}

/// Adds objects by their FIDs.
pub(crate) fn spell_objects(out: &mut Bytes, objects: &BTreeMap<Fid, Stored>) -> Result<(), Memory>
    ensures text { OnOk result (out.new ≡ out.old ++ flat_map object_text objects.now.entries) }
    ensures front { OnErr result (IsFront (flat_map object_text objects.now.entries) out.old out.new) }
    ensures fits { OnOk result (AllByRecursion FitsObject objects.now.entries) }
    ensures ordered { IsOrdered fid_cmp objects.now }
{
    let _len = objects.len();
    for (fid, object) in objects {
        spell_object(out, *fid, object)?;
    }
    Ok(())
}
