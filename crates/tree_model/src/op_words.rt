ghost use Rattle.std.specs.Prelude.{◌≡◌, ◌≢◌, ◌≤◌, ◌<◌, ◌^◌, ◌-◌, ◌++◌, ◌∷◌, [], ℕ, List, map, codes, true, IfOk, IfErr, IfSome, IfNone, IsErr, OnOk};
ghost use Rattle.std.specs.Fmt.{decimal};
ghost use Rattle.fid_space.specs.FidText.{fid_text, IsFid};
ghost use Rattle.fid_space.specs.declared.fid.Fid.{Fid};
ghost use Rattle.tree_model.specs.Names.{IsName, name_word};
ghost use Rattle.fid_space.specs.HexText.{hex_text};
ghost use Rattle.tree_model.specs.OpText.{op_words, IsOp, IsPlaced, IsXattrValue};
ghost use Rattle.tree_model.specs.OpReading.{kind_word, forms, Field, FidField, NameField, HexField, NumberField, u32_field, IsGood, IsBad, IsFirstBad, IsKindFault, IsOpFault};
ghost use Rattle.tree_model.specs.declared.op.Op.{Op};
ghost use Rattle.tree_model.specs.declared.op.OpKind.{OpKind};

use crate::name::{Name, NameFault};
use crate::op::{Op, OpFault, OpKind};
use crate::reading::number;
use crate::spelling::hex_bytes;
use fid_space::{Bytes, Cluster, Fid, locate};
use std::alloc::Global;

/// Reads an operation from the words of its text.
pub fn of_words(alloc: Global, words: &[&[u8]], cluster: Cluster) -> Result<Op, OpFault>
    ensures ok { IfOk result (λ op. IsOp cluster op × (map (λ w. w.now) words.now ≡ op_words op)) }
    ensures fault { IfErr result (λ fault. fault ≢ OpFault.Memory → IsOpFault cluster (map (λ w. w.now) words.now) fault) }
{
    match words {
        [first, rest @ ..] => match kind_of(*first) {
            Some(kind) => of_kind(alloc, kind, rest, cluster),
            None => Err(OpFault::BadOperation),
        },
        [] => Err(OpFault::BadWords),
    }
}

/// The operation that a word names.
fn kind_of(word: &[u8]) -> Option<OpKind>
    ensures some { IfSome result (λ kind. word.now ≡ kind_word kind) }
    ensures none { IfNone result ((kind : OpKind) → word.now ≢ kind_word kind) }
{
    match word {
        b"create" => Some(OpKind::Create),
        b"mkdir" => Some(OpKind::Mkdir),
        b"link" => Some(OpKind::Link),
        b"unlink" => Some(OpKind::Unlink),
        b"rmdir" => Some(OpKind::Rmdir),
        b"rename" => Some(OpKind::Rename),
        b"setattr" => Some(OpKind::SetAttr),
        b"setxattr" => Some(OpKind::SetXattr),
        b"delxattr" => Some(OpKind::DelXattr),
        b"migrate" => Some(OpKind::Migrate),
        b"lookup" => Some(OpKind::Lookup),
        b"getattr" => Some(OpKind::GetAttr),
        b"getxattr" => Some(OpKind::GetXattr),
        _ => None,
    }
}

/// Reads the words behind the first one.
fn of_kind(alloc: Global, kind: OpKind, words: &[&[u8]], cluster: Cluster) -> Result<Op, OpFault>
    ensures ok { IfOk result (λ op. IsOp cluster op × (kind_word kind ∷ map (λ w. w.now) words.now ≡ op_words op)) }
    ensures fault { IfErr result (λ fault. IsKindFault cluster kind (map (λ w. w.now) words.now) fault) }
{
    match (kind, words) {
        (OpKind::Create, [parent, name, fid]) => create(alloc, *parent, *name, *fid, cluster),
        (OpKind::Mkdir, [parent, name, fid]) => mkdir(alloc, *parent, *name, *fid, cluster),
        (OpKind::Mkdir, [parent, name, fid, count, index]) => striped_mkdir(
            alloc, *parent, *name, *fid, *count, *index, cluster,
        ),
        (OpKind::Link, [parent, name, fid]) => link(alloc, *parent, *name, *fid, cluster),
        (OpKind::Rename, [parent, name, to_parent, to_name]) => rename(
            alloc, *parent, *name, *to_parent, *to_name, cluster,
        ),
        (OpKind::SetAttr, [fid, mode, uid, gid]) => set_attr(
            alloc, *fid, *mode, *uid, *gid, cluster,
        ),
        (OpKind::SetXattr, [fid, name, value]) => set_xattr(alloc, *fid, *name, *value, cluster),
        (OpKind::Migrate, [dir, count, index]) => migrate(alloc, *dir, *count, *index, cluster),
        (OpKind::Unlink, [parent, name]) => {
            let (parent, name) = entry(alloc, *parent, *name, cluster)?;
            Ok(Op::Unlink { parent, name })
        }
        (OpKind::Rmdir, [parent, name]) => {
            let (parent, name) = entry(alloc, *parent, *name, cluster)?;
            Ok(Op::Rmdir { parent, name })
        }
        (OpKind::DelXattr, [fid, name]) => {
            let (fid, name) = entry(alloc, *fid, *name, cluster)?;
            Ok(Op::DelXattr { fid, name })
        }
        (OpKind::Lookup, [parent, name]) => {
            let (parent, name) = entry(alloc, *parent, *name, cluster)?;
            Ok(Op::Lookup { parent, name })
        }
        (OpKind::GetXattr, [fid, name]) => {
            let (fid, name) = entry(alloc, *fid, *name, cluster)?;
            Ok(Op::GetXattr { fid, name })
        }
        (OpKind::GetAttr, [fid]) => Ok(Op::GetAttr {
            fid: placed_fid(*fid, cluster)?,
        }),
        _ => Err(OpFault::BadWords),
    }
}

/// Reads a file to make.
fn create(
    alloc: Global,
    parent: &[u8],
    name: &[u8],
    fid: &[u8],
    cluster: Cluster,
) -> Result<Op, OpFault>
    ensures ok { IfOk result (λ op. IsOp cluster op × (codes "create" ∷ parent.now ∷ name.now ∷ fid.now ∷ [] ≡ op_words op)) }
    ensures fault { IfErr result (λ fault. IsFirstBad cluster (FidField ∷ NameField ∷ FidField ∷ []) (parent.now ∷ name.now ∷ fid.now ∷ []) fault) }
{
    let (parent, name) = entry(alloc, parent, name, cluster)?;
    let fid = placed_fid(fid, cluster)?;
    Ok(Op::Create { parent, name, fid })
}

/// Reads a plain directory to make.
fn mkdir(
    alloc: Global,
    parent: &[u8],
    name: &[u8],
    fid: &[u8],
    cluster: Cluster,
) -> Result<Op, OpFault>
    ensures ok { IfOk result (λ op. IsOp cluster op × (codes "mkdir" ∷ parent.now ∷ name.now ∷ fid.now ∷ [] ≡ op_words op)) }
    ensures fault { IfErr result (λ fault. IsFirstBad cluster (FidField ∷ NameField ∷ FidField ∷ []) (parent.now ∷ name.now ∷ fid.now ∷ []) fault) }
{
    let (parent, name) = entry(alloc, parent, name, cluster)?;
    let fid = placed_fid(fid, cluster)?;
    Ok(Op::Mkdir {
        parent,
        name,
        fid,
        stripes: None,
    })
}

/// Reads a directory to make, with its stripes.
fn striped_mkdir(
    alloc: Global,
    parent: &[u8],
    name: &[u8],
    fid: &[u8],
    count: &[u8],
    index: &[u8],
    cluster: Cluster,
) -> Result<Op, OpFault>
    ensures ok { IfOk result (λ op. IsOp cluster op × (codes "mkdir" ∷ parent.now ∷ name.now ∷ fid.now ∷ count.now ∷ index.now ∷ [] ≡ op_words op)) }
    ensures fault { IfErr result (λ fault. IsFirstBad cluster (FidField ∷ NameField ∷ FidField ∷ u32_field ∷ u32_field ∷ []) (parent.now ∷ name.now ∷ fid.now ∷ count.now ∷ index.now ∷ []) fault) }
{
    let (parent, name) = entry(alloc, parent, name, cluster)?;
    let fid = placed_fid(fid, cluster)?;
    let count = u32_of(alloc, count)?;
    let index = u32_of(alloc, index)?;
    Ok(Op::Mkdir {
        parent,
        name,
        fid,
        stripes: Some((count, index)),
    })
}

/// Reads a link.
fn link(
    alloc: Global,
    parent: &[u8],
    name: &[u8],
    fid: &[u8],
    cluster: Cluster,
) -> Result<Op, OpFault>
    ensures ok { IfOk result (λ op. IsOp cluster op × (codes "link" ∷ parent.now ∷ name.now ∷ fid.now ∷ [] ≡ op_words op)) }
    ensures fault { IfErr result (λ fault. IsFirstBad cluster (FidField ∷ NameField ∷ FidField ∷ []) (parent.now ∷ name.now ∷ fid.now ∷ []) fault) }
{
    let (parent, name) = entry(alloc, parent, name, cluster)?;
    let fid = placed_fid(fid, cluster)?;
    Ok(Op::Link { parent, name, fid })
}

/// Reads a rename.
fn rename(
    alloc: Global,
    parent: &[u8],
    name: &[u8],
    to_parent: &[u8],
    to_name: &[u8],
    cluster: Cluster,
) -> Result<Op, OpFault>
    ensures ok { IfOk result (λ op. IsOp cluster op × (codes "rename" ∷ parent.now ∷ name.now ∷ to_parent.now ∷ to_name.now ∷ [] ≡ op_words op)) }
    ensures fault { IfErr result (λ fault. IsFirstBad cluster (FidField ∷ NameField ∷ FidField ∷ NameField ∷ []) (parent.now ∷ name.now ∷ to_parent.now ∷ to_name.now ∷ []) fault) }
{
    let (parent, name) = entry(alloc, parent, name, cluster)?;
    let to_parent = placed_fid(to_parent, cluster)?;
    let to_name = name_of(alloc, to_name)?;
    Ok(Op::Rename {
        parent,
        name,
        to_parent,
        to_name,
    })
}

/// Reads attributes to set.
fn set_attr(
    alloc: Global,
    fid: &[u8],
    mode: &[u8],
    uid: &[u8],
    gid: &[u8],
    cluster: Cluster,
) -> Result<Op, OpFault>
    ensures ok { IfOk result (λ op. IsOp cluster op × (codes "setattr" ∷ fid.now ∷ mode.now ∷ uid.now ∷ gid.now ∷ [] ≡ op_words op)) }
    ensures fault { IfErr result (λ fault. IsFirstBad cluster (FidField ∷ NumberField 4095 ∷ u32_field ∷ u32_field ∷ []) (fid.now ∷ mode.now ∷ uid.now ∷ gid.now ∷ []) fault) }
{
    let fid = placed_fid(fid, cluster)?;
    let mode = number_of(alloc, mode, 4095)?;
    let uid = u32_of(alloc, uid)?;
    let gid = u32_of(alloc, gid)?;
    Ok(Op::SetAttr {
        fid,
        mode: mode as u16,
        uid,
        gid,
    })
}

/// Reads an extended attribute to set.
fn set_xattr(
    alloc: Global,
    fid: &[u8],
    name: &[u8],
    value: &[u8],
    cluster: Cluster,
) -> Result<Op, OpFault>
    ensures ok { IfOk result (λ op. IsOp cluster op × (codes "setxattr" ∷ fid.now ∷ name.now ∷ value.now ∷ [] ≡ op_words op)) }
    ensures fault { IfErr result (λ fault. IsFirstBad cluster (FidField ∷ NameField ∷ HexField ∷ []) (fid.now ∷ name.now ∷ value.now ∷ []) fault) }
{
    let (fid, name) = entry(alloc, fid, name, cluster)?;
    let value = value_of(alloc, value)?;
    Ok(Op::SetXattr { fid, name, value })
}

/// Reads other stripes.
fn migrate(
    alloc: Global,
    dir: &[u8],
    count: &[u8],
    index: &[u8],
    cluster: Cluster,
) -> Result<Op, OpFault>
    ensures ok { IfOk result (λ op. IsOp cluster op × (codes "migrate" ∷ dir.now ∷ count.now ∷ index.now ∷ [] ≡ op_words op)) }
    ensures fault { IfErr result (λ fault. IsFirstBad cluster (FidField ∷ u32_field ∷ u32_field ∷ []) (dir.now ∷ count.now ∷ index.now ∷ []) fault) }
{
    let dir = placed_fid(dir, cluster)?;
    let count = u32_of(alloc, count)?;
    let index = u32_of(alloc, index)?;
    Ok(Op::Migrate { dir, count, index })
}

/// Reads a FID and a name.
fn entry(alloc: Global, fid: &[u8], name: &[u8], cluster: Cluster) -> Result<(Fid, Name), OpFault>
    ensures ok { IfOk result (λ v. IsPlaced cluster v.0 × IsName v.1 × (fid.now ≡ fid_text v.0) × (name.now ≡ name_word v.1)) }
    ensures good { OnOk result (IsGood cluster FidField fid.now × IsGood cluster NameField name.now) }
    ensures fault { IfErr result (λ fault. IsFirstBad cluster (FidField ∷ NameField ∷ []) (fid.now ∷ name.now ∷ []) fault) }
{
    let fid = placed_fid(fid, cluster)?;
    let name = name_of(alloc, name)?;
    Ok((fid, name))
}

/// Reads a FID that has a place in the cluster.
fn placed_fid(word: &[u8], cluster: Cluster) -> Result<Fid, OpFault>
    ensures ok { IfOk result (λ f. IsPlaced cluster f × (word.now ≡ fid_text f)) }
    ensures good { OnOk result (IsGood cluster FidField word.now) }
    ensures fault { IfErr result (λ fault. IsBad cluster FidField word.now fault) }
{
    let fid = match Fid::parse(word) {
        Ok(fid) => fid,
        Err(_) => return Err(OpFault::BadFid),
    };
    match locate(cluster, fid) {
        Ok(_) => Ok(fid),
        Err(_) => Err(OpFault::NoHome),
    }
}

/// Reads the name that a word spells.
fn name_of(alloc: Global, word: &[u8]) -> Result<Name, OpFault>
    ensures ok { IfOk result (λ name. IsName name × (word.now ≡ name_word name)) }
    ensures good { (targets : ℕ) → OnOk result (IsGood targets NameField word.now) }
    ensures fault { (targets : ℕ) → IfErr result (λ fault. IsBad targets NameField word.now fault) }
{
    match Name::parse(alloc, word) {
        Ok(name) => Ok(name),
        Err(NameFault::BadName) => Err(OpFault::BadName),
        Err(NameFault::Memory) => Err(OpFault::Memory),
    }
}

/// Reads the value of an extended attribute.
fn value_of(alloc: Global, word: &[u8]) -> Result<Bytes, OpFault>
    ensures ok { IfOk result (λ value. IsXattrValue value × (word.now ≡ hex_text value)) }
    ensures good { (targets : ℕ) → OnOk result (IsGood targets HexField word.now) }
    ensures fault { (targets : ℕ) → IfErr result (λ fault. IsBad targets HexField word.now fault) }
{
    let bytes = match hex_bytes(alloc, word) {
        Ok(Some(bytes)) => bytes,
        Ok(None) => return Err(OpFault::BadHex),
        Err(_) => return Err(OpFault::Memory),
    };
    if bytes.len() > 4096 {
        return Err(OpFault::BadHex);
    }
    Ok(bytes)
}

/// Reads a number up to a limit.
fn number_of(alloc: Global, word: &[u8], most: u32) -> Result<u32, OpFault>
    ensures ok { IfOk result (λ n. (n ≤ most) × (word.now ≡ decimal n)) }
    ensures good { (targets : ℕ) → OnOk result (IsGood targets (NumberField most) word.now) }
    ensures fault { (targets : ℕ) → IfErr result (λ fault. IsBad targets (NumberField most) word.now fault) }
{
    let n = match number(alloc, word) {
        Ok(Some(n)) => n,
        Ok(None) => return Err(OpFault::BadNumber),
        Err(_) => return Err(OpFault::Memory),
    };
    if n > most {
        return Err(OpFault::BadNumber);
    }
    Ok(n)
}

fn u32_of(alloc: Global, word: &[u8]) -> Result<u32, OpFault>
    ensures ok { IfOk result (λ n. (n < 2 ^ 32) × (word.now ≡ decimal n)) }
    ensures good { (targets : ℕ) → OnOk result (IsGood targets (NumberField (2 ^ 32 - 1)) word.now) }
    ensures fault { (targets : ℕ) → IfErr result (λ fault. IsBad targets (NumberField (2 ^ 32 - 1)) word.now fault) }
{
    number_of(alloc, word, u32::MAX)
}
