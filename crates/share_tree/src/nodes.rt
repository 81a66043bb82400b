//! The nodes of a target, each with its parent.

ghost use Rattle.std.specs.Prelude.{◌≡◌, IfOk, IsErrOf, OnOk};
ghost use Rattle.std.specs.FinMap as map;
ghost use Rattle.byte_grammar.specs.Values.{Gives};
ghost use Rattle.out_update.specs.Spelling.{FitsUpdate};
ghost use Rattle.out_update.specs.Values.{fid_value};
ghost use Rattle.share_tree.specs.Told.{question, fid_in, parent_in, node_from};
ghost use Rattle.share_tree.specs.Made.{with_node, with_nodes};

use byte_grammar::{BuildFault, part, u32_at, u64_at};
use fid_space::Fid;
use object_store::Objects;
use out_update::{Kind, Params, Update};
use std::alloc::{AllocError as Memory, Global};
use tree_model::{Node, PlainTree, Reply, Xattrs};

/// Where the FID stands in the bytes of a body.
const FID_AT: usize = 28;

/// The FID of zeros, which files have in place of a parent.
const NO_FID: Fid = Fid {
    seq: 0,
    oid: 0,
    ver: 0,
};

/// The FID at the front of bytes, and the bytes behind it.
#[tactic(auto, unfolding(out_update::specs::Values::fid_value))]
fn fid_at(bytes: &[u8]) -> Result<(Fid, &[u8]), BuildFault>
    ensures value { Gives (λ x. (x.0, x.1.now)) result (fid_value bytes.now) }
    ensures free { IsErrOf result BuildFault.Memory → ⊥ }
{
    let (seq, rest) = u64_at(bytes)?;
    let (oid, rest) = u32_at(rest)?;
    let (ver, rest) = u32_at(rest)?;
    Ok((Fid { seq, oid, ver }, rest))
}

/// The FID in the bytes of a body.
#[tactic(auto, unfolding(crate::specs::Told::fid_in))]
fn fid_in(body: &[u8]) -> Result<Fid, BuildFault>
    ensures value { Gives (λ f. f) result (fid_in body.now) }
    ensures free { IsErrOf result BuildFault.Memory → ⊥ }
{
    let (_, rest) = part(FID_AT, body)?;
    let (fid, _) = fid_at(rest)?;
    Ok(fid)
}

/// The question for the body of an object.
#[tactic(auto, unfolding(out_update::specs::Spelling::FitsParams))]
fn question(alloc: Global, fid: Fid) -> Update
    ensures fits { FitsUpdate result }
    ensures value { result ≡ question fid }
{
    Update {
        kind: Kind::AttrGet,
        batch: 0,
        fid,
        params: Params::new(alloc),
    }
}

/// The directory that has a directory, as the objects tell it.
fn parent_in(alloc: Global, objects: &Objects, fid: Fid) -> Result<Fid, Memory>
    ensures { IfOk result (λ f. f ≡ parent_in objects.now fid) }
{
    let told = objects.read(alloc, &question(alloc, fid))?;
    match fid_in(told.body.bytes()) {
        Ok(parent) => Ok(parent),
        Err(_) => Ok(NO_FID),
    }
}

/// Adds the file or the directory of which this is told, without its attributes.
fn add_node(
    alloc: Global,
    objects: &Objects,
    fid: Fid,
    told: &Reply,
    tree: &mut PlainTree,
) -> Result<(), Memory>
    ensures ok { OnOk result (tree.new ≡ record { targets = tree.old.targets; tree = with_node tree.old.tree fid (node_from told.now (parent_in objects.now fid)) }) }
    ensures targets { tree.new.targets ≡ tree.old.targets }
{
    let Reply::Attr {
        dir,
        mode,
        uid,
        gid,
        links,
    } = told
    else {
        return Ok(());
    };
    let parent = if *dir {
        parent_in(alloc, objects, fid)?
    } else {
        NO_FID
    };
    let node = Node {
        dir: *dir,
        mode: *mode,
        uid: *uid,
        gid: *gid,
        links: *links,
        parent,
        xattrs: Xattrs::new(alloc),
    };
    tree.add_node(fid, node)
}

/// Adds the nodes of a target, each without its attributes.
pub(crate) fn add_nodes(
    alloc: Global,
    objects: &Objects,
    tree: &mut PlainTree,
) -> Result<(), Memory>
    ensures ok { OnOk result (tree.new ≡ record { targets = tree.old.targets; tree = with_nodes tree.old.tree (map.entries objects.now) }) }
    ensures targets { tree.new.targets ≡ tree.old.targets }
{
    let mut after = None;
    for _node in 0..u64::MAX {
        match objects.next_node(after) {
            Some((fid, told)) => {
                add_node(alloc, objects, fid, &told, tree)?;
                after = Some(fid);
            }
            None => return Ok(()),
        }
    }
    Err(Memory)
}
