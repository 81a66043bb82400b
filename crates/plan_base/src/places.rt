ghost use Rattle.std.specs.Prelude.{◌≡◌, ◌<◌, ◌≤◌, IfOk, true};
ghost use Rattle.fid_space.specs.Places.{has_place};
ghost use Rattle.striped_dir.specs.Layouts.{laid};
ghost use Rattle.striped_dir.specs.Parts.{FitsDirectory};
ghost use Rattle.plan_base.specs.Places.{node_place, may_stand, entry_at, count_at, parts_of, stripes_made, stripes_gone};

use fid_space::{Cluster, Fid, NoHome, is_client, locate};
use out_update::Parts;
use std::alloc::{AllocError as Memory, Global};
use striped_dir::{Layout, make_parts, part, place, remove_parts};
use tree_model::Name;

/// The target of a node.
pub fn node_place(cluster: Cluster, fid: Fid) -> u8
    ensures value { result ≡ node_place cluster fid }
    ensures below { result < 16 }
{
    match locate(cluster, fid) {
        Ok(target) => target,
        Err(NoHome) => 0,
    }
}

fn has_place(cluster: Cluster, fid: Fid) -> bool
    ensures { result ≡ has_place cluster fid }
{
    locate(cluster, fid).is_ok()
}

/// Whether a directory may have a layout, as each directory of a tree may.
pub(crate) fn may_stand(cluster: Cluster, dir: Fid, layout: Layout) -> bool
    ensures value { result ≡ may_stand cluster dir (laid layout) }
    ensures fits { result ≡ true → FitsDirectory cluster dir (laid layout) }
{
    layout.count <= 16
        && layout.start <= 15
        && layout.generation <= 0x0fff_fffe
        && (1 <= layout.count || layout.start == 0)
        && has_place(cluster, dir)
        && (layout.count == 0 || is_client(cluster, dir))
}

/// The target and the object that hold an entry.
#[tactic(auto, unfolding(crate::specs::Places::entry_at))]
pub fn entry_at(cluster: Cluster, dir: Fid, layout: Layout, name: &Name) -> (u8, Fid)
    ensures value { result ≡ entry_at cluster dir (laid layout) name.now }
    ensures below { result.0 < 16 }
{
    if may_stand(cluster, dir, layout) {
        place(cluster, dir, layout, name)
    } else {
        (0, dir)
    }
}

/// The target and the object of a part.
#[tactic(auto, unfolding(crate::specs::Places::count_at))]
pub(crate) fn count_at(cluster: Cluster, dir: Fid, layout: Layout, index: u8) -> (u8, Fid)
    ensures value { result ≡ count_at cluster dir (laid layout) index }
    ensures below { result.0 < 16 }
{
    if may_stand(cluster, dir, layout) && index < parts_of(layout) {
        part(cluster, dir, layout, index)
    } else {
        (0, dir)
    }
}

/// How many parts a directory has.
pub(crate) fn parts_of(layout: Layout) -> u8
    ensures { result ≡ parts_of (laid layout) }
{
    if layout.count == 0 { 1 } else { layout.count }
}

/// The creates of a directory's stripes.
#[tactic(auto, unfolding(crate::specs::Places::stripes_made))]
pub fn stripes_made(
    alloc: Global,
    cluster: Cluster,
    dir: Fid,
    layout: Layout,
    batch: u64,
) -> Result<Parts, Memory>
    ensures { IfOk result (λ parts. parts ≡ stripes_made cluster dir (laid layout) batch) }
{
    if may_stand(cluster, dir, layout) {
        make_parts(alloc, cluster, dir, layout, batch)
    } else {
        Ok(Parts::new(alloc))
    }
}

/// The destroys of a directory's stripes.
#[tactic(auto, unfolding(crate::specs::Places::stripes_gone))]
pub fn stripes_gone(
    alloc: Global,
    cluster: Cluster,
    dir: Fid,
    layout: Layout,
    batch: u64,
) -> Result<Parts, Memory>
    ensures { IfOk result (λ parts. parts ≡ stripes_gone cluster dir (laid layout) batch) }
{
    if may_stand(cluster, dir, layout) {
        remove_parts(alloc, cluster, dir, layout, batch)
    } else {
        Ok(Parts::new(alloc))
    }
}
