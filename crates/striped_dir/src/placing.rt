ghost use Rattle.std.specs.Prelude.{◌≡◌, ◌<◌, max, true, Some};
ghost use Rattle.std.specs.Option.{option_map};
ghost use Rattle.fid_space.specs.Places.{place_of, has_place};
ghost use Rattle.tree_model.specs.Striped.{entry_place};
ghost use Rattle.striped_dir.specs.Layouts.{laid};
ghost use Rattle.striped_dir.specs.Parts.{FitsDirectory, stripe_at, part_at, part_of_name, place_at};

use crate::hash::fnv1a_64;
use crate::layout::Layout;
use fid_space::{Cluster, Fid, NoHome, locate, stripe_fid};
use tree_model::Name;

/// The target and the object of a stripe.
pub(crate) fn stripe(cluster: Cluster, dir: Fid, layout: Layout, index: u8) -> (u8, Fid)
    requires fits { FitsDirectory cluster dir (laid layout) }
    requires within { index < layout.count }
    ensures value { result ≡ stripe_at cluster dir (laid layout) index }
    ensures below { result.0 < cluster }
{
    let target = (layout.start + index) % cluster.targets();
    match stripe_fid(dir, target, index, layout.generation) {
        Some(fid) => (target, fid),
        None => (target, dir),
    }
}

/// The directory with its own target.
fn own(cluster: Cluster, dir: Fid) -> (u8, Fid)
    requires { has_place cluster dir ≡ true }
    ensures value { option_map (λ target. (target, dir)) (place_of cluster dir) ≡ Some result }
    ensures below { result.0 < cluster }
{
    match locate(cluster, dir) {
        Ok(target) => (target, dir),
        Err(NoHome) => (0, dir),
    }
}

/// The target and the object of a part of a directory: the stripe with this index, counted from 0, or the
/// directory itself where it has none.
pub fn part(cluster: Cluster, dir: Fid, layout: Layout, index: u8) -> (u8, Fid)
    requires fits { FitsDirectory cluster dir (laid layout) }
    requires within { index < max layout.count 1 }
    ensures part { part_at cluster dir (laid layout) index ≡ Some result }
    ensures below { result.0 < cluster }
{
    if layout.count == 0 {
        own(cluster, dir)
    } else {
        stripe(cluster, dir, layout, index)
    }
}

/// The part that has a name.
fn part_of_name(layout: Layout, name: &[u8]) -> u8
    ensures value { result ≡ part_of_name (laid layout) name.now }
    ensures below { result < max layout.count 1 }
{
    if layout.count == 0 {
        return 0;
    }
    (fnv1a_64(name) % u64::from(layout.count)) as u8
}

/// The target and the object that hold the entry of a name: the stripe that the FNV-1a hash of the name
/// says, modulo the count of stripes, as Lustre's hash type `fnv_1a_64` has it.
pub fn place(cluster: Cluster, dir: Fid, layout: Layout, name: &Name) -> (u8, Fid)
    requires fits { FitsDirectory cluster dir (laid layout) }
    ensures place { place_at cluster dir (laid layout) name.now ≡ Some result }
    ensures target { entry_place cluster dir (laid layout) name.now ≡ Some result.0 }
    ensures below { result.0 < cluster }
{
    part(cluster, dir, layout, part_of_name(layout, name.bytes()))
}
