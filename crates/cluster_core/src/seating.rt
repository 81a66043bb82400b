//! Disks become those of targets, and come back.

ghost use Rattle.std.specs.Prelude.{◌≡◌, ◌≤◌, ◌<◌, ◌+◌, ◌++◌, [], List, length, map, vec_len, vec_capacity};
ghost use Rattle.outside.specs.Disk.{Shown};
ghost use Rattle.cluster_core.specs.Cluster.{disks_of};
ghost use Rattle.cluster_core.specs.Founding.{unfounded};

use fid_space::Cluster;
use outside::Plant;
use std::alloc::Global;
use target_turns::Target;

/// Makes the first disks targets that are down, as many as the cluster has. There is room for them.
pub(crate) fn seat<D: Plant>(
    alloc: Global,
    cluster: Cluster,
    disks: &mut Vec<D>,
    targets: &mut Vec<Target<D>>,
)
    requires none { targets.old.items ≡ [] }
    requires room { cluster ≤ vec_capacity targets.old }
    requires disks { cluster ≤ length disks.old.items }
    ensures seats { (front : List Shown) × (map D.shown disks.old.items ≡ front ++ map D.shown disks.new.items) × (length front ≡ cluster) × (targets.new.items ≡ unfounded cluster 0 front) }
    ensures room { vec_len targets.new + vec_len disks.new ≤ vec_capacity disks.new }
{
    for index in 0..cluster.targets() {
        let disk = disks.remove(0);
        match targets.push(Target::new(alloc, cluster, index, disk)) {
            Ok(()) => {}
            Err(_) => unreachable!(),
        }
    }
}

/// Gives back the disks of targets, before those that are spare. There is room for them.
pub(crate) fn unseat<D: Plant>(targets: Vec<Target<D>>, spare: Vec<D>) -> Vec<D>
    requires room { vec_len targets + vec_len spare ≤ vec_capacity spare }
    ensures { map D.shown result.items ≡ disks_of targets.items ++ map D.shown spare.items }
{
    let mut targets = targets;
    let mut disks = spare;
    for target in 0..targets.len() {
        match targets.pop() {
            Some(target) => match disks.insert(0, target.into_disk()) {
                Ok(()) => {}
                Err(_) => unreachable!(),
            },
            None => unreachable!(),
        }
    }
    disks
}
