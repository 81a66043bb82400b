ghost use Rattle.std.specs.Prelude.{◌≡◌, ◌<◌};
ghost use Rattle.object_store.specs.Meaning.{is_directory};
ghost use Rattle.tree_model.specs.Step.{layout_fault, stripes_fault};
ghost use Rattle.plan_base.specs.Stops.{Reaches};
ghost use Rattle.plan_base.specs.Asks.{directory_told, none_told, empty_told, names_from, all_names_told};

use crate::entry_list::EntryList;
use crate::facts::Facts;
use crate::places::parts_of;
use crate::question::Stop;
use crate::seen::Seen;
use fid_space::{Cluster, Fid};
use object_store::ObjectKind;
use std::alloc::Global;
use striped_dir::Layout;
use tree_model::Errno;

/// Whether a node is a directory.
pub fn is_directory(seen: &Seen) -> bool
    ensures { result ≡ is_directory seen.now.body.kind }
{
    match seen.body.kind {
        ObjectKind::Directory => true,
        ObjectKind::File | ObjectKind::Stripe => false,
    }
}

/// The check of stripes that a new directory gets.
pub fn layout_fault(cluster: Cluster, stripes: Option<(u32, u32)>) -> Option<Errno>
    ensures { result ≡ layout_fault cluster stripes }
{
    let (count, index) = stripes?;
    let targets = u32::from(cluster.targets());
    if count <= targets && index < targets {
        None
    } else {
        Some(Errno::EINVAL)
    }
}

impl Facts {
    /// The node with a FID, which must be a directory.
    pub fn directory(&self, fid: Fid) -> Result<Seen, Stop>
        ensures { Reaches (λ x. x) result (directory_told self.now fid) }
    {
        match self.node(fid)? {
            None => Err(Stop::Refused(Errno::ENOENT)),
            Some(seen) if is_directory(&seen) => Ok(seen),
            Some(_) => Err(Stop::Refused(Errno::ENOTDIR)),
        }
    }

    /// Whether a directory has no entry. All its parts are asked.
    pub fn is_empty(&self, fid: Fid, layout: Layout) -> Result<bool, Stop>
        ensures { Reaches (λ x. x) result (empty_told self.now fid layout) }
    {
        let parts = parts_of(layout);
        let mut is_empty = true;
        for index in 0..parts {
            let entries = self.count(fid, layout, index)?;
            is_empty = is_empty && entries == 0;
        }
        Ok(is_empty)
    }

    /// The entries of a directory by its parts, at most 33 of each. All its parts are asked.
    pub fn all_names(&self, alloc: Global, fid: Fid, layout: Layout) -> Result<EntryList, Stop>
        ensures { Reaches (λ x. x) result (all_names_told self.now fid layout) }
    {
        let parts = parts_of(layout);
        let mut entries = EntryList::new(alloc);
        for part in 0..parts {
            entries.extend(alloc, self.names(fid, layout, part)?)?;
        }
        Ok(entries)
    }
}
