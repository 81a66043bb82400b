ghost use Rattle.std.specs.Prelude.{◌≡◌};
ghost use Rattle.std.specs.FinMap as map;
ghost use Rattle.tree_model.specs.Tree.{root_fid};

use fid_space::Fid;
use std::alloc::Global;
use tree_model::{Node, Xattrs};

/// A directory or a file of the root, without attributes.
pub fn node(alloc: Global, dir: bool) -> Node
    ensures { result ≡ record { dir = dir; mode = 0o750; uid = 7; gid = 8; links = 2; parent = root_fid; xattrs = map.empty } }
{
    Node {
        dir,
        mode: 0o750,
        uid: 7,
        gid: 8,
        links: 2,
        parent: Fid::ROOT,
        xattrs: Xattrs::new(alloc),
    }
}
