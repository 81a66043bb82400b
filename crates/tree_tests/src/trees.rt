use crate::fixtures::node;
use crate::operations::read;
use fid_space::{Bytes, Cluster, Fid};
use std::alloc::Global;
use std::test::Fail;
use tree_model::{Name, PlainTree};

#[test]
fn replies_and_shows_the_tree(rt: HostRuntime) -> Result<(), Fail> {
    let alloc = rt.alloc();
    let mut tree = PlainTree::new(alloc, Cluster::new(2).ok_or("a cluster")?)?;
    let rows = [
        (
            "mkdir [0x200000007:0x1:0x0] d [0x200000400:0x1:0x0] 3 0",
            "EINVAL",
        ),
        ("mkdir [0x200000007:0x1:0x0] d [0x200000400:0x1:0x0]", "OK"),
        (
            "create [0x200000400:0x1:0x0] %20 [0x200000400:0x2:0x0]",
            "OK",
        ),
        (
            "create [0x200000007:0x1:0x0] d [0x200000400:0x3:0x0]",
            "EEXIST",
        ),
        ("lookup [0x200000400:0x2:0x0] f", "ENOTDIR"),
        ("unlink [0x200000007:0x1:0x0] d", "EISDIR"),
        ("rmdir [0x200000007:0x1:0x0] d", "ENOTEMPTY"),
        (
            "rename [0x200000007:0x1:0x0] d [0x200000400:0x1:0x0] x",
            "EINVAL",
        ),
        ("setxattr [0x200000400:0x2:0x0] a 0aff", "OK"),
        ("getxattr [0x200000400:0x2:0x0] a", "0aff"),
        ("getattr [0x200000400:0x2:0x0]", "file 0644 0 0 1"),
        ("lookup [0x200000007:0x1:0x0] d", "[0x200000400:0x1:0x0]"),
    ];
    for (text, want) in rows {
        let mut out = Bytes::new(alloc);
        tree.apply(&read(alloc, text)?)?.print(&mut out)?;
        assert_eq!(rt; out.bytes(), want.as_bytes(), "{text}");
    }
    let want =
        "tree 3 2\nnode [0x200000007:0x1:0x0] dir 0755 0 0 2\nnode [0x200000400:0x1:0x0] dir 0755 0 0 2\nnode [0x200000400:0x2:0x0] file 0644 0 0 1\nentry [0x200000007:0x1:0x0] d [0x200000400:0x1:0x0]\nentry [0x200000400:0x1:0x0] %20 [0x200000400:0x2:0x0]\nxattr [0x200000400:0x2:0x0] a 0aff\n";
    let mut out = Bytes::new(alloc);
    tree.print(&mut out)?;
    assert_eq!(rt; out.bytes(), want.as_bytes());
    Ok(())
}

/// The root with a file in it, without attributes.
fn root_with(alloc: Global, name: &Name, file: Fid) -> Result<PlainTree, Fail> {
    let mut tree = PlainTree::empty(alloc, Cluster::new(2).ok_or("a cluster")?);
    tree.add_node(file, node(alloc, false))?;
    tree.add_node(Fid::ROOT, node(alloc, true))?;
    tree.add_entry(Fid::ROOT, name, file)?;
    Ok(tree)
}

#[test]
fn builds_a_tree_from_what_is_stored(rt: HostRuntime) -> Result<(), Fail> {
    let file = Fid {
        seq: 0x2_0000_0400,
        oid: 1,
        ver: 0,
    };
    let name = Name::new(rt.alloc(), b"a")?;
    let mut tree = root_with(rt.alloc(), &name, file)?;
    tree.add_attribute(file, &name, &[0x0a, 0xff])?;
    let mut out = Bytes::new(rt.alloc());
    tree.print(&mut out)?;
    let want =
        "tree 2 1\nnode [0x200000007:0x1:0x0] dir 0750 7 8 2\nnode [0x200000400:0x1:0x0] file 0750 7 8 2\nentry [0x200000007:0x1:0x0] a [0x200000400:0x1:0x0]\nxattr [0x200000400:0x1:0x0] a 0aff\n";
    assert_eq!(rt; out.bytes(), want.as_bytes());
    Ok(())
}
