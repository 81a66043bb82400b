use fid_space::{Bytes, Cluster};
use std::alloc::Global;
use std::test::Fail;
use tree_model::{Op, OpFault};

/// The operation that a text spells in a cluster of two targets.
pub(crate) fn read(alloc: Global, text: &str) -> Result<Op, OpFault> {
    match Cluster::new(2) {
        Some(cluster) => Op::parse(alloc, text.as_bytes(), cluster),
        None => Err(OpFault::Memory),
    }
}

#[test]
fn keeps_texts_of_operations(rt: HostRuntime) -> Result<(), Fail> {
    let alloc = rt.alloc();
    let texts = [
        "create [0x200000007:0x1:0x0] !~ [0x200100400:0x1:0x0]",
        "mkdir [0x200000007:0x1:0x0] a [0x200000400:0x1:0x0]",
        "mkdir [0x200000007:0x1:0x0] a [0x200000400:0x1:0x0] 4294967295 0",
        "link [0x200000007:0x1:0x0] a [0x200000400:0x1:0x0]",
        "unlink [0x200000007:0x1:0x0] a",
        "rmdir [0x200000007:0x1:0x0] a",
        "rename [0x200000007:0x1:0x0] a [0x200000400:0x1:0x0] %0a",
        "setattr [0x200000400:0x1:0x0] 4095 0 4294967295",
        "setxattr [0x200000400:0x1:0x0] user.a 00ff",
        "delxattr [0x200000400:0x1:0x0] user.a",
        "migrate [0x200000400:0x1:0x0] 0 7",
        "lookup [0x200000007:0x1:0x0] a",
        "getattr [0x200000400:0x1:0x0]",
        "getxattr [0x200000400:0x1:0x0] user.a",
    ];
    for text in texts {
        let mut out = Bytes::new(alloc);
        read(alloc, text)?.copy()?.print(&mut out)?;
        assert_eq!(rt; out.bytes(), text.as_bytes());
    }
    Ok(())
}

#[test]
fn refuses_what_is_no_operation(rt: HostRuntime) {
    let rows = [
        ("", OpFault::BadOperation),
        ("mknod x", OpFault::BadOperation),
        ("getattr x y", OpFault::BadWords),
        ("getattr ", OpFault::BadFid),
        ("create x . y", OpFault::BadFid),
        ("create [0x200200400:0x1:0x0] . y", OpFault::NoHome),
        ("unlink [0x200000007:0x1:0x0] a%41", OpFault::BadName),
        ("unlink [0x200000007:0x1:0x0] ..", OpFault::BadName),
        ("setattr [0x200000400:0x1:0x0] 4096 0 0", OpFault::BadNumber),
        ("migrate [0x200000400:0x1:0x0] 00 0", OpFault::BadNumber),
        ("setxattr [0x200000400:0x1:0x0] a 0A", OpFault::BadHex),
    ];
    for (text, want) in rows {
        match read(rt.alloc(), text) {
            Ok(_) => assert!(rt; false, "{text}"),
            Err(fault) => assert_eq!(rt; fault, want, "{text}"),
        }
    }
}
