use commit_sharing::{
    Pending, Seen, a_sync_is_for_the_first_writer, a_writer_is_the_last_noted, must_sync,
};
use fid_space::{Fid, Targets};
use std::test::Fail;

#[test]
fn tells_the_last_writer(rt: HostRuntime) -> Result<(), Fail> {
    let other = Fid {
        seq: 0x2_0000_0403,
        oid: 5,
        ver: 0,
    };
    let both = Targets::of_number(3);
    let mut pending = Pending::new(rt.alloc());
    pending.note(7, both, &[Fid::ROOT, other])?;
    pending.note(4, Targets::of_number(1), &[other])?;
    assert_eq!(rt; pending.writer(Fid::ROOT), Some((7, both)));
    assert_eq!(rt; pending.writer(other), Some((4, Targets::of_number(1))));
    pending.clear();
    assert_eq!(rt; pending.writer(Fid::ROOT), None);
    a_writer_is_the_last_noted();
    Ok(())
}

#[test]
fn names_the_first_uncovered_writer(rt: HostRuntime) {
    let seen = |target: u8, writer: Option<(u32, Targets)>| Seen {
        target,
        fid: Fid::ROOT,
        writer,
    };
    let both = Targets::of_number(3);
    let reads = [
        seen(1, Some((5, Targets::of_number(2)))),
        seen(0, None),
        seen(0, Some((6, both))),
        seen(0, Some((7, Targets::of_number(5)))),
        seen(0, Some((8, Targets::of_number(1)))),
    ];
    assert_eq!(rt; must_sync(&reads, both, 0), Some(7));
    assert_eq!(rt; must_sync(&reads, Targets::of_number(1), 0), None);
    assert_eq!(rt; must_sync(&reads, both, 1), Some(5));
    assert_eq!(rt; must_sync(&[], both, 0), None);
    a_sync_is_for_the_first_writer();
}
