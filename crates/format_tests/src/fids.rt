use fid_space::{
    Bytes, Class, Cluster, Fid, FidFault, Fids, NoHome, Numbers, Targets, class_of, client_fid,
    client_fids_have_their_place, hex_digit, is_client, locate, members_by_parts, one_text_per_fid,
    print_hex, print_hex_digits, print_home, print_number, stripe_fid, stripe_fids_are_their_own,
    targets_are_their_members,
};
use std::test::Fail;

#[test]
fn reads_texts(rt: HostRuntime) {
    let most = Fid {
        seq: u64::MAX,
        oid: u32::MAX,
        ver: u32::MAX,
    };
    let rows: [(&str, Result<Fid, FidFault>); 6] = [
        ("[0x200000007:0x1:0x0]", Ok(Fid::ROOT)),
        ("[0xffffffffffffffff:0xffffffff:0xffffffff]", Ok(most)),
        ("[0x1:0x1:0x0", Err(FidFault::BadShape(12))),
        ("[0x1A:0x1:0x0]", Err(FidFault::BadShape(4))),
        ("[0x01:0x1:0x0]", Err(FidFault::BadNumber(3))),
        ("[0x1:0x111111111:0x0]", Err(FidFault::BadNumber(7))),
    ];
    for (text, want) in rows {
        assert_eq!(rt; Fid::parse(text.as_bytes()), want, "{text}");
    }
    one_text_per_fid();
}

#[test]
fn tells_homes(rt: HostRuntime) -> Result<(), Fail> {
    let two = Cluster::new(2).expect(&rt, "two targets");
    let rows: [(u64, u32, Result<u8, NoHome>, bool, &str); 6] = [
        (0x2_0000_0007, 1, Ok(0), false, "target 0 root"),
        (0x2_0000_83ff, 1, Ok(0), true, "target 0 client"),
        (0x2_0000_8400, 1, Ok(0), false, "target 0 other"),
        (0x2_0010_0400, 1, Ok(1), true, "target 1 client"),
        (0x2_0018_0400, 1, Ok(1), false, "target 1 stripe"),
        (0x2_0020_0400, 1, Err(NoHome), false, ""),
    ];
    for (seq, oid, place, client, want) in rows {
        let fid = Fid { seq, oid, ver: 0 };
        let mut out = Bytes::new(rt.alloc());
        assert_eq!(rt; print_home(two, fid, &mut out)?, place.is_ok(), "{seq}");
        assert_eq!(rt; out.bytes(), want.as_bytes(), "{seq}");
        assert_eq!(rt; locate(two, fid), place, "{seq}");
        assert_eq!(rt; is_client(two, fid), client, "{seq}");
    }
    assert_eq!(rt; two.targets(), 2);
    assert_eq!(rt; Cluster::new(17), None);
    assert_eq!(rt; class_of(two, Fid::ROOT), Class::Root);
    Ok(())
}

#[test]
fn makes_fids(rt: HostRuntime) {
    let dir = Fid {
        seq: 0x2_0010_0403,
        oid: 5,
        ver: 0,
    };
    let stripe = Fid {
        seq: 0x2_0008_8403,
        oid: 5,
        ver: 0x12,
    };
    assert_eq!(rt; client_fid(1, 3, 5), Some(dir));
    assert_eq!(rt; client_fid(16, 3, 5), None);
    assert_eq!(rt; stripe_fid(dir, 0, 1, 1), Some(stripe));
    assert_eq!(rt; stripe_fid(stripe, 0, 1, 1), None);
    client_fids_have_their_place();
    stripe_fids_are_their_own();
}

#[test]
fn keeps_lists(rt: HostRuntime) -> Result<(), Fail> {
    let mut list = Bytes::new(rt.alloc());
    assert!(rt; list.is_empty());
    list.reserve(4)?;
    list.push(b'a')?;
    list.append(b"bcd")?;
    list.truncate(3);
    assert_eq!(rt; list.bytes(), b"abc".as_slice());
    assert_eq!(rt; list.len(), 3);
    assert_eq!(rt; list.get(2), Some(b'c'));
    list.clear();
    assert!(rt; list.is_empty());
    let mut numbers = Numbers::new(rt.alloc());
    numbers.push(7)?;
    assert_eq!(rt; (numbers.len(), numbers.get(0)), (1, Some(7)));
    let mut fids = Fids::new(rt.alloc());
    fids.push(Fid::ROOT)?;
    assert_eq!(rt; (fids.len(), fids.get(0)), (1, Some(Fid::ROOT)));
    Ok(())
}

#[test]
fn keeps_targets(rt: HostRuntime) {
    let one = Targets::none().with(15);
    let two = one.with(0);
    assert!(rt; one.has(15) && !one.has(0));
    assert!(rt; two.covers(one) && !one.covers(two));
    assert_eq!(rt; two.minus(one), Targets::none().with(0));
    assert_eq!(rt; two.minus(one).union(one), two);
    assert_eq!(rt; Targets::of_number(0x8001).number(), two.number());
    targets_are_their_members();
    members_by_parts();
}

#[test]
fn prints_text(rt: HostRuntime) -> Result<(), Fail> {
    let mut out = Bytes::new(rt.alloc());
    Fid::ROOT.print(&mut out)?;
    print_number(1_048_576, &mut out)?;
    out.push(hex_digit(11))?;
    print_hex_digits(b"\x07\xbd", &mut out)?;
    print_hex(b"", &mut out)?;
    assert_eq!(rt;
        out.bytes(),
        b"[0x200000007:0x1:0x0]1048576b07bd-".as_slice()
    );
    Ok(())
}
