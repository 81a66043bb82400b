use fid_space::{Bytes, Cluster, Fid};
use out_update::{Kind, Update};
use std::test::Fail;
use striped_dir::{
    BadValue, Layout, fnv1a_64, make_parts, one_spelling_per_layout, part,
    parts_stand_with_their_objects, place, print_hash, remove_parts, stripes_are_spelled,
};
use tree_model::Name;

#[test]
fn hashes_names(rt: HostRuntime) -> Result<(), Fail> {
    let rows: [(&str, u64, &str); 3] = [
        ("", 0xcbf2_9ce4_8422_2325, "cbf29ce484222325"),
        ("a", 0xaf63_dc4c_8601_ec8c, "af63dc4c8601ec8c"),
        ("foobar", 0x8594_4171_f739_67e8, "85944171f73967e8"),
    ];
    for (name, want, text) in rows {
        let hash = fnv1a_64(name.as_bytes());
        assert_eq!(rt; hash, want, "{name}");
        let mut out = Bytes::new(rt.alloc());
        print_hash(hash, &mut out)?;
        assert_eq!(rt; out.bytes(), text.as_bytes(), "{name}");
    }
    Ok(())
}

#[test]
fn spells_layouts(rt: HostRuntime) {
    let layout = Layout {
        count: 4,
        start: 2,
        generation: 0x0102_0304,
    };
    let bytes = [4, 2, 0, 0, 4, 3, 2, 1];
    assert_eq!(rt; layout.encode(), bytes);
    assert_eq!(rt; Layout::decode(bytes), Ok(layout));
    let bad = BadValue { place: 2 };
    assert_eq!(rt; Layout::decode([1, 0, 1, 1, 0, 0, 0, 0xff]), Err(bad));
    one_spelling_per_layout();
}

/// A client's first directory on target 0.
const DIR: Fid = Fid {
    seq: 0x2_0000_0400,
    oid: 1,
    ver: 0,
};

#[test]
fn places_names(rt: HostRuntime) -> Result<(), Fail> {
    let cluster = Cluster::new(4).expect(&rt, "four targets");
    let layout = Layout {
        count: 4,
        start: 0,
        generation: 0,
    };
    let rows: [(&str, u8, u64, u32); 4] = [
        ("a", 0, 0x2_0008_0400, 1),
        ("b", 1, 0x2_0018_0400, 2),
        ("c", 2, 0x2_0028_0400, 3),
        ("d", 3, 0x2_0038_0400, 4),
    ];
    for (text, target, seq, ver) in rows {
        let name = Name::new(rt.alloc(), text.as_bytes()).expect(&rt, "a name");
        let want = Fid { seq, oid: 1, ver };
        assert_eq!(rt;
            place(cluster, DIR, layout, &name),
            (target, want),
            "{text}"
        );
    }
    assert_eq!(rt; part(cluster, DIR, layout, 1).0, 1);
    parts_stand_with_their_objects();
    Ok(())
}

fn is_one(update: Option<&Update>, kind: Kind, fid: Fid, body: &[u8]) -> bool {
    match update {
        None => false,
        Some(update) => {
            let same = match update.params.get(0) {
                None => body.is_empty(),
                Some(found) => found.bytes() == body,
            };
            same && update.kind == kind && update.batch == 9 && update.fid == fid
        }
    }
}

#[test]
fn makes_and_removes_stripes(rt: HostRuntime) -> Result<(), Fail> {
    let cluster = Cluster::new(2).expect(&rt, "two targets");
    let layout = Layout {
        count: 2,
        start: 1,
        generation: 1,
    };
    let second = Fid {
        seq: 0x2_0008_0400,
        oid: 1,
        ver: 0x12,
    };
    let body: [u8; 48] = [
        3, 0, 0, 0, 0, 0, 0, 0, 0, 0, 0, 0, 0, 0, 0, 0, 0, 0, 0, 0, 0, 0, 0, 0, 0, 0, 0, 0, 0, 4,
        0, 0, 2, 0, 0, 0, 1, 0, 0, 0, 0, 0, 0, 0, 1, 0, 0, 0,
    ];
    let parts = make_parts(rt.alloc(), cluster, DIR, layout, 9)?;
    let gone = remove_parts(rt.alloc(), cluster, DIR, layout, 9)?;
    assert_eq!(rt; (parts.len(), gone.len()), (2, 2));
    let made = parts.get(1).expect(&rt, "a second stripe");
    assert!(rt; made.0 == 0 && is_one(made.1.get(0), Kind::Create, second, &body));
    let removed = gone.get(1).expect(&rt, "a second stripe");
    assert!(rt; removed.0 == 0 && is_one(removed.1.get(0), Kind::Destroy, second, b""));
    stripes_are_spelled();
    Ok(())
}
