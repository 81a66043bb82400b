use super::*;
use std::process::Abort;

/// An update on each of the three objects, one after another, and on one that isn't there.
fn check(
    rt: &impl Abort,
    alloc: Global,
    kind: u16,
    params: &[&[u8]],
    wants: [&[u8]; 3],
) -> Result<(), Fail> {
    let mut objects = some_objects(alloc)?;
    for (i, want) in wants.iter().enumerate() {
        let oid = (i as u32).wrapping_add(1);
        run(alloc, &mut objects, kind, oid, params)?;
        assert_eq!(rt;
            told(alloc, &objects, oid)?.as_slice(),
            *want,
            "{kind} {oid}"
        );
    }
    run(alloc, &mut objects, kind, 8, params)?;
    assert_eq!(rt; told(alloc, &objects, 8)?, nothing(alloc)?, "{kind}");
    Ok(())
}

/// A file, a directory and a stripe as they are before.
fn as_they_are(alloc: Global) -> Result<[Vec<u8>; 3], Fail> {
    let one = file(alloc, [1, 0o644, 0, 0, 1], 1)?;
    let two = directory(alloc, [2, 0o755, 0, 0, 2], PLAIN, 7, [1, 1])?;
    Ok([one, two, stripe(alloc, 1)?])
}

#[test]
fn changes_links(rt: HostRuntime) -> Result<(), Fail> {
    let alloc = rt.alloc();
    let [_, dir, part] = as_they_are(alloc)?;
    let none = nothing(alloc)?;
    let linked = file(alloc, [1, 0o644, 0, 0, 2], 1)?;
    check(&rt, alloc, 2, &[], [&none, &none, &none])?;
    check(&rt, alloc, 3, &[], [&linked, &dir, &part])?;
    check(&rt, alloc, 4, &[], [&none, &dir, &part])
}

#[test]
fn changes_attributes(rt: HostRuntime) -> Result<(), Fail> {
    let alloc = rt.alloc();
    let set = numbers(alloc, &[0o7777, 5, 6])?;
    let part = stripe(alloc, 1)?;
    let one = file(alloc, [1, 0o7777, 5, 6, 1], 1)?;
    let two = directory(alloc, [2, 0o7777, 5, 6, 2], PLAIN, 7, [1, 1])?;
    check(&rt, alloc, 5, &[set.as_slice()], [&one, &two, &part])?;
    let one = file(alloc, [1, 0o644, 0, 0, 1], 0)?;
    let two = directory(alloc, [2, 0o755, 0, 0, 2], PLAIN, 7, [0, 1])?;
    check(&rt, alloc, 13, &[b"x"], [&one, &two, &part])
}

#[test]
fn changes_entries(rt: HostRuntime) -> Result<(), Fail> {
    let alloc = rt.alloc();
    let child = fid_bytes(alloc, 4)?;
    let [one, _, _] = as_they_are(alloc)?;
    let two = directory(alloc, [2, 0o755, 0, 0, 2], PLAIN, 7, [1, 2])?;
    let more = stripe(alloc, 2)?;
    check(
        &rt,
        alloc,
        10,
        &[b"b", child.as_slice()],
        [&one, &two, &more],
    )?;
    let two = directory(alloc, [2, 0o755, 0, 0, 2], PLAIN, 7, [1, 0])?;
    let less = stripe(alloc, 0)?;
    check(&rt, alloc, 11, &[b"a"], [&one, &two, &less])
}

#[test]
fn changes_directories(rt: HostRuntime) -> Result<(), Fail> {
    let alloc = rt.alloc();
    let [one, two, part] = as_they_are(alloc)?;
    let layout = [4, 1, 0, 0, 2, 0, 0, 0];
    let striped = directory(alloc, [2, 0o755, 0, 0, 2], layout, 7, [1, 1])?;
    check(&rt, alloc, 32, &[&layout], [&one, &striped, &part])?;
    check(
        &rt,
        alloc,
        32,
        &[&[17, 0, 0, 0, 0, 0, 0, 0]],
        [&one, &two, &part],
    )?;
    let parent = fid_bytes(alloc, 6)?;
    let moved = directory(alloc, [2, 0o755, 0, 0, 2], PLAIN, 6, [1, 1])?;
    check(&rt, alloc, 33, &[parent.as_slice()], [&one, &moved, &part])
}

#[test]
fn has_the_root_on_the_first_target(rt: HostRuntime) -> Result<(), Fail> {
    let cluster = Cluster::new(2).ok_or("a cluster")?;
    let first = Objects::new(rt.alloc(), cluster, 0)?;
    let second = Objects::new(rt.alloc(), cluster, 1)?;
    match first.next_node(None) {
        Some(
            (
                fid,
                Reply::Attr {
                    dir: true,
                    mode: 0o755,
                    uid: 0,
                    gid: 0,
                    links: 2,
                },
            ),
        ) => assert_eq!(rt; fid, Fid::ROOT),
        _ => assert!(rt; false),
    }
    assert!(rt; first.next_node(Some(Fid::ROOT)).is_none());
    assert!(rt; second.next_node(None).is_none());
    Ok(())
}
