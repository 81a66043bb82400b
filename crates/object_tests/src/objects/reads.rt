ghost use Rattle.std.specs.Prelude.{All};
ghost use Rattle.out_update.specs.Spelling.{FitsUpdate};

use super::*;
use std::process::Abort;

/// The result of a question, beside the code and the bytes that are wanted.
fn check(
    rt: &impl Abort,
    alloc: Global,
    objects: &Objects,
    ask: &UpdateRequest,
    code: u32,
    bytes: &[u8],
) -> Result<(), Fail>
    requires { All FitsUpdate ask.now }
{
    let (got, body) = result_of(alloc, objects, ask)?;
    assert_eq!(rt; got, code);
    assert_eq!(rt; body.bytes(), bytes);
    Ok(())
}

#[test]
fn reads_nodes(rt: HostRuntime) -> Result<(), Fail> {
    let alloc = rt.alloc();
    let objects = some_objects(alloc)?;
    let mut file = body(alloc, [1, 0o644, 0, 0, 1], PLAIN, 0, 0)?;
    put64(&mut file, 1)?;
    let mut directory = body(alloc, [2, 0o755, 0, 0, 2], PLAIN, 7, 0)?;
    put64(&mut directory, 1)?;
    check(&rt, alloc, &objects, &request(alloc, 6, 1, &[])?, 0, &file)?;
    check(
        &rt,
        alloc,
        &objects,
        &request(alloc, 6, 2, &[])?,
        0,
        &directory,
    )?;
    check(&rt, alloc, &objects, &request(alloc, 6, 3, &[])?, 2, &[])?;
    check(&rt, alloc, &objects, &request(alloc, 6, 8, &[])?, 2, &[])
}

#[test]
fn looks_names_up(rt: HostRuntime) -> Result<(), Fail> {
    let alloc = rt.alloc();
    let objects = some_objects(alloc)?;
    let child = fid_bytes(alloc, 9)?;
    check(
        &rt,
        alloc,
        &objects,
        &request(alloc, 9, 2, &[b"a"])?,
        0,
        &child,
    )?;
    check(
        &rt,
        alloc,
        &objects,
        &request(alloc, 9, 3, &[b"a"])?,
        0,
        &child,
    )?;
    check(
        &rt,
        alloc,
        &objects,
        &request(alloc, 9, 2, &[b"b"])?,
        2,
        &[],
    )?;
    check(
        &rt,
        alloc,
        &objects,
        &request(alloc, 9, 1, &[b"a"])?,
        20,
        &[],
    )?;
    check(
        &rt,
        alloc,
        &objects,
        &request(alloc, 9, 8, &[b"a"])?,
        20,
        &[],
    )
}

#[test]
fn lists_and_counts(rt: HostRuntime) -> Result<(), Fail> {
    let alloc = rt.alloc();
    let objects = some_objects(alloc)?;
    let mut list = Vec::new(alloc);
    list.extend_from_slice(&[1, 0, b'a'])?;
    put_fid(&mut list, fid(9))?;
    check(&rt, alloc, &objects, &request(alloc, 34, 2, &[])?, 0, &list)?;
    check(&rt, alloc, &objects, &request(alloc, 34, 8, &[])?, 20, &[])?;
    check(
        &rt,
        alloc,
        &objects,
        &request(alloc, 8, 2, &[b"x"])?,
        0,
        b"v",
    )?;
    check(
        &rt,
        alloc,
        &objects,
        &request(alloc, 35, 2, &[])?,
        0,
        &[1, 0, 0, 0],
    )?;
    check(&rt, alloc, &objects, &request(alloc, 35, 8, &[])?, 20, &[])
}

#[test]
fn goes_over_nodes(rt: HostRuntime) -> Result<(), Fail> {
    let objects = some_objects(rt.alloc())?;
    let rows = [
        (0, Some((1, false))),
        (1, Some((2, true))),
        (2, None),
        (3, None),
        (8, None),
    ];
    for (after, want) in rows {
        let next = match objects.next_node(Some(fid(after))) {
            Some((found, Reply::Attr { dir, .. })) => Some((found.oid, dir)),
            _ => None,
        };
        assert_eq!(rt; next, want, "{after}");
    }
    Ok(())
}

#[test]
fn goes_over_entries(rt: HostRuntime) -> Result<(), Fail> {
    let objects = some_objects(rt.alloc())?;
    let rows = [
        (0, "z", Some((2, 2, 9))),
        (2, "A", Some((2, 2, 9))),
        (2, "a", Some((3, 2, 9))),
        (3, "Z", Some((3, 2, 9))),
        (3, "a", None),
        (8, "a", None),
    ];
    for (after, name, want) in rows {
        let name = Name::new(rt.alloc(), name.as_bytes())?;
        let next = match objects.next_entry(Some((fid(after), &name))) {
            Some((object, directory, _, child)) => Some((object.oid, directory.oid, child.oid)),
            None => None,
        };
        assert_eq!(rt; next, want, "{after}");
    }
    assert!(rt; objects.next_entry(None).is_some());
    Ok(())
}

#[test]
fn goes_over_attributes(rt: HostRuntime) -> Result<(), Fail> {
    let objects = some_objects(rt.alloc())?;
    let rows = [
        (0, "z", Some(1)),
        (1, "w", Some(1)),
        (1, "x", Some(2)),
        (2, "x", None),
        (3, "a", None),
    ];
    for (after, name, want) in rows {
        let name = Name::new(rt.alloc(), name.as_bytes())?;
        let next = match objects.next_attribute(Some((fid(after), &name))) {
            Some((object, found, value)) => {
                assert_eq!(rt; found.bytes(), b"x".as_slice());
                assert_eq!(rt; value, b"v".as_slice());
                Some(object.oid)
            }
            None => None,
        };
        assert_eq!(rt; next, want, "{after}");
    }
    assert!(rt; objects.next_attribute(None).is_some());
    Ok(())
}
