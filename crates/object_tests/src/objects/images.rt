use super::*;
use object_store::{Body, ImageFault};
use std::process::Abort;

/// An image begins with its count and a zero.
fn begun(alloc: Global, count: u32) -> Result<Vec<u8>, Fail> {
    numbers(alloc, &[count, 0])
}

/// Adds an object without its entries and attributes, of which there are so many.
fn put_object(out: &mut Vec<u8>, oid: u32, body: &[u8], counts: [u32; 2]) -> Result<(), Fail> {
    put_fid(out, fid(oid))?;
    out.extend_from_slice(body)?;
    put32(out, counts[0])?;
    put32(out, counts[1])?;
    Ok(())
}

/// Adds an entry with a name of one byte.
fn put_entry(out: &mut Vec<u8>, name: u8, child: u32) -> Result<(), Fail> {
    out.extend_from_slice(&[1, 0, 0, 0, 0, 0, 0, 0])?;
    put_fid(out, fid(child))?;
    out.extend_from_slice(&[name, 0, 0, 0, 0, 0, 0, 0])?;
    Ok(())
}

/// Adds an attribute with a name and a value of one byte.
fn put_attribute(out: &mut Vec<u8>, name: u8, value: u8) -> Result<(), Fail> {
    out.extend_from_slice(&[1, 0, 1, 0, 0, 0, 0, 0])?;
    out.extend_from_slice(&[name, 0, 0, 0, 0, 0, 0, 0])?;
    out.extend_from_slice(&[value, 0, 0, 0, 0, 0, 0, 0])?;
    Ok(())
}

/// A file with 65,000 links, of 80 bytes.
fn file_image(alloc: Global) -> Result<Vec<u8>, Fail> {
    let mut out = begun(alloc, 1)?;
    let body = body(alloc, [1, 0o644, 5, 6, 65_000], PLAIN, 0, 0)?;
    put_object(&mut out, 1, &body, [0, 0])?;
    Ok(out)
}

/// A directory with the entry `ab` at 80 and the attribute `x` at 112, of 136 bytes.
fn directory_image(alloc: Global) -> Result<Vec<u8>, Fail> {
    let mut out = begun(alloc, 1)?;
    let body = body(alloc, [2, 0o755, 5, 6, 2], [3, 1, 0, 0, 7, 0, 0, 0], 9, 0)?;
    put_object(&mut out, 1, &body, [1, 1])?;
    out.extend_from_slice(&[2, 0, 0, 0, 0, 0, 0, 0])?;
    put_fid(&mut out, fid(3))?;
    out.extend_from_slice(&[b'a', b'b', 0, 0, 0, 0, 0, 0])?;
    out.extend_from_slice(&[1, 0, 2, 0, 0, 0, 0, 0])?;
    out.extend_from_slice(&[b'x', 0, 0, 0, 0, 0, 0, 0])?;
    out.extend_from_slice(&[b'v', b'w', 0, 0, 0, 0, 0, 0])?;
    Ok(out)
}

/// A stripe with the entry `b` at 80, of 112 bytes.
fn stripe_image(alloc: Global) -> Result<Vec<u8>, Fail> {
    let mut out = begun(alloc, 1)?;
    let body = body(alloc, [3, 0, 0, 0, 0], PLAIN, 9, 15)?;
    put_object(&mut out, 1, &body, [1, 0])?;
    put_entry(&mut out, b'b', 3)?;
    Ok(out)
}

/// The file 1, and the directory 2 at 80, with the entries `b` at 152 and `c` at 184, and the attributes `y` at
/// 216 and `z` at 240; of 264 bytes.
fn two_objects(alloc: Global) -> Result<Vec<u8>, Fail> {
    let mut out = begun(alloc, 2)?;
    let file = body(alloc, [1, 0o644, 0, 0, 1], PLAIN, 0, 0)?;
    let directory = body(alloc, [2, 0o755, 0, 0, 2], PLAIN, 9, 0)?;
    put_object(&mut out, 1, &file, [0, 0])?;
    put_object(&mut out, 2, &directory, [2, 2])?;
    put_entry(&mut out, b'b', 3)?;
    put_entry(&mut out, b'c', 3)?;
    put_attribute(&mut out, b'y', 1)?;
    put_attribute(&mut out, b'z', 2)?;
    Ok(out)
}

fn fault_of(alloc: Global, bytes: &[u8]) -> Option<ImageFault> {
    match Objects::decode(alloc, bytes) {
        Ok(_) => None,
        Err(fault) => Some(fault),
    }
}

/// Each row is the place of a byte, what it becomes, and the place of the fault.
fn check_changed(
    rt: &impl Abort,
    alloc: Global,
    image: &[u8],
    rows: &[(usize, u8, usize)],
) -> Result<(), Fail> {
    for (at, byte, place) in rows {
        let mut bytes = Vec::from_slice(alloc, image)?;
        if let Some(changed) = bytes.get_mut(*at) {
            *changed = *byte;
        }
        assert_eq!(rt;
            fault_of(alloc, &bytes),
            Some(ImageFault::BadImage(*place)),
            "{at} {byte}"
        );
    }
    Ok(())
}

/// The image is read and written again, also where bytes follow, and each shorter one lacks bytes.
fn check_whole(rt: &impl Abort, alloc: Global, image: &[u8]) -> Result<(), Fail> {
    let mut more = Vec::from_slice(alloc, image)?;
    more.extend_from_slice(&[1, 2, 3])?;
    let (objects, used) = match Objects::decode(alloc, &more) {
        Ok(read) => read,
        Err(_) => return Err("an image".into()),
    };
    let mut out = Bytes::new(alloc);
    objects.encode(&mut out)?;
    assert_eq!(rt; used, image.len());
    assert_eq!(rt; out.bytes(), image);
    assert_eq!(rt; objects.size(), image.len() as u64);
    for len in 0..image.len() {
        let fault = fault_of(alloc, image.split_at(len).0);
        assert_eq!(rt; fault, Some(ImageFault::BadImage(len)), "{len}");
    }
    Ok(())
}

#[test]
fn whole_images(rt: HostRuntime) -> Result<(), Fail> {
    let alloc = rt.alloc();
    check_whole(&rt, alloc, &begun(alloc, 0)?)?;
    check_whole(&rt, alloc, &file_image(alloc)?)?;
    check_whole(&rt, alloc, &directory_image(alloc)?)?;
    check_whole(&rt, alloc, &stripe_image(alloc)?)?;
    check_whole(&rt, alloc, &two_objects(alloc)?)?;
    Ok(())
}

#[test]
fn changed_bytes_of_a_file(rt: HostRuntime) -> Result<(), Fail> {
    let alloc = rt.alloc();
    let rows: [(usize, u8, usize); 13] = [
        (0, 2, 80),
        (4, 1, 4),
        (7, 1, 4),
        (24, 0, 24),
        (24, 4, 24),
        (29, 0x10, 28),
        (40, 0xe9, 40),
        (44, 1, 44),
        (48, 1, 48),
        (52, 1, 52),
        (60, 1, 60),
        (67, 1, 64),
        (68, 1, 68),
    ];
    check_changed(&rt, alloc, &file_image(alloc)?, &rows)
}

#[test]
fn changed_bytes_of_a_stripe(rt: HostRuntime) -> Result<(), Fail> {
    let alloc = rt.alloc();
    let rows: [(usize, u8, usize); 12] = [
        (28, 1, 28),
        (32, 1, 32),
        (39, 1, 36),
        (40, 1, 40),
        (44, 1, 44),
        (45, 1, 45),
        (47, 1, 46),
        (48, 1, 48),
        (68, 16, 68),
        (72, 2, 112),
        (104, b'.', 104),
        (104, b'/', 104),
    ];
    check_changed(&rt, alloc, &stripe_image(alloc)?, &rows)
}

#[test]
fn changed_bytes_of_a_directory(rt: HostRuntime) -> Result<(), Fail> {
    let alloc = rt.alloc();
    let rows: [(usize, u8, usize); 9] = [
        (40, 3, 40),
        (44, 17, 44),
        (44, 0, 45),
        (45, 16, 45),
        (46, 1, 46),
        (51, 0x10, 48),
        (68, 1, 68),
        (72, 0, 88),
        (76, 2, 136),
    ];
    check_changed(&rt, alloc, &directory_image(alloc)?, &rows)
}

#[test]
fn changed_bytes_of_an_entry(rt: HostRuntime) -> Result<(), Fail> {
    let alloc = rt.alloc();
    let rows: [(usize, u8, usize); 9] = [
        (80, 0, 80),
        (81, 1, 80),
        (82, 1, 82),
        (87, 1, 84),
        (104, 0, 104),
        (105, 0, 105),
        (105, b'/', 105),
        (106, 1, 106),
        (111, 1, 111),
    ];
    check_changed(&rt, alloc, &directory_image(alloc)?, &rows)
}

#[test]
fn changed_bytes_of_an_attribute(rt: HostRuntime) -> Result<(), Fail> {
    let alloc = rt.alloc();
    let rows: [(usize, u8, usize); 9] = [
        (112, 0, 112),
        (113, 1, 112),
        (115, 0x10, 114),
        (115, 0xff, 114),
        (119, 1, 116),
        (120, b'/', 120),
        (121, 1, 121),
        (130, 1, 130),
        (135, 1, 135),
    ];
    check_changed(&rt, alloc, &directory_image(alloc)?, &rows)
}

/// Out of order or twice: at the first byte of the FID or of the name, whatever else is bad in the name.
#[test]
fn items_out_of_order(rt: HostRuntime) -> Result<(), Fail> {
    let alloc = rt.alloc();
    let rows: [(usize, u8, usize); 9] = [
        (88, 1, 80),
        (88, 0, 80),
        (84, 1, 80),
        (208, b'b', 208),
        (208, b'a', 208),
        (176, b'c', 208),
        (248, b'y', 248),
        (224, b'z', 248),
        (248, 0, 248),
    ];
    check_changed(&rt, alloc, &two_objects(alloc)?, &rows)
}

/// The image in pieces of a length, each of which is also what stands at its place.
fn check_pieces(
    rt: &impl Abort,
    alloc: Global,
    objects: &Objects,
    image: &[u8],
    length: usize,
) -> Result<(), Fail> {
    let mut out = Vec::new(alloc);
    let mut piece = Vec::from_elem(alloc, 0xee, length)?;
    let mut again = Vec::from_elem(alloc, 0xee, length)?;
    let mut left = objects.pieces();
    for _turn in 0..image.len() {
        let place = out.len() as u64;
        let count = left.copy_next(piece.as_mut_slice());
        assert_eq!(rt;
            objects.copy_from(place, again.as_mut_slice()),
            count,
            "{place}"
        );
        assert_eq!(rt; piece.as_slice(), again.as_slice(), "{place}");
        assert!(rt; count <= piece.len());
        out.extend_from_slice(piece.as_slice().split_at(count).0)?;
    }
    assert_eq!(rt; out.as_slice(), image);
    Ok(())
}

#[test]
fn images_in_pieces(rt: HostRuntime) -> Result<(), Fail> {
    let alloc = rt.alloc();
    let objects = some_objects(alloc)?;
    let mut image = Bytes::new(alloc);
    objects.encode(&mut image)?;
    check_pieces(&rt, alloc, &objects, image.bytes(), 1)?;
    check_pieces(&rt, alloc, &objects, image.bytes(), 7)?;
    check_pieces(&rt, alloc, &objects, image.bytes(), 4096)
}

#[test]
fn a_body_is_read_back(rt: HostRuntime) -> Result<(), Fail> {
    let alloc = rt.alloc();
    let mut bytes = body(alloc, [2, 0o755, 5, 6, 2], [3, 1, 0, 0, 7, 0, 0, 0], 9, 0)?;
    bytes.push(1)?;
    assert_eq!(rt; bytes.len(), 49);
    match Body::decode(&bytes) {
        Ok((read, rest)) => {
            assert_eq!(rt; read.encode().as_slice(), bytes.as_slice().split_at(48).0);
            assert_eq!(rt; rest, [1].as_slice());
        }
        Err(_) => assert!(rt; false),
    }
    let wide = body(alloc, [2, 0o10000, 5, 6, 2], [3, 1, 0, 0, 7, 0, 0, 0], 9, 0)?;
    assert_eq!(rt; Body::decode(&wide).err(), Some(ImageFault::BadImage(4)));
    Ok(())
}
