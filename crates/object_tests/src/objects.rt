ghost use Rattle.std.specs.Prelude.{All, IfOk};
ghost use Rattle.out_update.specs.Spelling.{FitsUpdate};

use crate::fixtures::fid;
use byte_grammar::{padding_of, put16, put32, put64};
use fid_space::{Bytes, Cluster, Fid};
use object_store::Objects;
use out_update::{UpdateRequest, read_pieces};
use std::alloc::{AllocError as Memory, Global};
use std::test::Fail;
use tree_model::{Name, Reply};

mod images;
mod reads;
mod updates;

fn put_fid(out: &mut Vec<u8>, fid: Fid) -> Result<(), Memory> {
    put64(out, fid.seq)?;
    put32(out, fid.oid)?;
    put32(out, fid.ver)?;
    Ok(())
}

fn fid_bytes(alloc: Global, oid: u32) -> Result<Vec<u8>, Fail> {
    let mut out = Vec::new(alloc);
    put_fid(&mut out, fid(oid))?;
    Ok(out)
}

/// The numbers of 32 bits, one after another.
fn numbers(alloc: Global, list: &[u32]) -> Result<Vec<u8>, Fail> {
    let mut out = Vec::new(alloc);
    for n in list {
        put32(&mut out, *n)?;
    }
    Ok(out)
}

/// The 48 bytes of a body: kind, mode, owner, group and links, the layout, and the FID and the index.
fn body(
    alloc: Global,
    front: [u32; 5],
    layout: [u8; 8],
    oid: u32,
    index: u32,
) -> Result<Vec<u8>, Fail> {
    let mut out = numbers(alloc, &front)?;
    out.extend_from_slice(&layout)?;
    put_fid(&mut out, fid(oid))?;
    put32(&mut out, index)?;
    Ok(out)
}

fn put_param(out: &mut Vec<u8>, param: &[u8]) -> Result<(), Fail> {
    let len = u16::try_from(param.len()).ok().ok_or("a short parameter")?;
    put16(out, len)?;
    put16(out, 0)?;
    put32(out, 0)?;
    out.extend_from_slice(param)?;
    for _ in 0..padding_of(u32::from(len)) {
        out.extend_from_slice(&[0])?;
    }
    Ok(())
}

/// The request with these bytes.
fn parsed(alloc: Global, bytes: &[u8]) -> Result<UpdateRequest, Fail>
    ensures { IfOk result (λ r. All FitsUpdate r) }
{
    let mut piece = Bytes::new(alloc);
    piece.append(bytes)?;
    match read_pieces(alloc, &[piece]) {
        Ok(Some(request)) => Ok(request),
        _ => Err("a request".into()),
    }
}

/// A request of one update: its number, its object and its parameters.
fn request(alloc: Global, kind: u16, oid: u32, params: &[&[u8]]) -> Result<UpdateRequest, Fail>
    ensures { IfOk result (λ r. All FitsUpdate r) }
{
    let count = u16::try_from(params.len()).ok().ok_or("few parameters")?;
    let mut out = numbers(alloc, &[0xbdde_0001, 1])?;
    put16(&mut out, kind)?;
    put16(&mut out, count)?;
    put32(&mut out, 0)?;
    let batch = if matches!(kind, 6 | 8 | 9 | 34 | 35) {
        0
    } else {
        1
    };
    put64(&mut out, batch)?;
    put_fid(&mut out, fid(oid))?;
    for param in params {
        put_param(&mut out, param)?;
    }
    parsed(alloc, &out)
}

/// Does one update.
fn run(
    alloc: Global,
    objects: &mut Objects,
    kind: u16,
    oid: u32,
    params: &[&[u8]],
) -> Result<(), Fail> {
    let updates = request(alloc, kind, oid, params)?;
    objects.apply(&updates)?;
    Ok(())
}

/// The code and the bytes of a question's result.
fn result_of(alloc: Global, objects: &Objects, asks: &UpdateRequest) -> Result<(u32, Bytes), Fail>
    requires { All FitsUpdate asks.now }
{
    match asks.get(0) {
        Some(ask) => {
            let result = objects.read(alloc, ask)?;
            Ok((result.code, result.body))
        }
        None => Err("an update".into()),
    }
}

const PLAIN: [u8; 8] = [0; 8];

/// A file 1, a directory 2 in 7 with an entry, and its stripe 3 with an entry; the file and the directory
/// have an attribute.
fn some_objects(alloc: Global) -> Result<Objects, Fail> {
    let cluster = Cluster::new(2).ok_or("a cluster")?;
    let mut objects = Objects::new(alloc, cluster, 1)?;
    let file = body(alloc, [1, 0o644, 0, 0, 1], PLAIN, 0, 0)?;
    let directory = body(alloc, [2, 0o755, 0, 0, 2], PLAIN, 7, 0)?;
    let stripe = body(alloc, [3, 0, 0, 0, 0], PLAIN, 2, 5)?;
    let child = fid_bytes(alloc, 9)?;
    run(alloc, &mut objects, 1, 1, &[file.as_slice()])?;
    run(alloc, &mut objects, 1, 2, &[directory.as_slice()])?;
    run(alloc, &mut objects, 1, 3, &[stripe.as_slice()])?;
    run(
        alloc,
        &mut objects,
        7,
        1,
        &[b"x".as_slice(), b"v".as_slice()],
    )?;
    run(
        alloc,
        &mut objects,
        7,
        2,
        &[b"x".as_slice(), b"v".as_slice()],
    )?;
    run(
        alloc,
        &mut objects,
        10,
        2,
        &[b"a".as_slice(), child.as_slice()],
    )?;
    run(
        alloc,
        &mut objects,
        10,
        3,
        &[b"a".as_slice(), child.as_slice()],
    )?;
    Ok(objects)
}

/// What the questions for attributes and for the count of entries tell of an object: code and bytes of each.
fn told(alloc: Global, objects: &Objects, oid: u32) -> Result<Vec<u8>, Fail> {
    let (code, node) = result_of(alloc, objects, &request(alloc, 6, oid, &[])?)?;
    let (counted, entries) = result_of(alloc, objects, &request(alloc, 35, oid, &[])?)?;
    let mut out = numbers(alloc, &[code, counted])?;
    out.extend_from_slice(node.bytes())?;
    out.extend_from_slice(entries.bytes())?;
    Ok(out)
}

/// What they tell of a file with so many links and attributes.
fn file(alloc: Global, front: [u32; 5], attributes: u64) -> Result<Vec<u8>, Fail> {
    let mut out = numbers(alloc, &[0, 20])?;
    out.extend_from_slice(&body(alloc, front, PLAIN, 0, 0)?)?;
    put64(&mut out, attributes)?;
    Ok(out)
}

/// What they tell of a directory with so many attributes and entries.
fn directory(
    alloc: Global,
    front: [u32; 5],
    layout: [u8; 8],
    parent: u32,
    counts: [u32; 2],
) -> Result<Vec<u8>, Fail> {
    let mut out = numbers(alloc, &[0, 0])?;
    out.extend_from_slice(&body(alloc, front, layout, parent, 0)?)?;
    put64(&mut out, u64::from(counts[0]))?;
    put32(&mut out, counts[1])?;
    Ok(out)
}

/// What they tell of a stripe with so many entries.
fn stripe(alloc: Global, entries: u32) -> Result<Vec<u8>, Fail> {
    numbers(alloc, &[2, 0, entries])
}

/// What they tell where there is no object.
fn nothing(alloc: Global) -> Result<Vec<u8>, Fail> {
    numbers(alloc, &[2, 20])
}
