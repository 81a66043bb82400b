//! The image of a target: the bytes that its disk keeps of what it accepted.
ghost use Rattle.std.specs.Prelude.{◌≡◌, ◌+◌, ◌*◌, ◌≤◌, ◌++◌, [], ℕ, length, take, drop, vec_len, OnOk, IfOk, IfErr, IfSome, Ok, Err};
ghost use Rattle.dne_cli.specs.Image.{fid_bytes, head_bytes, image_of, item_bytes, item_len, number_at, numbers_from, numbers_in, op_bytes, reply_code, word32, word64};
ghost use Rattle.dne_cli.specs.Restart.{BadAt};

use byteorder::{ByteOrder, LittleEndian};
use fid_space::{Bytes, Fid, Numbers};
use std::alloc::{AllocError as Memory, Global};
use std::marker::Model;
use tree_model::{Op, Reply, Request};

/// What an image begins with.
const MAGIC: u32 = 0x444e_4530;

/// How many bytes stand before the operations.
const HEAD_LEN: usize = 8;

/// How many bytes an operation has besides its name.
const FIXED_LEN: usize = 48;

/// The image of a target while it serves. Contracts see how many operations it has, and their bytes.
#[derive(Drop)]
pub struct Image {
    bytes: Vec<u8>,
    count: u32,
}

impl Model for Image {
    ghost use Rattle.std.specs.Prelude.{◌≡◌, ◌≤◌, ◌+◌, ◌*◌, ◌++◌, length, drop, List, ℕ};
    ghost use Rattle.dne_cli.specs.Image.{head_bytes};

    ghost Value = { ℕ × List ℕ };

    ghost view = { λ i. (i.count, drop 8 i.bytes.items) };

    ghost invariant = { λ i. (i.bytes.items ≡ head_bytes i.count ++ drop 8 i.bytes.items) × (length (drop 8 i.bytes.items) ≤ 303 * i.count) };
}

impl Image {
    /// The image of nothing.
    pub fn new(alloc: Global) -> Result<Image, Memory>
        ensures { IfOk result (λ i. i ≡ (0, [])) }
    {
        let mut head = Bytes::new(alloc);
        put32(MAGIC, &mut head)?;
        put32(0, &mut head)?;
        let bytes = Vec::from_slice(alloc, head.bytes())?;
        Ok(Image { bytes, count: 0 })
    }

    /// Lends the bytes.
    pub fn bytes(&self) -> &[u8]
        ensures bytes { result.now ≡ head_bytes self.now.0 ++ self.now.1 }
        ensures short { length result.now ≤ 8 + 303 * self.now.0 }
    {
        self.bytes.as_slice()
    }

    /// Adds an operation with its reply. Want of memory changes nothing.
    pub fn push(&mut self, alloc: Global, request: &Request, reply: &Reply) -> Result<(), Memory>
        requires { self.old.0 ≤ 65536 }
        ensures count { self.new.0 ≤ self.old.0 + 1 }
        ensures pushed { OnOk result (self.new ≡ (self.old.0 + 1, self.old.1 ++ item_bytes (record { request = request.now; reply = reply.now }))) }
    {
        let item = item_of(alloc, request, reply)?;
        self.bytes.extend_from_slice(item.bytes())?;
        self.count += 1;
        set_count(&mut self.bytes, self.count);
        Ok(())
    }
}

/// Changes how many operations an image says that it has.
fn set_count(bytes: &mut Vec<u8>, count: u32)
    requires { 8 ≤ vec_len bytes.old }
    ensures { bytes.new.items ≡ take 4 bytes.old.items ++ (word32 count ++ drop 8 bytes.old.items) }
{
    let mut word = [0; 4];
    LittleEndian::write_u32(&mut word, count);
    bytes[4..8].copy_from_slice(&word);
}

/// The bytes of an operation with its reply.
fn item_of(alloc: Global, request: &Request, reply: &Reply) -> Result<Bytes, Memory>
    ensures bytes { IfOk result (λ b. b ≡ item_bytes (record { request = request.now; reply = reply.now })) }
    ensures short { IfOk result (λ b. length b ≤ 303) }
{
    let mut out = Bytes::new(alloc);
    put32(request.number, &mut out)?;
    put32(u32::from(request.client), &mut out)?;
    put32(code_of(reply), &mut out)?;
    put_op(&request.op, &mut out)?;
    Ok(out)
}

/// Adds what a create asks for. No other operation is accepted yet.
fn put_op(op: &Op, out: &mut Bytes) -> Result<(), Memory>
    ensures bytes { OnOk result (out.new ≡ out.old ++ op_bytes op.now) }
    ensures short { OnOk result (length out.new ≤ length out.old + 291) }
{
    match op {
        Op::Create { parent, name, fid } => {
            put32(name.bytes().len() as u32, out)?;
            put_fid(*parent, out)?;
            put_fid(*fid, out)?;
            out.append(name.bytes())?;
            Ok(())
        }
        _ => Ok(()),
    }
}

fn put_fid(fid: Fid, out: &mut Bytes) -> Result<(), Memory>
    ensures bytes { OnOk result (out.new ≡ out.old ++ fid_bytes fid) }
    ensures short { OnOk result (length out.new ≡ length out.old + 16) }
{
    put64(fid.seq, out)?;
    put32(fid.oid, out)?;
    put32(fid.ver, out)?;
    Ok(())
}

fn put32(n: u32, out: &mut Bytes) -> Result<(), Memory>
    ensures bytes { OnOk result (out.new ≡ out.old ++ word32 n) }
    ensures short { OnOk result (length out.new ≡ length out.old + 4) }
{
    let mut bytes = [0; 4];
    LittleEndian::write_u32(&mut bytes, n);
    out.append(&bytes)
}

fn put64(n: u64, out: &mut Bytes) -> Result<(), Memory>
    ensures bytes { OnOk result (out.new ≡ out.old ++ word64 n) }
    ensures short { OnOk result (length out.new ≡ length out.old + 8) }
{
    let mut bytes = [0; 8];
    LittleEndian::write_u64(&mut bytes, n);
    out.append(&bytes)
}

/// The code of a reply: 0, or the number of its error.
fn code_of(reply: &Reply) -> u32
    ensures { result ≡ reply_code reply.now }
{
    match reply {
        Reply::Ok => 0,
        Reply::Fid(_) => 0,
        Reply::Attr { .. } => 0,
        Reply::Value(_) => 0,
        Reply::Err(errno) => errno.code(),
    }
}

/// Why an image wasn't read.
#[derive(Clone, Copy, Debug, PartialEq, Eq)]
pub enum ImageFault {
    /// The byte from which on it is no image, or its length where bytes are missing or left.
    BadImage(u64),
    /// Memory ran out.
    Memory,
}

/// The numbers of the operations that an image holds, in their order.
pub fn read_numbers(alloc: Global, image: &[u8]) -> Result<Numbers, ImageFault>
    ensures ok { IfOk result (λ ns. numbers_in image.now ≡ Ok ns) }
    ensures bad { IfErr result (λ e. BadAt e (numbers_in image.now)) }
{
    let end = image.len() as u64;
    if image.len() < 4 {
        return Err(ImageFault::BadImage(end));
    }
    if LittleEndian::read_u32(image) != MAGIC {
        return Err(ImageFault::BadImage(0));
    }
    if image.len() < HEAD_LEN {
        return Err(ImageFault::BadImage(end));
    }
    let count = LittleEndian::read_u32(&image[4..]);
    read_items(alloc, &image[HEAD_LEN..], count, end)
}

/// The numbers of so many operations.
fn read_items(alloc: Global, bytes: &[u8], count: u32, end: u64) -> Result<Numbers, ImageFault>
    ensures ok { IfOk result (λ ns. numbers_from end count bytes.now ≡ Ok ns) }
    ensures bad { IfErr result (λ e. BadAt e (numbers_from end count bytes.now)) }
{
    let mut numbers = Numbers::new(alloc);
    let mut rest = bytes;
    for index in 0..count {
        let len = match item_len(rest) {
            Some(len) => len,
            None => return Err(ImageFault::BadImage(end)),
        };
        if numbers.push(LittleEndian::read_u32(rest)).is_err() {
            return Err(ImageFault::Memory);
        }
        rest = &rest[len..];
    }
    if rest.is_empty() {
        Ok(numbers)
    } else {
        Err(ImageFault::BadImage(end))
    }
}

/// How long the operation is that these bytes begin with, where it is there whole.
fn item_len(bytes: &[u8]) -> Option<usize>
    ensures is { result ≡ item_len bytes.now }
    ensures within { IfSome result (λ len. (48 ≤ len) × (len ≤ length bytes.now)) }
{
    if bytes.len() < FIXED_LEN {
        return None;
    }
    let len = FIXED_LEN + LittleEndian::read_u32(&bytes[12..]) as usize;
    if bytes.len() < len {
        return None;
    }
    Some(len)
}
