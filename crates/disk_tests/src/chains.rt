ghost use Rattle.std.specs.Prelude.{◌<◌, length};

use chain_blocks::{Blocks, ChainFault, ChainWriteFault, Full};
use fid_space::Bytes;
use outside::MemoryDisk;
use std::alloc::Global;

const END: u32 = 0xffff_ffff;

/// Three blocks: two are taken, the first is given back, and all are taken.
fn taken_again(alloc: Global) -> Option<[Result<u32, Full>; 5]> {
    let Ok(mut blocks) = Blocks::new(alloc, 3) else {
        return None;
    };
    let Ok(first) = blocks.take() else {
        return None;
    };
    let Ok(second) = blocks.take() else {
        return None;
    };
    blocks.give(first);
    let again = blocks.take();
    Some([Ok(first), Ok(second), again, blocks.take(), blocks.take()])
}

#[test]
fn taken_and_given(rt: HostRuntime) {
    let want = [Ok(0), Ok(1), Ok(0), Ok(2), Err(Full)];
    assert!(rt; taken_again(rt.alloc()) == Some(want));
}

/// The first free block of two unused ones, and the links of both and of one that isn't there.
fn first_links(alloc: Global) -> Option<(u32, [Option<u32>; 3])> {
    let Ok(blocks) = Blocks::new(alloc, 2) else {
        return None;
    };
    let links = [blocks.link(0), blocks.link(1), blocks.link(2)];
    Some((blocks.free(), links))
}

#[test]
fn linked_at_first(rt: HostRuntime) {
    let want = (0, [Some(1), Some(END), None]);
    assert!(rt; first_links(rt.alloc()) == Some(want));
}

#[test]
fn faults_of_links(rt: HostRuntime) {
    for (links, heads, free, want) in [
        ([1, 0, END], [0].as_slice(), 2, ChainFault::Loop(0)),
        ([2, 2, END], [0, 1].as_slice(), END, ChainFault::Shared(2)),
        ([END, 7, END], [0].as_slice(), 1, ChainFault::OutOfRange(7)),
        ([END, END, END], [0].as_slice(), 1, ChainFault::Lost(2)),
    ] {
        let answer = Blocks::from_links(rt.alloc(), &links, heads, free);
        assert!(rt; answer.err() == Some(want), "{want:?}");
    }
}

/// Bytes are written into blocks, and read back.
fn read_back(alloc: Global, bytes: &[u8]) -> Option<(u32, Bytes)>
    requires { 0 < length bytes.now }
{
    let Ok(mut blocks) = Blocks::new(alloc, 4) else {
        return None;
    };
    let Ok(mut disk) = MemoryDisk::new(alloc, &[]) else {
        return None;
    };
    let Ok(head) = blocks.write_chain(&mut disk, 8192, bytes) else {
        return None;
    };
    let mut out = Bytes::new(alloc);
    if blocks.read_chain(&mut disk, 8192, head, &mut out).is_err() {
        return None;
    }
    Some((head, out))
}

/// What writing into one block on a disk that fails answers, and the first free block after it.
fn refused(alloc: Global, bytes: &[u8]) -> Option<(Result<u32, ChainWriteFault>, u32)>
    requires { 0 < length bytes.now }
{
    let Ok(mut blocks) = Blocks::new(alloc, 1) else {
        return None;
    };
    let Ok(mut disk) = MemoryDisk::new(alloc, &[1]) else {
        return None;
    };
    let answer = blocks.write_chain(&mut disk, 0, bytes);
    Some((answer, blocks.free()))
}

#[test]
fn written_and_read(rt: HostRuntime) {
    let Some((head, out)) = read_back(rt.alloc(), &[7; 8193]) else {
        panic!(rt; "it wasn't written");
    };
    let got = (head, out.len(), out.get(8192), out.get(8193));
    assert!(rt; got == (0, 12288, Some(7), Some(0)));
}

#[test]
fn writes_that_fail(rt: HostRuntime) {
    let full = refused(rt.alloc(), &[7; 4097]);
    assert!(rt; full == Some((Err(ChainWriteFault::Full(2)), 0)));
    let failed = refused(rt.alloc(), &[7; 4096]);
    assert!(rt; failed == Some((Err(ChainWriteFault::Disk), 0)));
}
