ghost use Rattle.std.specs.Prelude.{◌≡◌, length, IsSome};

use crate::fixtures::image_of;
use fid_space::Bytes;
use outside::{Disk, MemoryDisk, Plant, SureDisk};
use std::alloc::Global;
use target_disk::{CommitFault, FormatFault, OpenStoreFault, Store};

/// An image of nine blocks.
const LONG: usize = 33_000;

/// The most bytes of an image.
const MOST: usize = 32_768_000;

/// An image in four pieces of odd lengths.
fn commit_pieces(
    alloc: Global,
    store: &mut Store<MemoryDisk>,
    value: u8,
) -> Option<Result<(), CommitFault>> {
    let (Ok(short), Ok(long)) = (image_of(alloc, 4097, value), image_of(alloc, 28_901, value))
    else {
        return None;
    };
    store.begin();
    Some(put_pieces(store, &[value], &short, &long))
}

/// A byte, a piece, another, and the byte again.
fn put_pieces(
    store: &mut Store<MemoryDisk>,
    byte: &[u8],
    short: &[u8],
    long: &[u8],
) -> Result<(), CommitFault>
    requires begun { IsSome store.old.draft }
    requires one { length byte.now ≡ 1 }
{
    store.put(byte)?;
    store.put(short)?;
    store.put(long)?;
    store.put(byte)?;
    store.finish()
}

/// What the third commit answered under a fuse, whole or in pieces, and the image that the disk then
/// opened as.
fn stopped(
    alloc: Global,
    after: u32,
    choice: u8,
    in_pieces: bool,
) -> Option<(Result<(), CommitFault>, Bytes)> {
    let (Ok(second), Ok(third)) = (image_of(alloc, LONG, 2), image_of(alloc, LONG, 3)) else {
        return None;
    };
    let disk = MemoryDisk::new(alloc, &[]).ok()?;
    let mut store = Store::format(alloc, disk, b"none").ok()?;
    store.commit(b"one").ok()?;
    store.commit(&second).ok()?;
    store.arm(after, choice);
    let answer = if in_pieces {
        commit_pieces(alloc, &mut store, 3)?
    } else {
        store.commit(&third)
    };
    let mut disk = store.into_disk();
    disk.power_cycle().ok()?;
    let (_, image) = Store::open(alloc, disk).ok()?;
    Some((answer, image))
}

/// Whether a stop left the image that it must: that of the commit where the write of the gate, its
/// thirteenth call, is settled, and where the choice keeps it; else the one before.
fn is_right(alloc: Global, after: u32, choice: u8, in_pieces: bool) -> bool {
    let kept = after >= 14 || (after >= 12 && choice % 2 == 1);
    let want = Some(if kept { 3 } else { 2 });
    let Some((answer, image)) = stopped(alloc, after, choice, in_pieces) else {
        return false;
    };
    let whole = image.len() == LONG && image.get(0) == want && image.get(LONG - 1) == want;
    whole && answer.is_ok() == (after == 18)
}

/// The first of the eighteen calls at which a stop was not as it must be; behind the last one nothing stops.
fn first_wrong(alloc: Global, choice: u8, in_pieces: bool) -> Option<u32> {
    for after in 0..19u32 {
        if !is_right(alloc, after, choice, in_pieces) {
            return Some(after);
        }
    }
    None
}

#[test]
fn before_or_after_all_or_none_kept(rt: HostRuntime) {
    assert!(rt; first_wrong(rt.alloc(), 0, false) == None);
    assert!(rt; first_wrong(rt.alloc(), 255, false) == None);
}

#[test]
fn before_or_after_half_kept(rt: HostRuntime) {
    assert!(rt; first_wrong(rt.alloc(), 85, false) == None);
    assert!(rt; first_wrong(rt.alloc(), 170, false) == None);
}

#[test]
fn before_or_after_in_pieces(rt: HostRuntime) {
    assert!(rt; first_wrong(rt.alloc(), 0, true) == None);
    assert!(rt; first_wrong(rt.alloc(), 255, true) == None);
}

/// Commits these bytes behind `abc`, after an image that was begun and given up.
fn put_behind(store: &mut Store<SureDisk>, rest: &[u8]) -> Result<(), CommitFault> {
    store.begin();
    store.put(b"given up")?;
    store.begin();
    store.put(b"abc")?;
    store.put(rest)?;
    store.finish()
}

/// The image that then stands on the disk.
fn in_pieces(alloc: Global) -> Option<Bytes> {
    let rest = image_of(alloc, 9000, 7).ok()?;
    let disk = SureDisk::new(alloc).ok()?;
    let mut store = Store::format(alloc, disk, b"one").ok()?;
    put_behind(&mut store, &rest).ok()?;
    let (_, image) = Store::open(alloc, store.into_disk()).ok()?;
    Some(image)
}

/// Its length, and its bytes at three places.
fn joined(alloc: Global) -> Option<(usize, [Option<u8>; 3])> {
    let image = in_pieces(alloc)?;
    let bytes = [image.get(2), image.get(3), image.get(9002)];
    Some((image.len(), bytes))
}

#[test]
fn pieces_are_joined(rt: HostRuntime) {
    let want = (9003, [Some(b'c'), Some(7), Some(7)]);
    assert!(rt; joined(rt.alloc()) == Some(want));
}

/// What a commit of one byte too many answers behind one of as many bytes as a store takes, and how many
/// bytes the disk then opens with.
fn overfilled(alloc: Global) -> Option<(Result<(), CommitFault>, usize)> {
    let (Ok(most), Ok(more)) = (image_of(alloc, MOST, 0), image_of(alloc, MOST + 1, 0)) else {
        return None;
    };
    let disk = SureDisk::new(alloc).ok()?;
    let mut store = Store::format(alloc, disk, b"one").ok()?;
    store.commit(&most).ok()?;
    let answer = store.commit(&more);
    let (_, image) = Store::open(alloc, store.into_disk()).ok()?;
    Some((answer, image.len()))
}

#[test]
fn takes_a_whole_store(rt: HostRuntime) {
    let full = Err(CommitFault::Full(32_768_001));
    assert!(rt; overfilled(rt.alloc()) == Some((full, MOST)));
}

/// The bits of the open gates of a disk of zeros, and of one whose first byte is 1 behind that.
fn gates_of_zeros(alloc: Global) -> Option<(u8, u8)> {
    let disk = MemoryDisk::new(alloc, &[]).ok()?;
    let Err(OpenStoreFault::Damaged(mut disk, shut)) = Store::open(alloc, disk) else {
        return None;
    };
    disk.write_at(0, &[1]).ok()?;
    let Err(OpenStoreFault::Damaged(_, open)) = Store::open(alloc, disk) else {
        return None;
    };
    Some((shut, open))
}

#[test]
fn a_disk_of_zeros_is_damaged(rt: HostRuntime) {
    assert!(rt; gates_of_zeros(rt.alloc()) == Some((0, 1)));
}

/// How many calls failed of a disk that fails while it is formatted, which gives it back.
fn faults_of_formatting(alloc: Global) -> Option<u64> {
    let disk = MemoryDisk::new(alloc, &[3]).ok()?;
    match Store::format(alloc, disk, b"one") {
        Err(FormatFault::Disk(disk)) => Some(disk.faults()),
        _ => None,
    }
}

#[test]
fn a_fault_gives_the_disk_back(rt: HostRuntime) {
    assert!(rt; faults_of_formatting(rt.alloc()) == Some(1));
}
