ghost use Rattle.std.specs.Prelude.{◌≤◌, ◌+◌};

use outside::{Disk, DiskFault, FileDisk, MemoryDisk, Plant, SureDisk};
use std::alloc::Global;
use std::fs::{self, File};
use std::test::Fail;
use std::{env, process};

/// A disk with eight bytes at a place that are settled, and written over.
fn written_over(alloc: Global, at: u64) -> Option<MemoryDisk>
    requires { at + 8 ≤ 67108864 }
{
    let mut disk = MemoryDisk::new(alloc, &[]).ok()?;
    disk.write_at(at, b"ABCDEFGH").ok()?;
    disk.sync().ok()?;
    disk.write_at(at, b"abcdefgh").ok()?;
    Some(disk)
}

fn eight_at(disk: &mut MemoryDisk, at: u64) -> Option<[u8; 8]>
    requires { at + 8 ≤ 67108864 }
{
    let mut into = [0u8; 8];
    disk.read_at(at, &mut into).ok()?;
    Some(into)
}

/// How they read, and how behind a stop with a choice.
fn around_a_stop(alloc: Global, at: u64, choice: u8) -> Option<[[u8; 8]; 2]>
    requires { at + 8 ≤ 67108864 }
{
    let mut disk = written_over(alloc, at)?;
    let before = eight_at(&mut disk, at)?;
    disk.arm(9, choice);
    disk.power_cycle().ok()?;
    Some([before, eight_at(&mut disk, at)?])
}

#[test]
fn choice_keeps_dirty_bytes(rt: HostRuntime) {
    // The bit of a byte at offset o is bit `o modulo 8`; the last row goes over the end of a page.
    for (at, choice, want) in [
        (0, 0, b"ABCDEFGH"),
        (0, 85, b"aBcDeFgH"),
        (0, 170, b"AbCdEfGh"),
        (0, 255, b"abcdefgh"),
        (65_533, 1, b"ABCdEFGH"),
    ] {
        let got = around_a_stop(rt.alloc(), at, choice);
        assert!(rt; got == Some([*b"abcdefgh", *want]), "choice {choice}");
    }
}

/// Which of two writes and their syncs pass under a fuse; and behind a stop and a write, how many calls failed
/// and how many were refused.
fn under_fuse(alloc: Global, after: u32) -> Option<([bool; 4], u64, u64)> {
    let mut disk = MemoryDisk::new(alloc, &[]).ok()?;
    disk.arm(after, 0);
    let passed = [
        disk.write_at(0, b"a").is_ok(),
        disk.sync().is_ok(),
        disk.write_at(0, b"b").is_ok(),
        disk.sync().is_ok(),
    ];
    disk.power_cycle().ok()?;
    disk.write_at(0, b"c").ok()?;
    Some((passed, disk.faults(), disk.refused()))
}

#[test]
fn fuse_runs_down(rt: HostRuntime) {
    for (after, want, faults) in [
        (0, [false, false, false, false], 4),
        (1, [true, false, false, false], 3),
        (2, [true, true, false, false], 2),
        (3, [true, true, true, false], 1),
        (4, [true, true, true, true], 0),
    ] {
        let got = under_fuse(rt.alloc(), after);
        assert!(rt; got == Some((want, faults, 0)), "after {after}");
    }
}

/// The length of a disk, its last four bytes while it is unused, and four over the end of its first page behind
/// a write of two.
fn unwritten(alloc: Global) -> Option<(u64, [u8; 4], [u8; 4])> {
    let mut disk = MemoryDisk::new(alloc, &[]).ok()?;
    let mut last = [1u8; 4];
    let mut into = [1u8; 4];
    disk.read_at(67_108_860, &mut last).ok()?;
    disk.write_at(65_535, &[8, 9]).ok()?;
    disk.read_at(65_534, &mut into).ok()?;
    Some((disk.len(), last, into))
}

#[test]
fn unwritten_page_is_zeros(rt: HostRuntime) {
    let want = (67_108_864, [0; 4], [0, 8, 9, 0]);
    assert!(rt; unwritten(rt.alloc()) == Some(want));
}

/// The last three bytes of a disk without a fuse behind a write and a stop, how many calls failed, and the
/// length.
fn kept_for_sure(alloc: Global) -> Option<([u8; 3], u64, u64)> {
    let mut disk = SureDisk::new(alloc).ok()?;
    let mut into = [1u8; 3];
    disk.arm(0, 0);
    disk.write_at(67_108_862, b"ab").ok()?;
    disk.power_cycle().ok()?;
    disk.sync().ok()?;
    disk.read_at(67_108_861, &mut into).ok()?;
    Some((into, disk.faults(), disk.len()))
}

#[test]
fn sure_disk(rt: HostRuntime) {
    assert!(rt; kept_for_sure(rt.alloc()) == Some((*b"\0ab", 0, 67_108_864)));
}

/// The four bytes of a file behind a write and a stop; what reading past its end answers; how many calls failed
/// before that, and then; and the length of the disk.
fn kept_in(file: File) -> Option<([u8; 4], Result<(), DiskFault>, [u64; 3])> {
    let mut disk = FileDisk::new(file);
    let mut into = [1u8; 4];
    disk.arm(0, 0);
    disk.write_at(1, b"ab").ok()?;
    disk.sync().ok()?;
    disk.power_cycle().ok()?;
    disk.read_at(0, &mut into).ok()?;
    let before = disk.faults();
    let mut past = [0u8; 4];
    let answer = disk.read_at(2, &mut past);
    Some((into, answer, [before, disk.faults(), disk.len()]))
}

#[test]
fn file_disk(rt: HostRuntime) -> Result<(), Fail> {
    let name = format!(in rt.alloc(); "outside-test-{}", process::id(rt.process()))?;
    let path = env::temp_dir(&rt)?.join(rt.alloc(), name.as_str())?;
    let file = File::options()
        .read(true)
        .write(true)
        .create(true)
        .open(&rt, path.as_path())?;
    file.set_len(4)?;
    let want = (*b"\0ab\0", Err(DiskFault::Failed), [0, 1, 67_108_864]);
    assert!(rt; kept_in(file) == Some(want));
    fs::remove_file(&rt, path.as_path())?;
    Ok(())
}
