use disk_files::open_disks;
use outside::Disk;
use std::test::Fail;
use std::{env, fs, io, process};

/// Where the last three bytes of a disk stand.
const LAST: u64 = 67_108_861;

/// Settles three bytes at the end of the first disk of a folder.
fn put_last(rt: &HostRuntime, folder: &str) -> io::Result<bool> {
    let mut disks = open_disks(rt, folder)?;
    let is_put = disks[0].write_at(LAST, b"abc").is_ok();
    Ok(is_put && disks[0].sync().is_ok())
}

/// Whether those bytes stand there for who opens the folder again.
fn has_last(rt: &HostRuntime, folder: &str) -> io::Result<bool> {
    let mut disks = open_disks(rt, folder)?;
    let mut into = [0u8; 3];
    let is_read = disks[0].read_at(LAST, &mut into).is_ok();
    Ok(is_read && into == *b"abc")
}

/// The files of a folder have their length, and are read back.
#[test]
fn files_are_read_back(rt: HostRuntime) -> Result<(), Fail> {
    let folder = format!(in rt.alloc(); "disk-files-{}", process::id(rt.process()))?;
    let path = env::temp_dir(&rt)?.join(rt.alloc(), folder.as_str())?;
    fs::create_dir(&rt, path.as_path())?;
    let name = path.to_str().ok_or("a folder's name")?;
    assert!(rt; put_last(&rt, name)? && has_last(&rt, name)?);
    let last = format!(in rt.alloc(); "{name}/disk15")?;
    assert!(rt; fs::metadata(&rt, last.as_str())?.len() == 67_108_864);
    fs::remove_dir_all(&rt, path.as_path())?;
    Ok(())
}
