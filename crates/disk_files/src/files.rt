ghost use Rattle.std.specs.Prelude.{◌≡◌, vec_len, IfOk};

use outside::FileDisk;
use std::fs::{self, File};
use std::io::{self, ErrorKind};
use std::rt::Files;

/// How many bytes the file of a disk has.
const DISK_LEN: u64 = 67_108_864;

/// Opens the sixteen disks `disk0` to `disk15` of a folder that is there. A file that is missing is made, with
/// 67,108,864 zeros; one that is there keeps its bytes. Where a file can't be opened or made, the files that were
/// made before it stay.
pub fn open_disks(rt: &HostRuntime, folder: &str) -> io::Result<Vec<FileDisk>>
    ensures { IfOk result (λ disks. vec_len disks ≡ 16) }
{
    let mut disks = Vec::new(rt.alloc());
    for index in 0..16u8 {
        let path = format!(in rt.alloc(); "{folder}/disk{index}")?;
        disks.push(FileDisk::new(open_file(rt, path.as_str())?))?;
    }
    Ok(disks)
}

fn open_file(rt: &HostRuntime, path: &str) -> io::Result<File> {
    let mut options = File::options();
    options.read(true).write(true);
    match options.open(rt, path) {
        Err(error) if error.kind() == ErrorKind::NotFound => make_file(rt, path),
        outcome => outcome,
    }
}

/// Makes the file of a disk. One that can't have its length goes again.
fn make_file(rt: &HostRuntime, path: &str) -> io::Result<File> {
    let mut options = File::options();
    options.read(true).write(true).create_new(true);
    let file = options.open(rt, path)?;
    match file.set_len(DISK_LEN) {
        Ok(()) => Ok(file),
        Err(error) => {
            let _ = fs::remove_file(rt, path);
            Err(error)
        }
    }
}
