// A disk over a file.
ghost use Rattle.std.specs.Prelude.{◌≡◌, false, [], None, is_err};
ghost use Rattle.outside.specs.Causes.{HasCause, CountsFailure};
ghost use Rattle.outside.specs.Never.{never_true};

use crate::{Disk, DiskFault, Plant};
use std::fs::File;
use std::io;
use std::os::unix::fs::FileExt;

const DISK_LEN: u64 = 67_108_864;

/// A disk over the first 67,108,864 bytes of a file. It tells nothing, it can't be told to fail, and a
/// `power_cycle` does nothing. A `sync` asks the system to put the file's bytes on its medium.
#[derive(Drop)]
pub struct FileDisk {
    file: File,
    faults: u64,
}

impl FileDisk {
    /// The file has to be open for reading and writing, and as long as the disk; a read past its end is a fault.
    pub fn new(file: File) -> FileDisk
        ensures { (⟦<FileDisk as Disk>⟧.shown result).faults ≡ 0 }
    {
        FileDisk { file, faults: 0 }
    }

    // An error of the file is a fault.
    fn counted(&mut self, outcome: io::Result<()>) -> Result<(), DiskFault>
        ensures cause { HasCause self.old.faults self.new.faults result }
        ensures counted { CountsFailure self.old.faults self.new.faults result }
        ensures same { is_err result ≡ is_err outcome }
    {
        match outcome {
            Ok(()) => Ok(()),
            Err(_) => {
                self.faults = self.faults.saturating_add(1);
                Err(DiskFault::Failed)
            }
        }
    }
}

impl Disk for FileDisk {
    ghost shown = { λ d. record {
      tells = false;
      honest = false;
      content = [];
      settled = [];
      failed = false;
      faults = d.faults;
      name = 0;
    } };

    ghost cycled = { λ old new. Unit {0} };

    ghost whole = { λ d. record { tells = λ h. h; size = λ h. absurd (never_true h); image = λ h. absurd (never_true h) } };

    fn faults(&self) -> u64 {
        self.faults
    }

    fn len(&self) -> u64 {
        DISK_LEN
    }

    fn read_at(&mut self, at: u64, into: &mut [u8]) -> Result<(), DiskFault> {
        let outcome = self.file.read_exact_at(into, at);
        self.counted(outcome)
    }

    fn write_at(&mut self, at: u64, from: &[u8]) -> Result<(), DiskFault> {
        let outcome = self.file.write_all_at(from, at);
        self.counted(outcome)
    }

    fn sync(&mut self) -> Result<(), DiskFault> {
        let outcome = self.file.sync_all();
        self.counted(outcome)
    }

    fn power_cycle(&mut self) -> Result<(), DiskFault> {
        Ok(())
    }
}

impl Plant for FileDisk {
    ghost fuse = { λ d. None };

    ghost armed = { λ after choice disk. Unit {0} };

    fn arm(&mut self, _after: u32, _choice: u8) {}
}
