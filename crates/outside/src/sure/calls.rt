// The calls of a disk in memory that never fails.
ghost use Rattle.std.specs.Prelude.{◌≡◌, ◌+◌, ◌≤◌, ℕ, length, IfOk, IsOk, IsTrue, OnOk, OnSome, Option, Some, None, is_err, slice_index};
ghost use Rattle.outside.specs.Causes.{HasCause};
ghost use Rattle.outside.specs.Disk.{disk_len, part, put, Fuse, IsNew, Stays, Syncs, Writes, Cycles};
ghost use Rattle.outside.specs.Sure.{seen};

use crate::bytes::{overwrite, zeros};
use crate::{Disk, DiskFault, Plant, SureDisk};
use std::alloc::{AllocError as Memory, Global};

const DISK_LEN: usize = 67_108_864;

impl SureDisk {
    /// A disk of zeros.
    pub fn new(alloc: Global) -> Result<SureDisk, Memory>
        ensures { IfOk result (λ d. IsNew (seen d)) }
    {
        Ok(SureDisk {
            content: zeros(alloc, DISK_LEN)?,
        })
    }
}

impl Disk for SureDisk {
    ghost shown = { λ d. seen d };

    ghost cycled = { λ old new. Unit {0} };

    ghost whole = { λ d. record {
      tells = λ h. h;
      size = λ h. d.fits.size;
      image = λ h. d.fits.image;
    } };

    fn faults(&self) -> u64 {
        0
    }

    fn len(&self) -> u64 {
        DISK_LEN as u64
    }

    fn read_at(&mut self, at: u64, into: &mut [u8]) -> Result<(), DiskFault>
        requires { at + length into.old ≤ disk_len }
        ensures stays { Stays (seen self.old) (seen self.new) }
        ensures cause { HasCause (seen self.old).faults (seen self.new).faults result }
        ensures bytes { IsTrue (seen self.old).tells → OnOk result (into.new ≡ part at (length into.old) (seen self.old).content) }
        ensures content { IsTrue (seen self.old).tells → (seen self.new).content ≡ (seen self.old).content }
        ensures settled { IsTrue (seen self.old).honest → (seen self.new).settled ≡ (seen self.old).settled }
        ensures flag { IsTrue (seen self.old).honest → (seen self.new).failed ≡ is_err result }
        ensures stopped { IsTrue (seen self.old).honest → IsTrue (seen self.old).failed → IsTrue (is_err result) }
        ensures sure { IsOk result }
    {
        let start = at as usize;
        into.copy_from_slice(&self.content[start..start + into.len()]);
        Ok(())
    }

    fn write_at(&mut self, at: u64, from: &[u8]) -> Result<(), DiskFault>
        requires { at + length from.now ≤ disk_len }
        ensures stays { Stays (seen self.old) (seen self.new) }
        ensures cause { HasCause (seen self.old).faults (seen self.new).faults result }
        ensures writes { IsTrue (seen self.old).honest → Writes at from.now result (seen self.old) (seen self.new) }
        ensures flag { IsTrue (seen self.old).honest → (seen self.new).failed ≡ is_err result }
        ensures stopped { IsTrue (seen self.old).honest → IsTrue (seen self.old).failed → IsTrue (is_err result) }
        ensures sure { IsOk result }
    {
        overwrite(&mut self.content, at as usize, from);
        Ok(())
    }

    fn sync(&mut self) -> Result<(), DiskFault>
        ensures stays { Stays (seen self.old) (seen self.new) }
        ensures cause { HasCause (seen self.old).faults (seen self.new).faults result }
        ensures syncs { IsTrue (seen self.old).honest → Syncs result (seen self.old) (seen self.new) }
        ensures flag { IsTrue (seen self.old).honest → (seen self.new).failed ≡ is_err result }
        ensures stopped { IsTrue (seen self.old).honest → IsTrue (seen self.old).failed → IsTrue (is_err result) }
        ensures sure { IsOk result }
    {
        Ok(())
    }

    fn power_cycle(&mut self) -> Result<(), DiskFault>
        ensures stays { Stays (seen self.old) (seen self.new) }
        ensures cause { HasCause (seen self.old).faults (seen self.new).faults result }
        ensures cycles { IsTrue (seen self.old).honest → Cycles result (seen self.old) (seen self.new) }
        ensures flag { IsTrue (seen self.old).honest → (seen self.new).failed ≡ is_err result }
        ensures sure { IsOk result }
        ensures same { (seen self.new).content ≡ (seen self.old).content }
    {
        Ok(())
    }
}

impl Plant for SureDisk {
    ghost fuse = { λ d. None };

    ghost armed = { λ after choice disk. Unit {0} };

    fn arm(&mut self, _after: u32, _choice: u8) {}
}
