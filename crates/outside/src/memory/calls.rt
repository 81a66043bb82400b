// The calls of a disk in memory.
ghost use Rattle.std.specs.Prelude.{◌≡◌, ◌⊎◌, ◌+◌, ◌≤◌, [], ℕ, length, None, Some, IfOk, OnOk, OnSome, IsTrue, MatchResult, is_err, false};
ghost use Rattle.outside.specs.Disk.{disk_len, part, Fuse, IsNew, Stays, Syncs, Writes, Cycles};
ghost use Rattle.outside.specs.Causes.{HasCause};
ghost use Rattle.outside.specs.Tally.{strikes, is_listed, burns, called, burnt, restarted, armed};
ghost use Rattle.outside.specs.Memory.{account, fuse_of, seen, under, has_page, Chooses, IsPut, IsRefused, IsStopped, SameBytes, SamePages};

use crate::fill::{cycle_pages, make_range, no_pages, put_range, read_range, settle_pages};
use crate::tally::Tally;
use crate::{Disk, DiskFault, MemoryDisk, Plant};
use std::alloc::{AllocError as Memory, Global};

const PAGES: usize = 1024;

const DISK_LEN: u64 = 67_108_864;

impl MemoryDisk {
    /// A disk of zeros, with no fuse and the choice 0.
    pub fn new(alloc: Global, failing: &[u64]) -> Result<MemoryDisk, Memory>
        ensures new { IfOk result (λ d. IsNew (seen d)) }
        ensures under { IfOk result (λ d. under d ≡ (seen d).content) }
        ensures account { IfOk result (λ d. account d ≡ record { failing = failing.now; calls = 0; failed = false; faults = 0; refused = 0; left = None; choice = 0 }) }
        ensures pages { IfOk result (λ d. (k : ℕ) → has_page d k ≡ false) }
    {
        Ok(MemoryDisk {
            alloc,
            pages: no_pages(alloc, PAGES)?,
            tally: Tally::new(Vec::from_slice(alloc, failing)?),
        })
    }

    /// How many writes failed since there was no memory for a page. They are counted in the faults too.
    pub fn refused(&self) -> u64
        ensures { result ≡ (account self.now).refused }
    {
        self.tally.refused
    }
}

impl Disk for MemoryDisk {
    ghost shown = { λ d. seen d };

    ghost cycled = { λ old new. Unit {0} };

    ghost whole = { λ d. record {
      tells = λ h. h;
      size = λ h. d.fits.size;
      image = λ h. d.fits.image;
    } };

    fn faults(&self) -> u64 {
        self.tally.faults
    }

    fn len(&self) -> u64 {
        DISK_LEN
    }

    fn read_at(&mut self, at: u64, into: &mut [u8]) -> Result<(), DiskFault>
        requires { at + length into.old ≤ disk_len }
        ensures stays { Stays (seen self.old) (seen self.new) }
        ensures cause { HasCause (seen self.old).faults (seen self.new).faults result }
        ensures bytes { IsTrue (seen self.old).tells → OnOk result (into.new ≡ part at (length into.old) (seen self.old).content) }
        ensures content { IsTrue (seen self.old).tells → (seen self.new).content ≡ (seen self.old).content }
        ensures settled { IsTrue (seen self.old).honest → (seen self.new).settled ≡ (seen self.old).settled }
        ensures flag { IsTrue (seen self.old).honest → (seen self.new).failed ≡ is_err result }
        ensures stopped { IsTrue (seen self.old).honest → IsTrue (seen self.old).failed → IsTrue (is_err result) }
        // It fails exactly after a fault and at the listed calls, and no byte changes.
        ensures exact { is_err result ≡ strikes (account self.old) }
        ensures counted { account self.new ≡ called (is_err result) (account self.old) }
        ensures same { SameBytes self.old self.new }
    {
        self.tally.call()?;
        read_range(&self.pages, at as usize, into);
        Ok(())
    }

    fn write_at(&mut self, at: u64, from: &[u8]) -> Result<(), DiskFault>
        requires { at + length from.now ≤ disk_len }
        ensures stays { Stays (seen self.old) (seen self.new) }
        ensures cause { HasCause (seen self.old).faults (seen self.new).faults result }
        ensures writes { IsTrue (seen self.old).honest → Writes at from.now result (seen self.old) (seen self.new) }
        ensures flag { IsTrue (seen self.old).honest → (seen self.new).failed ≡ is_err result }
        ensures stopped { IsTrue (seen self.old).honest → IsTrue (seen self.old).failed → IsTrue (is_err result) }
        // A fault stood, or a growth was refused, or the bytes are put, and it fails exactly by its number or the fuse.
        ensures ends { IsStopped result self.old self.new ⊎ (IsRefused at (length from.now) result self.old self.new ⊎ IsPut at from.now result self.old self.new) }
    {
        if self.tally.failed {
            return self.tally.burn();
        }
        if make_range(self.alloc, &mut self.pages, at as usize, from.len()).is_err() {
            return self.tally.refuse();
        }
        put_range(&mut self.pages, at as usize, from);
        self.tally.burn()
    }

    fn sync(&mut self) -> Result<(), DiskFault>
        ensures stays { Stays (seen self.old) (seen self.new) }
        ensures cause { HasCause (seen self.old).faults (seen self.new).faults result }
        ensures syncs { IsTrue (seen self.old).honest → Syncs result (seen self.old) (seen self.new) }
        ensures flag { IsTrue (seen self.old).honest → (seen self.new).failed ≡ is_err result }
        ensures stopped { IsTrue (seen self.old).honest → IsTrue (seen self.old).failed → IsTrue (is_err result) }
        // It fails exactly after a fault, at the listed calls, and where the fuse has run down.
        ensures exact { is_err result ≡ burns (account self.old) }
        ensures counted { account self.new ≡ burnt (called (is_err result) (account self.old)) }
        ensures under { MatchResult result (λ _. under self.new ≡ (seen self.new).content) (λ _. under self.new ≡ under self.old) }
        ensures pages { SamePages self.old self.new }
    {
        self.tally.burn()?;
        settle_pages(&mut self.pages);
        Ok(())
    }

    fn power_cycle(&mut self) -> Result<(), DiskFault>
        ensures stays { Stays (seen self.old) (seen self.new) }
        ensures cause { HasCause (seen self.old).faults (seen self.new).faults result }
        ensures cycles { IsTrue (seen self.old).honest → Cycles result (seen self.old) (seen self.new) }
        ensures flag { IsTrue (seen self.old).honest → (seen self.new).failed ≡ is_err result }
        // It fails exactly at the listed calls. It disarms, and the choice says what stays of the dirty bytes.
        ensures exact { is_err result ≡ is_listed (account self.old) }
        ensures counted { account self.new ≡ called (is_err result) (restarted (account self.old)) }
        ensures chosen { OnOk result (Chooses self.old self.new) }
        ensures under { MatchResult result (λ _. under self.new ≡ (seen self.new).content) (λ _. under self.new ≡ under self.old) }
        ensures pages { SamePages self.old self.new }
    {
        self.tally.cycle()?;
        cycle_pages(&mut self.pages, self.tally.choice);
        Ok(())
    }
}

impl Plant for MemoryDisk {
    ghost fuse = { λ d. fuse_of d };

    ghost armed = { λ after choice disk. Unit {0} };

    fn arm(&mut self, after: u32, choice: u8)
        ensures shown { seen self.new ≡ seen self.old }
        ensures set { OnSome (fuse_of self.old) (fuse_of self.new ≡ Some (record { left = Some after; choice = choice })) }
        ensures none { fuse_of self.old ≡ None → fuse_of self.new ≡ None }
        ensures counted { account self.new ≡ armed after choice (account self.old) }
        ensures same { SameBytes self.old self.new }
    {
        self.tally.left = Some(after);
        self.tally.choice = choice;
    }
}
