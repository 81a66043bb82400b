// Which calls of a disk in memory fail, and what they count.
ghost use Rattle.std.specs.Prelude.{◌≡◌, IsTrue, is_err, true, false, min, ◌+◌, ◌-◌, ◌^◌, None};
ghost use Rattle.outside.specs.Causes.{HasCause};
ghost use Rattle.outside.specs.Tally.{account_of, strikes, is_listed, burns, called, faulty, burnt, refusing, restarted};

use crate::DiskFault;

/// What a disk in memory keeps of its calls.
#[derive(Drop)]
pub struct Tally {
    pub failing: Vec<u64>,
    pub calls: u64,
    pub failed: bool,
    pub faults: u64,
    pub refused: u64,
    pub left: Option<u32>,
    pub choice: u8,
}

impl Tally {
    /// Before the first call, with no fuse.
    pub fn new(failing: Vec<u64>) -> Tally
        ensures { account_of result ≡ record { failing = failing.items; calls = 0; failed = false; faults = 0; refused = 0; left = None; choice = 0 } }
    {
        Tally {
            failing,
            calls: 0,
            failed: false,
            faults: 0,
            refused: 0,
            left: None,
            choice: 0,
        }
    }

    /// A read.
    pub fn call(&mut self) -> Result<(), DiskFault>
        ensures exact { is_err result ≡ strikes (account_of self.old) }
        ensures counted { account_of self.new ≡ called (is_err result) (account_of self.old) }
        ensures cause { HasCause self.old.faults self.new.faults result }
        ensures flag { self.new.failed ≡ is_err result }
        ensures stopped { IsTrue self.old.failed → IsTrue (is_err result) }
    {
        self.calls = self.calls.saturating_add(1);
        if self.failed || self.failing.contains(&self.calls) {
            return self.fail();
        }
        Ok(())
    }

    // The call fails.
    fn fail(&mut self) -> Result<(), DiskFault>
        ensures failed { is_err result ≡ true }
        ensures counted { account_of self.new ≡ faulty (account_of self.old) }
        ensures cause { HasCause self.old.faults self.new.faults result }
    {
        self.failed = true;
        self.faults = self.faults.saturating_add(1);
        Err(DiskFault::Failed)
    }

    /// A write or a sync, which the fuse counts.
    pub fn burn(&mut self) -> Result<(), DiskFault>
        ensures exact { is_err result ≡ burns (account_of self.old) }
        ensures counted { account_of self.new ≡ burnt (called (is_err result) (account_of self.old)) }
        ensures cause { HasCause self.old.faults self.new.faults result }
        ensures flag { self.new.failed ≡ is_err result }
        ensures stopped { IsTrue self.old.failed → IsTrue (is_err result) }
    {
        match self.left {
            Some(0) => {
                self.calls = self.calls.saturating_add(1);
                self.fail()
            }
            Some(left) => {
                self.left = Some(left - 1);
                self.call()
            }
            None => self.call(),
        }
    }

    /// A write whose growth was refused.
    pub fn refuse(&mut self) -> Result<(), DiskFault>
        ensures failed { is_err result ≡ true }
        ensures counted { account_of self.new ≡ refusing (burnt (called true (account_of self.old))) }
        ensures cause { HasCause self.old.faults self.new.faults result }
    {
        self.calls = self.calls.saturating_add(1);
        self.refused = self.refused.saturating_add(1);
        self.left = self.left.map(|left| left.saturating_sub(1));
        self.fail()
    }

    /// A power cycle, which fails by its number alone.
    pub fn cycle(&mut self) -> Result<(), DiskFault>
        ensures exact { is_err result ≡ is_listed (account_of self.old) }
        ensures counted { account_of self.new ≡ called (is_err result) (restarted (account_of self.old)) }
        ensures cause { HasCause self.old.faults self.new.faults result }
        ensures flag { self.new.failed ≡ is_err result }
    {
        self.failed = false;
        self.left = None;
        self.call()
    }
}
