ghost use Rattle.std.specs.Prelude.{◌≡◌, ◌+◌, ◌≤◌, ℕ, Option, Some, None, length, IsTrue, OnOk, OnSome, is_err};
ghost use Rattle.outside.specs.Causes.{HasCause};
ghost use Rattle.outside.specs.Disk.{Fuse, Shown, IsWhole, Stays, Writes, Syncs, Cycles, disk_len, part};

/// Why a call of a disk did nothing.
#[derive(Clone, Copy, Debug, PartialEq, Eq)]
pub enum DiskFault {
    Failed,
}

/// A disk of [`Disk::len`] bytes. It counts its faults: the count never falls, and stops rising only at
/// its last value. After a fault every call but `power_cycle` fails.
pub trait Disk: Drop {
    /// What contracts see of it.
    ghost shown: { Self → Shown };

    /// That the disk was told to stop and start between two moments. Only `power_cycle` says so, and so a
    /// contract that cites it can't be met without that call.
    ghost cycled: { Shown → Shown → Type 0 };

    /// What holds of each disk at any time.
    ghost whole: { (disk : Self) → IsWhole (shown disk) };

    /// How many calls failed so far.
    fn faults(&self) -> u64
        ensures { result ≡ (shown self.now).faults };

    /// How many bytes the disk has.
    fn len(&self) -> u64
        ensures { result ≡ disk_len };

    /// Reads as many bytes as the slice has, from the offset on.
    fn read_at(&mut self, at: u64, into: &mut [u8]) -> Result<(), DiskFault>
        requires { at + length into.old ≤ disk_len }
        ensures stays { Stays (shown self.old) (shown self.new) }
        ensures cause { HasCause (shown self.old).faults (shown self.new).faults result }
        ensures bytes { IsTrue (shown self.old).tells → OnOk result (into.new ≡ part at (length into.old) (shown self.old).content) }
        ensures content { IsTrue (shown self.old).tells → (shown self.new).content ≡ (shown self.old).content }
        ensures settled { IsTrue (shown self.old).honest → (shown self.new).settled ≡ (shown self.old).settled }
        ensures flag { IsTrue (shown self.old).honest → (shown self.new).failed ≡ is_err result }
        ensures stopped { IsTrue (shown self.old).honest → IsTrue (shown self.old).failed → IsTrue (is_err result) };

    /// Writes the bytes from the offset on. They are settled by the next `sync` that succeeds.
    fn write_at(&mut self, at: u64, from: &[u8]) -> Result<(), DiskFault>
        requires { at + length from.now ≤ disk_len }
        ensures stays { Stays (shown self.old) (shown self.new) }
        ensures cause { HasCause (shown self.old).faults (shown self.new).faults result }
        ensures writes { IsTrue (shown self.old).honest → Writes at from.now result (shown self.old) (shown self.new) }
        ensures flag { IsTrue (shown self.old).honest → (shown self.new).failed ≡ is_err result }
        ensures stopped { IsTrue (shown self.old).honest → IsTrue (shown self.old).failed → IsTrue (is_err result) };

    /// Settles what was written.
    fn sync(&mut self) -> Result<(), DiskFault>
        ensures stays { Stays (shown self.old) (shown self.new) }
        ensures cause { HasCause (shown self.old).faults (shown self.new).faults result }
        ensures syncs { IsTrue (shown self.old).honest → Syncs result (shown self.old) (shown self.new) }
        ensures flag { IsTrue (shown self.old).honest → (shown self.new).failed ≡ is_err result }
        ensures stopped { IsTrue (shown self.old).honest → IsTrue (shown self.old).failed → IsTrue (is_err result) };

    /// Stops the disk and starts it again: what wasn't settled may be gone, or stay.
    fn power_cycle(&mut self) -> Result<(), DiskFault>
        ensures stays { Stays (shown self.old) (shown self.new) }
        ensures cause { HasCause (shown self.old).faults (shown self.new).faults result }
        ensures cycles { IsTrue (shown self.old).honest → Cycles result (shown self.old) (shown self.new) }
        ensures flag { IsTrue (shown self.old).honest → (shown self.new).failed ≡ is_err result }
        ensures cycled { cycled (shown self.old) (shown self.new) };
}

/// A disk that can be told to fail.
pub trait Plant: Disk {
    /// The fuse and the choice, where the disk has one.
    ghost fuse: { Self → Option Fuse };

    /// That the disk was armed so, while it showed this. Only `arm` says so.
    ghost armed: { ℕ → ℕ → Shown → Type 0 };

    /// Lets `after` calls of `write_at` and `sync` pass, and fails the next one. The choice says which of
    /// its unsettled bytes a later `power_cycle` keeps. A disk without a fuse is left as it is.
    fn arm(&mut self, after: u32, choice: u8)
        ensures shown { Self.shown self.new ≡ Self.shown self.old }
        ensures armed { armed after choice (Self.shown self.old) }
        ensures set { OnSome (fuse self.old) (fuse self.new ≡ Some (record { left = Some after; choice = choice })) }
        ensures none { fuse self.old ≡ None → fuse self.new ≡ None };
}
