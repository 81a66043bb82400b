//! Calls of a disk in a row.
ghost use Rattle.std.specs.Prelude.{◌≡◌, ◌+◌, ◌≤◌, ◌∷◌, [], length, IsTrue, OnErr, is_err, false, true};
ghost use Rattle.outside.specs.Causes.{HasCause};
ghost use Rattle.outside.specs.Disk.{Stays, disk_len};
ghost use Rattle.target_disk.specs.Calls.{Puts, Homes};
ghost use Rattle.target_disk.specs.Reads.{Keeps};
ghost use Rattle.target_disk.specs.Tables.{table_len};

use crate::places::{GATE, HOME};
use outside::{Disk, DiskFault};

/// Puts bytes at a place and settles them.
pub fn put_settled<D: Disk>(disk: &mut D, at: u64, bytes: &[u8]) -> Result<(), DiskFault>
    requires { at + length bytes.now ≤ disk_len }
    ensures stays { Stays (D.shown disk.old) (D.shown disk.new) }
    ensures cause { HasCause (D.shown disk.old).faults (D.shown disk.new).faults result }
    ensures puts { IsTrue (D.shown disk.old).honest → Puts at bytes.now result (D.shown disk.old) (D.shown disk.new) }
    ensures flag { IsTrue (D.shown disk.old).honest → (D.shown disk.new).failed ≡ is_err result }
    ensures stopped { IsTrue (D.shown disk.old).honest → IsTrue (D.shown disk.old).failed → IsTrue (is_err result) }
{
    disk.write_at(at, bytes)?;
    disk.sync()
}

/// Asks a disk of which a call failed whether it works again, by a sync: nothing changes where that fails.
pub fn ask<D: Disk>(disk: &mut D, failed: bool) -> Result<(), DiskFault>
    ensures stays { Stays (D.shown disk.old) (D.shown disk.new) }
    ensures cause { HasCause (D.shown disk.old).faults (D.shown disk.new).faults result }
    ensures works { failed ≡ false → (disk.new ≡ disk.old) × (is_err result ≡ false) }
    ensures held { IsTrue (D.shown disk.old).honest → IsTrue (D.shown disk.old).failed → Keeps (D.shown disk.old) (D.shown disk.new) }
    ensures fails { IsTrue (D.shown disk.old).honest → IsTrue (D.shown disk.old).failed → IsTrue failed → IsTrue (is_err result) }
    ensures flag { IsTrue (D.shown disk.old).honest → OnErr result ((D.shown disk.new).failed ≡ true) }
{
    if !failed {
        return Ok(());
    }
    disk.sync()
}

/// Puts the bytes of the journal table over the home table, and shuts the gate.
pub fn settle_home<D: Disk>(disk: &mut D, table: &[u8]) -> Result<(), DiskFault>
    requires { length table.now ≡ table_len }
    ensures stays { Stays (D.shown disk.old) (D.shown disk.new) }
    ensures cause { HasCause (D.shown disk.old).faults (D.shown disk.new).faults result }
    ensures homes { IsTrue (D.shown disk.old).honest → Homes table.now result (D.shown disk.old) (D.shown disk.new) }
    ensures flag { IsTrue (D.shown disk.old).honest → (D.shown disk.new).failed ≡ is_err result }
    ensures stopped { IsTrue (D.shown disk.old).honest → IsTrue (D.shown disk.old).failed → IsTrue (is_err result) }
{
    put_settled(disk, HOME, table)?;
    put_settled(disk, GATE, &[0])
}
