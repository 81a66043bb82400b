//! Records of an update log as a transcript shows them.
ghost use Rattle.std.specs.Prelude.{◌≡◌, ◌++◌, OnOk, OnErr};
ghost use Rattle.scenario_text.specs.LineText.{logged_text};

use crate::list::print_targets;
use fid_space::{Bytes, Targets};
use std::alloc::AllocError as Memory;

/// A live record of an update log.
#[derive(Clone, Copy, Debug, PartialEq, Eq)]
pub struct Logged {
    /// Its index in the log.
    pub index: u32,
    /// The epoch in which it was accepted.
    pub epoch: u32,
    /// The target that accepted it.
    pub master: u8,
    /// Its batch there, counted from 1 in each epoch.
    pub batch: u64,
    /// The number of its request.
    pub number: u32,
    /// The targets that it is on.
    pub on: Targets,
}

/// Adds the text of an `index` line. Want of memory adds nothing.
pub fn print_logged(entry: &Logged, out: &mut Bytes) -> Result<(), Memory>
    ensures ok { OnOk result (out.new ≡ out.old ++ logged_text entry.now) }
    ensures err { OnErr result (out.new ≡ out.old) }
{
    let Logged {
        index,
        epoch,
        master,
        batch,
        number,
        on,
    } = *entry;
    let head = format!(in out.alloc();
        "index {index} id {epoch}.{master}.{batch} number {number} on "
    )?;
    let mut line = Bytes::new(out.alloc());
    line.append(head.as_bytes())?;
    print_targets(on, &mut line)?;
    line.push(b'\n')?;
    out.append(line.bytes())
}
