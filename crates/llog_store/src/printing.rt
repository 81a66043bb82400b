//! The text that shows a log, and the text of a fault.

ghost use Rattle.std.specs.Prelude.{◌≡◌, ◌≤◌, ◌<◌, ◌++◌, codes, length, map, OnOk, OnErr, All};
ghost use Rattle.std.specs.List.{flat_map};
ghost use Rattle.llog_store.specs.Kept.{seen, IsWithin};
ghost use Rattle.fid_space.specs.Fronts.{IsFront};
ghost use Rattle.llog_store.specs.DecodedText.{head_line, record_line, entry_line, place_line, fault_text};

use crate::chunks::Chunks;
use crate::fault::LlogFault;
use crate::place::Place;
use crate::walking::has_live;
use fid_space::Bytes;
use std::alloc::AllocError as Memory;

/// The line of a log's numbers.
#[tactic(auto, unfolding(crate::specs::DecodedText::head_line))]
pub fn print_head(next: u32, live: u32, out: &mut Bytes) -> Result<(), Memory>
    ensures ok { OnOk result (out.new ≡ out.old ++ head_line next live) }
    ensures err { OnErr result (out.new ≡ out.old) }
{
    let line = format!(in out.alloc(); "log next {next} live {live}\n")?;
    out.append(line.as_bytes())
}

/// The line of an update record.
#[tactic(auto, unfolding(crate::specs::DecodedText::record_line))]
fn print_entry(index: u32, live: bool, len: usize, out: &mut Bytes) -> Result<(), Memory>
    ensures ok { OnOk result (out.new ≡ out.old ++ record_line index live len) }
    ensures err { OnErr result (out.new ≡ out.old) }
{
    let line = if live {
        format!(in out.alloc(); "index {index} live length {len}\n")?
    } else {
        format!(in out.alloc(); "index {index} cancelled length {len}\n")?
    };
    out.append(line.as_bytes())
}

/// The lines of update records. Want of memory leaves the first lines.
pub fn print_entries(bytes: &Chunks, places: &[Place], out: &mut Bytes) -> Result<(), Memory>
    requires long { 32768 ≤ length bytes.now }
    requires within { All (IsWithin (length bytes.now)) places.now }
    ensures ok { OnOk result (out.new ≡ out.old ++ flat_map entry_line (map (seen bytes.now) places.now)) }
    ensures err { OnErr result (IsFront out.old out.new (flat_map entry_line (map (seen bytes.now) places.now))) }
{
    for place in places {
        print_entry(place.index, has_live(bytes, place.index), place.length, out)?;
    }
    Ok(())
}

impl LlogFault {
    /// Adds the line of the fault at the end, `place P: FAULT`. Want of memory adds nothing. The fault
    /// `Memory` has no line.
    #[tactic(auto, unfolding(crate::specs::DecodedText::fault_text))]
    pub fn print(&self, out: &mut Bytes) -> Result<(), Memory>
        ensures ok { OnOk result (out.new ≡ out.old ++ fault_text self.now) }
        ensures err { OnErr result (out.new ≡ out.old) }
    {
        match self {
            LlogFault::BadLength(place) => print_place(*place, "BadLength", out),
            LlogFault::BadIndex(place) => print_place(*place, "BadIndex", out),
            LlogFault::BadType(place) => print_place(*place, "BadType", out),
            LlogFault::BadTail(place) => print_place(*place, "BadTail", out),
            LlogFault::BadPadding(place) => print_place(*place, "BadPadding", out),
            LlogFault::BadBitmap(place) => print_place(*place, "BadBitmap", out),
            LlogFault::Truncated(place) => print_place(*place, "Truncated", out),
            LlogFault::Memory => Ok(()),
        }
    }
}

/// The line of a fault with this name.
#[tactic(auto, unfolding(crate::specs::DecodedText::place_line))]
fn print_place(place: usize, name: &str, out: &mut Bytes) -> Result<(), Memory>
    ensures ok { OnOk result (out.new ≡ out.old ++ place_line place name.now) }
    ensures err { OnErr result (out.new ≡ out.old) }
{
    let line = format!(in out.alloc(); "place {place}: {name}\n")?;
    out.append(line.as_bytes())
}
