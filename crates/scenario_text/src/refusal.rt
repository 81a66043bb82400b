//! Which lines are skipped, and what is written of a refused one.
ghost use Rattle.std.specs.Prelude.{◌≡◌, ◌++◌, ◌↔◌, IsTrue, OnOk, OnErr};
ghost use Rattle.scenario_text.specs.Spelling.{IsSkipped};
ghost use Rattle.scenario_text.specs.Refusals.{no_end, refusal};

use fid_space::Bytes;
use std::alloc::AllocError as Memory;

/// Whether a line is empty, or a comment.
pub fn is_skipped(line: &[u8]) -> bool
    ensures { IsTrue result ↔ IsSkipped line.now }
{
    match line {
        [] => true,
        [first, ..] => *first == b'#',
    }
}

/// Adds the refusal of a line. Lines are counted from 1. Want of memory adds nothing.
pub fn print_refusal(line: u64, out: &mut Bytes) -> Result<(), Memory>
    ensures ok { OnOk result (out.new ≡ out.old ++ refusal line) }
    ensures err { OnErr result (out.new ≡ out.old) }
{
    let text = format!(in out.alloc(); "line {line}: NotYet\n")?;
    out.append(text.as_bytes())
}

/// Adds the line for a scenario that lacks its `end`, with the number after its last line. Want of
/// memory adds nothing.
pub fn print_no_end(line: u64, out: &mut Bytes) -> Result<(), Memory>
    ensures ok { OnOk result (out.new ≡ out.old ++ no_end line) }
    ensures err { OnErr result (out.new ≡ out.old) }
{
    let text = format!(in out.alloc(); "line {line}: NoEnd\n")?;
    out.append(text.as_bytes())
}
