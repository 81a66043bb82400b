ghost use Rattle.std.specs.Prelude.{true, false, ◌≡◌, ◌++◌, ◌≤◌, List, ℕ, OnOk, IfOk, codes};
ghost use Rattle.std.specs.Io.KnownBytes.{Appends};
ghost use Rattle.std.specs.Fmt.{decimal};
ghost use Rattle.outside.specs.Causes.{Rose};
ghost use Rattle.decode_mode.specs.Lines.{rest_line, place_line};
ghost use Rattle.decode_mode.specs.Saying.{Said};

use fid_space::Bytes;
use outside::{Sink, Status, put_all};
use std::alloc::{AllocError as Memory, Global};

/// What is written of the bytes of an input.
#[derive(Drop)]
pub struct Answer {
    /// The lines.
    pub text: Bytes,
    /// Whether they show a value; else they name a fault.
    pub shown: bool,
}

/// Adds the line that says how many bytes are left behind the value.
pub fn print_rest(rest: usize, out: &mut Bytes) -> Result<(), Memory>
    ensures { OnOk result (out.new ≡ out.old ++ rest_line rest) }
{
    let line = format!(in out.alloc(); "rest {rest}\n")?;
    out.append(line.as_bytes())
}

/// The answer to bytes of which a field can't stand, or that end inside a value.
pub fn refusal(alloc: Global, place: usize, fault: &str) -> Result<Answer, Memory>
    ensures text { IfOk result (λ a. a.text ≡ place_line place fault.now) }
    ensures refused { IfOk result (λ a. a.shown ≡ false) }
{
    let line = format!(in alloc; "place {place}: {fault}\n")?;
    let mut text = Bytes::new(alloc);
    text.append(line.as_bytes())?;
    Ok(Answer { text, shown: false })
}

/// Writes the answer.
pub fn say<O: Sink>(answer: Result<Answer, Memory>, output: &mut O) -> Status
    ensures said { (more : List ℕ) × Appends (O.written output.old) (O.written output.new) more × Said answer result more }
    ensures sink { result ≡ Status.Sink → Rose (O.sink_faults output.old) (O.sink_faults output.new) }
{
    match answer {
        Err(_) => Status::Memory,
        Ok(answer) => match put_all(output, answer.text.bytes()) {
            Err(_) => Status::Sink,
            Ok(()) => {
                if answer.shown {
                    Status::Done
                } else {
                    Status::Refused
                }
            }
        },
    }
}
