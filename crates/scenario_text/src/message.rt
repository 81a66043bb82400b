//! Messages as a transcript shows them.
ghost use Rattle.std.specs.Prelude.{◌≡◌, ◌++◌, string_bytes, IfOk, OnOk, OnErr};
ghost use Rattle.scenario_text.specs.LineText.{kind_word, message_text, sender_word};

use fid_space::Bytes;
use std::alloc::{AllocError as Memory, Global};

/// What a message is, as a transcript names it.
#[derive(Clone, Copy, Debug, PartialEq, Eq)]
pub enum Kind {
    /// A client asks for an operation.
    Request,
    /// Asks a target to be held.
    Hold,
    /// It is held.
    Held,
    /// It is held by another request.
    HoldBusy,
    /// Asks a target to commit what a request wrote there.
    Sync,
    /// It is committed.
    Synced,
    /// The operation was accepted.
    Execute,
    /// The target has done its part.
    Executed,
    /// The target is not held any more.
    Release,
    /// It has let go.
    Released,
    /// Says up to which batch a master's records are committed at the sender.
    Stable,
    /// Says up to which batch they are committed everywhere.
    Cancel,
}

/// Who sent a message.
#[derive(Clone, Copy, Debug, PartialEq, Eq)]
pub enum Sender {
    /// A target.
    Target(u8),
    /// A client.
    Client(u8),
}

/// Adds the text of a `msg` line: a message's number and kind, its request's number, or 0, its sender and
/// the target that it goes to. Want of memory adds nothing.
pub fn print_message(
    number: u32,
    kind: Kind,
    request: u32,
    from: Sender,
    to: u8,
    out: &mut Bytes,
) -> Result<(), Memory>
    ensures ok { OnOk result (out.new ≡ out.old ++ message_text number kind request from to) }
    ensures err { OnErr result (out.new ≡ out.old) }
{
    let word = word_of(kind);
    let sender = sender_text(out.alloc(), from)?;
    let line = format!(in out.alloc(); "msg {number} {word} {request} {sender} {to}\n")?;
    out.append(line.as_bytes())
}

/// A target's number, or a client's with `c` before it.
fn sender_text(alloc: Global, sender: Sender) -> Result<String, Memory>
    ensures { IfOk result (λ s. string_bytes s ≡ sender_word sender) }
{
    match sender {
        Sender::Target(target) => format!(in alloc; "{target}"),
        Sender::Client(client) => format!(in alloc; "c{client}"),
    }
}

fn word_of(kind: Kind) -> &'static str
    ensures { result.now ≡ kind_word kind }
{
    match kind {
        Kind::Request => "request",
        Kind::Hold => "hold",
        Kind::Held => "held",
        Kind::HoldBusy => "holdbusy",
        Kind::Sync => "sync",
        Kind::Synced => "synced",
        Kind::Execute => "execute",
        Kind::Executed => "executed",
        Kind::Release => "release",
        Kind::Released => "released",
        Kind::Stable => "stable",
        Kind::Cancel => "cancel",
    }
}
