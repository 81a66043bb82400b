//! What messages are and who sends them, in the words of a transcript.

ghost use Rattle.std.specs.Prelude.{◌≡◌, ◌≤◌, ◌<◌};
ghost use Rattle.target_turns.specs.Showing.{kind_of, sender_of, line_of};

use scenario_text::{Kind, Line, Sender};
use update_record::{Message, MessageKind};

/// What a message is, in a transcript.
fn kind_of(kind: MessageKind) -> Kind
    ensures { result ≡ kind_of kind }
{
    match kind {
        MessageKind::Request => Kind::Request,
        MessageKind::Hold => Kind::Hold,
        MessageKind::Held => Kind::Held,
        MessageKind::HoldBusy => Kind::HoldBusy,
        MessageKind::Sync => Kind::Sync,
        MessageKind::Synced => Kind::Synced,
        MessageKind::Execute => Kind::Execute,
        MessageKind::Executed => Kind::Executed,
        MessageKind::Release => Kind::Release,
        MessageKind::Released => Kind::Released,
        MessageKind::Stable => Kind::Stable,
        MessageKind::Cancel => Kind::Cancel,
    }
}

/// Who sent it: clients are numbered from 256 on.
fn sender_of(from: u32) -> Sender
    requires { from < 512 }
    ensures { result ≡ sender_of from }
{
    if from < 256 {
        Sender::Target(from as u8)
    } else {
        Sender::Client((from - 256) as u8)
    }
}

/// The line that shows a message with its number.
pub fn message_line(k: u32, message: &Message) -> Line
    requires from { message.now.from < 512 }
    requires to { message.now.to ≤ 15 }
    ensures { result ≡ line_of k message.now }
{
    Line::Message {
        number: k,
        kind: kind_of(message.kind),
        request: message.number,
        from: sender_of(message.from),
        to: message.to as u8,
    }
}
