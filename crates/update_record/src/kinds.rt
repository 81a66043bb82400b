ghost use Rattle.std.specs.Prelude.{◌≡◌};
ghost use Rattle.update_record.specs.Messages.{code_of, kind_at, has_epoch, has_number, has_attempt, has_ask, has_value, has_body, is_sender};

use crate::message::MessageKind;

/// The kind with a number.
#[tactic(auto, unfolding(crate::specs::Messages::kind_at))]
pub fn kind_of(number: u32) -> Option<MessageKind>
    ensures { result ≡ kind_at number }
{
    match number {
        1 => Some(MessageKind::Request),
        2 => Some(MessageKind::Hold),
        3 => Some(MessageKind::Held),
        4 => Some(MessageKind::HoldBusy),
        5 => Some(MessageKind::Sync),
        6 => Some(MessageKind::Synced),
        7 => Some(MessageKind::Execute),
        8 => Some(MessageKind::Executed),
        9 => Some(MessageKind::Release),
        10 => Some(MessageKind::Released),
        11 => Some(MessageKind::Stable),
        12 => Some(MessageKind::Cancel),
        _ => None,
    }
}

/// The number of a kind.
pub fn number_of_kind(kind: MessageKind) -> u32
    ensures { result ≡ code_of kind }
{
    match kind {
        MessageKind::Request => 1,
        MessageKind::Hold => 2,
        MessageKind::Held => 3,
        MessageKind::HoldBusy => 4,
        MessageKind::Sync => 5,
        MessageKind::Synced => 6,
        MessageKind::Execute => 7,
        MessageKind::Executed => 8,
        MessageKind::Release => 9,
        MessageKind::Released => 10,
        MessageKind::Stable => 11,
        MessageKind::Cancel => 12,
    }
}

/// Whether a message of this kind is sent in an epoch.
pub fn is_in_epoch(kind: MessageKind) -> bool
    ensures { result ≡ has_epoch kind }
{
    match kind {
        MessageKind::Request => false,
        _ => true,
    }
}

/// Whether it is of a request.
pub fn is_numbered(kind: MessageKind) -> bool
    ensures { result ≡ has_number kind }
{
    match kind {
        MessageKind::Stable | MessageKind::Cancel => false,
        _ => true,
    }
}

/// Whether it is of an attempt.
pub fn is_of_attempt(kind: MessageKind) -> bool
    ensures { result ≡ has_attempt kind }
{
    match kind {
        MessageKind::Request | MessageKind::Stable | MessageKind::Cancel => false,
        _ => true,
    }
}

/// Whether it asks or answers an ask.
pub fn is_of_ask(kind: MessageKind) -> bool
    ensures { result ≡ has_ask kind }
{
    match kind {
        MessageKind::Hold
        | MessageKind::Held
        | MessageKind::HoldBusy
        | MessageKind::Sync
        | MessageKind::Synced => true,
        _ => false,
    }
}

/// Whether it has a value.
pub fn carries_value(kind: MessageKind) -> bool
    ensures { result ≡ has_value kind }
{
    match kind {
        MessageKind::HoldBusy | MessageKind::Sync | MessageKind::Stable | MessageKind::Cancel => {
            true
        }
        _ => false,
    }
}

/// Whether it has a body.
pub fn carries_body(kind: MessageKind) -> bool
    ensures { result ≡ has_body kind }
{
    match kind {
        MessageKind::Request | MessageKind::Hold | MessageKind::Held | MessageKind::Execute => true,
        _ => false,
    }
}

/// Whether this is a target, or 256 more than a client.
pub fn sends(from: u32) -> bool
    ensures { result ≡ is_sender from }
{
    from <= 15 || (256 <= from && from <= 319)
}
