ghost use Rattle.std.specs.Prelude.{◌≡◌, ◌<◌, ◌≤◌, ◌^◌, Bool, Some, length, IfOk, IsTrue, IsErrOf};
ghost use Rattle.byte_grammar.specs.Steps.{width_at, next_at, StepsTo};
ghost use Rattle.byte_grammar.specs.Values.{Gives};
ghost use Rattle.update_record.specs.Messages.{or_zero};
ghost use Rattle.update_record.specs.MessageValues.{head_at};
ghost use Rattle.update_record.specs.MessagePositions.{at_message, is_address};

use crate::kinds::{
    carries_body, carries_value, is_in_epoch, is_numbered, is_of_ask, is_of_attempt, kind_of, sends,
};
use crate::message::MessageKind;
use byte_grammar::{
    BuildFault, Position, Reason, Refusal, number32, number64, part, set_byte, u32_at, u64_at,
    unless,
};
use std::alloc::{AllocError as Memory, Global};

/// What stands in front of a message's body.
#[derive(Clone, Copy, Debug)]
pub struct Head {
    /// What it is.
    pub kind: MessageKind,
    /// The epoch.
    pub epoch: u32,
    /// The sender.
    pub from: u32,
    /// The target that it is for.
    pub to: u32,
    /// The number of the request.
    pub number: u32,
    /// The attempt.
    pub attempt: u64,
    /// The ask.
    pub ask: u32,
    /// The value.
    pub value: u64,
    /// How many bytes the body has.
    pub size: u32,
}

/// The next field of a head.
#[derive(Clone, Copy, Debug)]
pub enum HeadPosition {
    /// The magic.
    Magic,
    /// The kind.
    Kind,
    /// The epoch.
    Epoch { kind: MessageKind },
    /// The sender.
    Sender { kind: MessageKind },
    /// The receiver.
    Receiver { kind: MessageKind },
    /// The number.
    Number { kind: MessageKind },
    /// The attempt.
    Attempt { kind: MessageKind },
    /// The ask.
    Ask { kind: MessageKind },
    /// Four zeros.
    Reserved { kind: MessageKind },
    /// The value.
    Value { kind: MessageKind },
    /// The length of the body.
    Size { kind: MessageKind },
    /// Four zeros.
    Last,
    /// Nothing.
    End,
}

/// The width of the next field of a head, or `None` at its end.
#[tactic(auto, unfolding(crate::specs::MessageReading::whole_head, crate::specs::MessageReading::at_kind, crate::specs::MessageReading::at_epoch, crate::specs::MessageReading::at_sender, crate::specs::MessageReading::at_receiver, crate::specs::MessageReading::at_number, crate::specs::MessageReading::at_attempt, crate::specs::MessageReading::at_ask, crate::specs::MessageReading::at_value, crate::specs::MessageReading::at_size))]
fn width_of(position: HeadPosition) -> Option<usize>
    ensures { result ≡ width_at (at_message position) }
{
    match position {
        HeadPosition::Attempt { .. } | HeadPosition::Value { .. } => Some(8),
        HeadPosition::End => None,
        _ => Some(4),
    }
}

fn is_zero_without(has: bool, number: u64) -> bool
    ensures { result ≡ or_zero has number }
{
    has || number == 0
}

/// Reads a field up to the receiver.
#[tactic(auto, unfolding(crate::specs::MessageReading::whole_head, crate::specs::MessageReading::at_kind, crate::specs::MessageReading::at_epoch, crate::specs::MessageReading::at_sender, crate::specs::MessageReading::at_receiver))]
fn read_address(position: HeadPosition, place: usize, bytes: &[u8]) -> Result<HeadPosition, Refusal>
    requires width { length bytes.now ≡ 4 }
    requires address { IsTrue (is_address position) }
    ensures steps { StepsTo at_message result (next_at (at_message position) place bytes.now) }
{
    let number = number32(bytes);
    let reason = Reason::BadValue;
    match position {
        HeadPosition::Magic => {
            if number != 0x4d4e_4531 {
                let reason = Reason::BadMagic;
                return Err(Refusal { place, reason });
            }
            Ok(HeadPosition::Kind)
        }
        HeadPosition::Kind => match kind_of(number) {
            None => {
                let reason = Reason::BadType;
                Err(Refusal { place, reason })
            }
            Some(kind) => Ok(HeadPosition::Epoch { kind }),
        },
        HeadPosition::Epoch { kind } => {
            if !is_zero_without(is_in_epoch(kind), number as u64) {
                return Err(Refusal { place, reason });
            }
            Ok(HeadPosition::Sender { kind })
        }
        HeadPosition::Sender { kind } => {
            if !sends(number) {
                return Err(Refusal { place, reason });
            }
            Ok(HeadPosition::Receiver { kind })
        }
        HeadPosition::Receiver { kind } => {
            if number > 15 {
                return Err(Refusal { place, reason });
            }
            Ok(HeadPosition::Number { kind })
        }
        _ => unreachable!(),
    }
}

/// Reads the next field of a head.
#[tactic(auto, unfolding(crate::specs::MessageReading::whole_head, crate::specs::MessageReading::at_kind, crate::specs::MessageReading::at_epoch, crate::specs::MessageReading::at_sender, crate::specs::MessageReading::at_receiver, crate::specs::MessageReading::at_number, crate::specs::MessageReading::at_attempt, crate::specs::MessageReading::at_ask, crate::specs::MessageReading::at_value, crate::specs::MessageReading::at_size))]
fn read_head(position: HeadPosition, place: usize, bytes: &[u8]) -> Result<HeadPosition, Refusal>
    requires width { width_at (at_message position) ≡ Some (length bytes.now) }
    requires place { place ≤ 56 }
    ensures steps { StepsTo at_message result (next_at (at_message position) place bytes.now) }
{
    let reason = Reason::BadValue;
    match position {
        HeadPosition::Number { kind } => {
            if !is_zero_without(is_numbered(kind), number32(bytes) as u64) {
                return Err(Refusal { place, reason });
            }
            Ok(HeadPosition::Attempt { kind })
        }
        HeadPosition::Attempt { kind } => {
            if !is_zero_without(is_of_attempt(kind), number64(bytes)) {
                return Err(Refusal { place, reason });
            }
            Ok(HeadPosition::Ask { kind })
        }
        HeadPosition::Ask { kind } => {
            if !is_zero_without(is_of_ask(kind), number32(bytes) as u64) {
                return Err(Refusal { place, reason });
            }
            Ok(HeadPosition::Reserved { kind })
        }
        HeadPosition::Reserved { kind } => unless(
            set_byte(bytes),
            place,
            Reason::BadPadding,
            HeadPosition::Value { kind },
        ),
        HeadPosition::Value { kind } => {
            if !is_zero_without(carries_value(kind), number64(bytes)) {
                return Err(Refusal { place, reason });
            }
            Ok(HeadPosition::Size { kind })
        }
        HeadPosition::Size { kind } => {
            if !is_zero_without(carries_body(kind), number32(bytes) as u64) {
                let reason = Reason::BadLength;
                return Err(Refusal { place, reason });
            }
            Ok(HeadPosition::Last)
        }
        HeadPosition::Last => unless(
            set_byte(bytes),
            place,
            Reason::BadPadding,
            HeadPosition::End,
        ),
        HeadPosition::End => unreachable!(),
        _ => read_address(position, place, bytes),
    }
}

// Only the verdict is asked for: nothing is built.
impl Position for HeadPosition {
    ghost use Rattle.update_record.specs.MessageReading.{whole_head};
    ghost use Rattle.update_record.specs.MessagePositions.{at_message};
    ghost use Rattle.update_record.specs.MessageBegins.{head_begins};

    type Value = ();

    const LIMIT: usize = 56;

    ghost LIMIT = { 56 };

    ghost grammar = { at_message };

    ghost whole = { whole_head };

    ghost spells = { λ _ _. Unit {0} };

    ghost rank = { λ _. 0 };

    fn start() -> HeadPosition {
        HeadPosition::Magic
    }

    fn width(self) -> Option<usize> {
        width_of(self)
    }

    fn read(self, place: usize, bytes: &[u8]) -> Result<HeadPosition, Refusal> {
        read_head(self, place, bytes)
    }

    fn build(_alloc: Global, _bytes: &[u8]) -> Result<(), Memory> {
        Ok(())
    }

    ghost begins = { head_begins };
}

/// The head that the first of these bytes spell, where they spell one, and the bytes behind it. Nothing is
/// judged: this is for bytes that were.
#[tactic(auto, unfolding(crate::specs::MessageValues::head_at))]
pub fn head_of(bytes: &[u8]) -> Result<(Head, &[u8]), BuildFault>
    ensures value { Gives (λ x. (x.0, x.1.now)) result (head_at bytes.now) }
    ensures free { IsErrOf result BuildFault.Memory → ⊥ }
{
    let (_, rest) = part(4, bytes)?;
    let (code, rest) = u32_at(rest)?;
    let Some(kind) = kind_of(code) else {
        return Err(BuildFault::Short);
    };
    let (epoch, rest) = u32_at(rest)?;
    let (from, rest) = u32_at(rest)?;
    let (to, rest) = u32_at(rest)?;
    let (number, rest) = u32_at(rest)?;
    let (attempt, rest) = u64_at(rest)?;
    let (ask, rest) = u32_at(rest)?;
    let (_, rest) = part(4, rest)?;
    let (value, rest) = u64_at(rest)?;
    let (size, rest) = u32_at(rest)?;
    let (_, rest) = part(4, rest)?;
    let head = Head {
        kind,
        epoch,
        from,
        to,
        number,
        attempt,
        ask,
        value,
        size,
    };
    Ok((head, rest))
}
