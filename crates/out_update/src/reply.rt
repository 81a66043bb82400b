ghost use Rattle.std.specs.Prelude.{◌≡◌, ℕ, ◌<◌, ◌≤◌, ◌^◌, Some, length, IfOk};
ghost use Rattle.byte_grammar.specs.Grammar.{Grammar};
ghost use Rattle.byte_grammar.specs.Grammar.Grammar.{Ends};
ghost use Rattle.byte_grammar.specs.Steps.{width_at, next_at, StepsTo};
ghost use Rattle.out_update.specs.Replies.{at_results, is_code};
ghost use Rattle.out_update.specs.Positions.{at_reply_position, reply_rank};

use byte_grammar::{Reason, Refusal, number16, number32, padding_of, set_byte, unless};

/// The next field of a reply.
#[derive(Clone, Copy, Debug)]
pub enum ReplyPosition {
    /// The magic.
    Magic,
    /// The count of results.
    Count,
    /// Two zeros.
    Reserved { count: u16 },
    /// The code of a result.
    Code { left: u16 },
    /// The length of its bytes.
    Length { left: u16 },
    /// Its bytes.
    Body { length: u32, left: u16 },
    /// Zeros behind them.
    Padding { length: u32, left: u16 },
    /// Nothing.
    End,
}

#[tactic(auto, unfolding(crate::specs::Replies::at_results))]
fn results(left: u16) -> ReplyPosition
    ensures grammar { (next : Grammar) → at_reply_position next result ≡ at_results left next }
    ensures rank { reply_rank result ≡ 0 }
{
    if left == 0 {
        ReplyPosition::End
    } else {
        ReplyPosition::Code { left: left - 1 }
    }
}

fn is_known(code: u32) -> bool
    ensures { result ≡ is_code code }
{
    matches!(
        code,
        0 | 1 | 2 | 17 | 20 | 21 | 22 | 27 | 28 | 31 | 39 | 40 | 61
    )
}

/// The width of the next field of a reply alone, or `None` at its end.
#[tactic(auto, unfolding(crate::specs::Replies::reply_then, crate::specs::Replies::at_reply_count, crate::specs::Replies::at_result, crate::specs::Replies::at_length))]
pub fn width(position: ReplyPosition) -> Option<usize>
    ensures { result ≡ width_at (at_reply_position Ends position) }
{
    match position {
        ReplyPosition::Magic => Some(4),
        ReplyPosition::Count => Some(2),
        ReplyPosition::Reserved { .. } => Some(2),
        ReplyPosition::Code { .. } => Some(4),
        ReplyPosition::Length { .. } => Some(4),
        ReplyPosition::Body { length, .. } => Some(length as usize),
        ReplyPosition::Padding { length, .. } => Some(padding_of(length)),
        ReplyPosition::End => None,
    }
}

/// Reads the next field of a reply.
#[tactic(auto, unfolding(crate::specs::Replies::reply_then, crate::specs::Replies::at_reply_count, crate::specs::Replies::at_result, crate::specs::Replies::at_length))]
pub fn read(position: ReplyPosition, place: usize, bytes: &[u8]) -> Result<ReplyPosition, Refusal>
    requires width { width_at (at_reply_position Ends position) ≡ Some (length bytes.now) }
    requires place { place < 2 ^ 63 }
    ensures steps { (next : Grammar) → StepsTo (at_reply_position next) result (next_at (at_reply_position next position) place bytes.now) }
    ensures rank { IfOk result (λ p. length bytes.now ≡ 0 → reply_rank p < reply_rank position) }
    ensures small { IfOk result (λ p. reply_rank p ≤ 2) }
{
    match position {
        ReplyPosition::Magic => {
            if number32(bytes) != 0xbdde_0101 {
                let reason = Reason::BadMagic;
                return Err(Refusal { place, reason });
            }
            Ok(ReplyPosition::Count)
        }
        ReplyPosition::Count => {
            let count = number16(bytes);
            if count > 128 {
                let reason = Reason::BadCount;
                return Err(Refusal { place, reason });
            }
            Ok(ReplyPosition::Reserved { count })
        }
        ReplyPosition::Reserved { count } => {
            unless(set_byte(bytes), place, Reason::BadPadding, results(count))
        }
        ReplyPosition::Code { left } => {
            if !is_known(number32(bytes)) {
                let reason = Reason::BadValue;
                return Err(Refusal { place, reason });
            }
            Ok(ReplyPosition::Length { left })
        }
        ReplyPosition::Length { left } => {
            let length = number32(bytes);
            if length > 16_384 {
                let reason = Reason::BadLength;
                return Err(Refusal { place, reason });
            }
            Ok(ReplyPosition::Body { length, left })
        }
        ReplyPosition::Body { length, left } => Ok(ReplyPosition::Padding { length, left }),
        ReplyPosition::Padding { left, .. } => {
            unless(set_byte(bytes), place, Reason::BadPadding, results(left))
        }
        ReplyPosition::End => unreachable!(),
    }
}
