ghost use Rattle.std.specs.Prelude.{◌≡◌, ◌<◌, ◌≤◌, ◌^◌, Some, length, IfOk};
ghost use Rattle.byte_grammar.specs.Steps.{width_at, next_at, StepsTo};
ghost use Rattle.update_record.specs.MessageReading.{at_questions};
ghost use Rattle.update_record.specs.MessagePositions.{at_ask_of, ask_rank};

use byte_grammar::{Position, Reason, Refusal, number16, number32, set_byte, unless};
use out_update::kind_of;
use out_update::request::{self, RequestPosition};
use std::alloc::{AllocError as Memory, Global};

/// The next field of a request that asks one question or none.
#[derive(Clone, Copy, Debug)]
pub enum QuestionPosition {
    /// The magic.
    Magic,
    /// The count of questions.
    Count,
    /// Two zeros.
    Reserved { count: u16 },
    /// The type of the question.
    Type,
    /// A field behind it, or nothing.
    Inside { request: RequestPosition },
}

fn questions(count: u16) -> QuestionPosition
    ensures grammar { at_ask_of result ≡ at_questions count }
    ensures rank { ask_rank result ≡ 0 }
{
    if count == 0 {
        QuestionPosition::Inside {
            request: RequestPosition::End,
        }
    } else {
        QuestionPosition::Type
    }
}

#[tactic(auto, unfolding(crate::specs::MessageReading::whole_question, crate::specs::MessageReading::at_question_count, crate::specs::MessageReading::at_question))]
fn width_of(position: QuestionPosition) -> Option<usize>
    ensures { result ≡ width_at (at_ask_of position) }
{
    match position {
        QuestionPosition::Magic => Some(4),
        QuestionPosition::Inside { request } => request::width(request),
        _ => Some(2),
    }
}

#[tactic(auto, unfolding(crate::specs::MessageReading::whole_question, crate::specs::MessageReading::at_question_count, crate::specs::MessageReading::at_question, out_update::specs::Reading::at_updates))]
fn read_field(
    position: QuestionPosition,
    place: usize,
    bytes: &[u8],
) -> Result<QuestionPosition, Refusal>
    requires width { width_at (at_ask_of position) ≡ Some (length bytes.now) }
    requires place { place ≤ 24576 }
    ensures steps { StepsTo at_ask_of result (next_at (at_ask_of position) place bytes.now) }
    ensures rank { IfOk result (λ p. length bytes.now ≡ 0 → ask_rank p < ask_rank position) }
    ensures small { IfOk result (λ p. ask_rank p ≤ 2) }
{
    match position {
        QuestionPosition::Magic => {
            if number32(bytes) != 0xbdde_0001 {
                let reason = Reason::BadMagic;
                return Err(Refusal { place, reason });
            }
            Ok(QuestionPosition::Count)
        }
        QuestionPosition::Count => {
            let count = number16(bytes);
            if count > 1 {
                let reason = Reason::BadCount;
                return Err(Refusal { place, reason });
            }
            Ok(QuestionPosition::Reserved { count })
        }
        QuestionPosition::Reserved { count } => {
            unless(set_byte(bytes), place, Reason::BadPadding, questions(count))
        }
        QuestionPosition::Type => match kind_of(number16(bytes)) {
            None => {
                let reason = Reason::BadType;
                Err(Refusal { place, reason })
            }
            Some(kind) => {
                if !kind.is_read() {
                    let reason = Reason::BadValue;
                    return Err(Refusal { place, reason });
                }
                Ok(QuestionPosition::Inside {
                    request: RequestPosition::Parameters { kind, left: 0 },
                })
            }
        },
        QuestionPosition::Inside { request } => {
            let request = request::read(None, request, place, bytes)?;
            Ok(QuestionPosition::Inside { request })
        }
    }
}

// Only the verdict is asked for: nothing is built.
impl Position for QuestionPosition {
    ghost use Rattle.update_record.specs.MessageReading.{whole_question};
    ghost use Rattle.update_record.specs.MessagePositions.{at_ask_of, ask_rank};
    ghost use Rattle.update_record.specs.MessageBegins.{question_begins};

    type Value = ();

    const LIMIT: usize = 24_576;

    ghost LIMIT = { 24576 };

    ghost grammar = { at_ask_of };

    ghost whole = { whole_question };

    ghost spells = { λ _ _. Unit {0} };

    ghost rank = { ask_rank };

    fn start() -> QuestionPosition {
        QuestionPosition::Magic
    }

    fn width(self) -> Option<usize> {
        width_of(self)
    }

    fn read(self, place: usize, bytes: &[u8]) -> Result<QuestionPosition, Refusal> {
        read_field(self, place, bytes)
    }

    fn build(_alloc: Global, _bytes: &[u8]) -> Result<(), Memory> {
        Ok(())
    }

    ghost begins = { question_begins };
}
