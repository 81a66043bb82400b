ghost use Rattle.std.specs.Prelude.{◌≡◌, ℕ, ◌≤◌, ◌<◌, ◌^◌, ◌++◌, List, [], length, drop, IfOk, IfSome};
ghost use Rattle.std.specs.Prelude.{Some};
ghost use Rattle.byte_grammar.specs.Grammar.{Grammar, judge};
ghost use Rattle.byte_grammar.specs.Fields.{unless_bad};
ghost use Rattle.byte_grammar.specs.Steps.{width_at, next_at, StepsTo, Begins};

use crate::verdict::{Reason, Refusal, Verdict};
use std::alloc::{AllocError as Memory, Global};

/// Where a reader stands in the grammar of a kind of values.
pub trait Position: Copy {
    /// What the bytes spell.
    type Value;

    /// The most bytes that a value has.
    const LIMIT: usize;

    ghost LIMIT: { ℕ };

    // what is still to come
    ghost grammar: { Self → Grammar };

    // all of a value
    ghost whole: { Grammar };

    ghost spells: { Self.Value → List ℕ → Type 0 };

    // falls where a field has no byte
    ghost rank: { Self → ℕ };

    /// Before the first field.
    fn start() -> Self
        ensures { grammar result ≡ whole };

    /// The width of the next field, or `None` at the end.
    fn width(self) -> Option<usize>
        ensures { result ≡ width_at (grammar self) };

    /// Reads the next field, which stands at the place.
    fn read(self, place: usize, bytes: &[u8]) -> Result<Self, Refusal>
        requires width { width_at (grammar self) ≡ Some (length bytes.now) }
        requires place { place ≤ LIMIT }
        ensures steps { StepsTo grammar result (next_at (grammar self) place bytes.now) }
        ensures rank { IfOk result (λ p. length bytes.now ≡ 0 → rank p < rank self) }
        ensures small { IfOk result (λ p. rank p ≤ 15) };

    /// The value that all of the bytes spell.
    fn build(alloc: Global, bytes: &[u8]) -> Result<Self::Value, Memory>
        requires { judge LIMIT whole 0 bytes.now ≡ Verdict.Done (length bytes.now) }
        ensures { IfOk result (λ value. spells value bytes.now) };

    // Before any byte a field is to come.
    ghost begins: { Begins LIMIT whole };
}

/// Goes on to the next position, unless a byte of the field at the place is bad.
pub fn unless<P: Copy>(
    bad: Option<usize>,
    place: usize,
    reason: Reason,
    next: P,
) -> Result<P, Refusal>
    requires place { place < 2 ^ 63 }
    requires below { IfSome bad (λ i. i < 2 ^ 63) }
    ensures steps { (grammar : P → Grammar) → StepsTo grammar result (unless_bad bad place reason (grammar next)) }
    ensures next { IfOk result (λ p. p ≡ next) }
{
    match bad {
        None => Ok(next),
        Some(i) => Err(Refusal {
            place: place + i,
            reason,
        }),
    }
}

/// How far bytes were read.
#[derive(Clone, Copy)]
pub struct Reached<P: Position> {
    /// The place of the next field.
    pub place: usize,
    /// Where the reader stands.
    pub position: P,
}

/// Reads on from a place: the verdict on the bytes, and how far they were read.
pub fn scan<P: Position>(bytes: &[u8], from: Reached<P>) -> (Reached<P>, Verdict)
    requires place { from.place ≤ length bytes.now }
    requires limit { length bytes.now ≤ P.LIMIT }
    ensures verdict { result.1 ≡ judge P.LIMIT (P.grammar from.position) from.place (drop from.place bytes.now) }
    ensures place { result.0.place ≤ length bytes.now }
    ensures resumes { (more : List ℕ) → judge P.LIMIT (P.grammar from.position) from.place (drop from.place bytes.now ++ more)
        ≡ judge P.LIMIT (P.grammar result.0.position) result.0.place (drop result.0.place bytes.now ++ more) }
{
    let mut reached = from;
    loop {
        let place = reached.place;
        let Some(width) = reached.position.width() else {
            return (reached, Verdict::Done(place));
        };
        if width > P::LIMIT - place {
            let reason = Reason::TooLong;
            return (reached, Verdict::Refused(Refusal { place, reason }));
        }
        if width > bytes.len() - place {
            return (reached, Verdict::More);
        }
        match reached.position.read(place, &bytes[place..place + width]) {
            Ok(position) => {
                reached = Reached {
                    place: place + width,
                    position,
                };
            }
            Err(refusal) => return (reached, Verdict::Refused(refusal)),
        }
    }
}
