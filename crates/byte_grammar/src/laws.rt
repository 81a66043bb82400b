ghost use Rattle.std.specs.Prelude.{◌≡◌, Bool, true, ◌≤◌, ◌<◌, ◌+◌, ℕ, ◌++◌, List, length, take};
ghost use Rattle.byte_grammar.specs.Grammar.{Grammar, judge, IsSettled, Only};
ghost use Rattle.byte_grammar.specs.declared.verdict.Refusal.{Refusal};
ghost use Rattle.byte_grammar.specs.declared.verdict.Reason.{Reason};

use crate::verdict::{Reason, Verdict};

/// Laws of every grammar: what a verdict on bytes says of more bytes, and of fewer.
pub fn verdicts_stay()
    // What is settled stays so, whatever follows.
    ensures settled { (limit : ℕ) (g : Grammar) (place : ℕ) (bytes more : List ℕ)
        → IsSettled (judge limit g place bytes) → judge limit g place (bytes ++ more) ≡ judge limit g place bytes }
    // Nothing behind the limit is looked at.
    ensures cut { (limit : ℕ) (g : Grammar) (place n : ℕ) (bytes : List ℕ)
        → limit ≤ place + n → judge limit g place (take n bytes) ≡ judge limit g place bytes }
    // Where a field is to come, less than the limit has come.
    ensures more { (limit : ℕ) (g : Grammar) (place : ℕ) (bytes : List ℕ)
        → judge limit g place bytes ≡ Verdict.More → place + length bytes < limit }
    // The bytes of a value are enough.
    ensures alone { (limit : ℕ) (g : Grammar) (bytes : List ℕ) (end : ℕ)
        → judge limit g 0 bytes ≡ Verdict.Done end → judge limit g 0 (take end bytes) ≡ Verdict.Done end }
{}

/// A refusal has one of the reasons that stand in the grammar, or the field passes the limit.
pub fn a_refusal_has_a_reason_of_its_grammar()
    ensures { (names : Reason → Bool) (limit : ℕ) (g : Grammar) (place : ℕ) (bytes : List ℕ) (refusal : Refusal)
        → names Reason.TooLong ≡ true → Only names g → judge limit g place bytes ≡ Verdict.Refused refusal → names refusal.reason ≡ true }
{}
