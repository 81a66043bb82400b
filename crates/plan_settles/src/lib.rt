//! What the answers of an attempt settle. A planner asks one question after another; over each history of whose
//! shares the answers are true, its decision is that of the operation, and it was told of the objects that the
//! operation sees.
//!
//! The layer above may rest on this: a decision can be accepted without another look at the tree. The calls do
//! nothing: their contracts are laws.
#![tactic(auto)]

ghost use Rattle.plan_settles.specs.Settling.{AnswersSettle, EntriesAreFew};

/// What a planner decides after the answers of an attempt is settled by them.
pub fn answers_settle()
    ensures { AnswersSettle }
{}

/// After a history no directory has more entries than the history has items; so they can be counted.
pub fn entries_are_few()
    ensures { EntriesAreFew }
{}
