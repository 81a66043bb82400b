//! What a planner decides with true answers is what the tree's step does: its reply, and on each target that it
//! is on the updates of the operation there. The layer above may rest on this: the part of each target makes
//! its share of a tree that of the tree after the operation.
#![tactic(auto)]

ghost use Rattle.plan_parts.specs.Parts.{DecisionsAreTheTrees};

/// With true answers a decision has the reply of the tree's step, and its parts. The call does nothing: its
/// contract is a law.
pub fn decisions_are_the_trees()
    ensures { DecisionsAreTheTrees }
{}
