//! What is so of every decision of a planner, whatever results it heard: an update record may keep it.
//!
//! The layer above may rest on this without a look at the tree: the parts of a decision have a spelling, are of
//! rising targets, the home among them, and a record of them is short. The calls do nothing: their contracts are
//! laws.
#![tactic(auto)]

ghost use Rattle.plan_record.specs.Recorded.{DecisionsAreRecorded, RecordsFit};

/// Whatever a planner heard, an update record may keep what it decides.
pub fn decisions_are_recorded()
    ensures { DecisionsAreRecorded }
{}

/// A record with the reply and the parts of a decision, made at the home, has a spelling.
#[tactic(auto, using(crate::proofs::Recording::records_fit))]
pub fn records_of_decisions_fit()
    ensures { RecordsFit }
{}
