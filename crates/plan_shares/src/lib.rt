//! What the targets tell a planner is true of the tree: each question goes to the share that has its answer. And
//! what is so of each decision, whatever was told.
//!
//! The layer above may rest on this: facts that are read from the shares of a sound tree are such as the laws
//! of planning ask for. The calls do nothing: their contracts are laws.
#![tactic(auto)]

ghost use Rattle.plan_shares.specs.Sharing.{SharesTellTruth};
ghost use Rattle.plan_shares.specs.Replies.{RepliesAreTheTrees};
ghost use Rattle.plan_shares.specs.Decisions.{PartsRise, HomesTakePart, OnItsParts, WritersReplyOk};

/// The answer of the share of the target that a question goes to is true of the tree.
pub fn shares_tell_the_truth()
    ensures { SharesTellTruth }
{}

/// With true answers a planner comes to a question that the shares can answer, or to the reply of the tree's step.
pub fn replies_are_the_trees()
    ensures { RepliesAreTheTrees }
{}

/// Whatever was told, the parts of a decision are of rising targets of the cluster, the home among them, and it
/// is on these targets; an operation that may change something is refused or done.
pub fn decisions_have_parts()
    ensures rise { PartsRise }
    ensures home { HomesTakePart }
    ensures on { OnItsParts }
    ensures reply { WritersReplyOk }
{}
