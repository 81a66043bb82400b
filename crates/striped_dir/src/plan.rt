use fid_space::Targets;
use out_update::{Parts, Update};
use tree_model::Reply;

/// A question that a planner needs the answer of.
#[derive(Debug, Drop)]
pub struct Need {
    /// The target that is asked, below 16.
    pub target: u8,
    /// What it is asked: an update of a read type.
    pub ask: Update,
}

/// What a planner decided.
#[derive(Debug, Drop)]
pub struct Decision {
    /// The answer to the operation.
    pub reply: Reply,
    /// The updates of the change, one part for each target that it writes. A refused operation and a read
    /// have one part, that of the home, without updates.
    pub parts: Parts,
    /// The targets that the operation is on.
    pub on: Targets,
}

/// How a planner goes on.
#[derive(Debug, Drop)]
pub enum Step {
    /// It waits for the answer to a question.
    Need(Need),
    /// It is done.
    Decided(Decision),
}
