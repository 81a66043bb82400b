//! What of a tree stands on each target as objects, and the updates of each operation. The layer above may
//! rest on this: the part of a target makes its share of a tree that of the tree after the operation.
#![tactic(auto)]

ghost use Rattle.tree_shares.specs.ShareLaws.{PartsMakeShares, SharesOfHistories, SeatsGoAlong, SeatsAreLast, UpdatesNameWhatIsWritten, UpdatesAreSpelled, UpdatesAreFew, OthersStay};
ghost use Rattle.tree_shares.specs.PartLaws.{PartsAreOfTargets, PartsAreOn, HomeTakesPart, PartsFollowLooks, PartsFit, RecordsAreShort};
ghost use Rattle.tree_shares.specs.Telling.{NodesAreTold, NamesAreTold, StripesAreTold, EmptyIsTold, CountsAreTold, AllNamesAreTold};

/// The part of each target makes its share that after the operation; a target without a part keeps its share.
/// The call does nothing: its contract is a law, as that of each call below.
pub fn parts_make_shares()
    ensures shares { PartsMakeShares }
{}

/// The same of histories: the part of an item makes the share of a history that of the history with the item.
pub fn shares_of_histories()
    ensures shares { SharesOfHistories }
{}

/// A share has the seats of those at home there, and the part of the home sets one: the last of its client.
pub fn seats_are_last()
    ensures along { SeatsGoAlong }
    ensures last { SeatsAreLast }
{}

/// The objects that the updates of an operation name are those that its changes write.
pub fn updates_name_what_is_written()
    ensures objects { UpdatesNameWhatIsWritten }
{}

/// Each update of an operation has a spelling in a part of a record.
pub fn updates_are_spelled()
    ensures spelled { UpdatesAreSpelled }
{}

/// An operation has few updates, which are short enough for a record.
pub fn updates_are_few()
    ensures few { UpdatesAreFew }
{}

/// Exactly the targets that an operation is on have a part, the home always; and what they have depends only
/// on what the operation looks at.
pub fn parts_are_of_targets()
    ensures each { PartsAreOfTargets }
    ensures on { PartsAreOn }
    ensures home { HomeTakesPart }
    ensures looks { PartsFollowLooks }
{}

/// A record can have the parts of an operation: they have a spelling, and are short enough.
pub fn records_of_parts_fit()
    ensures fit { PartsFit }
    ensures short { RecordsAreShort }
{}

/// A target that an operation isn't on has no part, and keeps its share.
pub fn others_stay()
    ensures stay { OthersStay }
{}

/// What shares tell of nodes, names and stripes.
pub fn shares_tell()
    ensures nodes { NodesAreTold }
    ensures names { NamesAreTold }
    ensures stripes { StripesAreTold }
    ensures bare { EmptyIsTold }
    ensures counts { CountsAreTold }
    ensures all { AllNamesAreTold }
{}
