//! Which objects operations ask for and write: the laws that lead from the keys of the tree to the objects of
//! the targets. The layer above may rest on this: what an operation does and sees of objects follows from the
//! keys that it looks at, and who wrote a key is found at the objects at which the key stands.
#![tactic(auto)]

ghost use Rattle.op_laws.specs.Laws.{SameSaw, SameWrote, WroteOn, LooksTold, WritesObject, Moves, Beside, Gone, Stays, LooksHavePlaces, PartsAreThere, WroteNear, SawNear, TellsAreNear, NodesComeFirst};
ghost use Rattle.op_laws.specs.PartTies.{EachUpdateHasItsPart, PartsNameWhatIsWritten, WrittenHere, PartsMakeShares};

/// What an operation asks and writes depends only on what it looks at. The call does nothing: its contract
/// is a law, as that of each call below.
pub fn objects_are_those_of_looks()
    ensures saw { SameSaw }
    ensures wrote { SameWrote }
{}

/// A written object has a place, which takes part.
pub fn written_objects_take_part()
    ensures takes { WroteOn }
{}

/// Who looks at a key is told who wrote the objects at which it stands.
pub fn looks_are_told()
    ensures told { LooksTold }
{}

/// A key that is met stands afterwards at a written object, and a key that moves was told and is written.
pub fn keys_follow_objects()
    ensures writes { WritesObject }
    ensures moves { Moves }
{}

/// What comes, goes and stays.
pub fn objects_stand_with_their_owners()
    ensures beside { Beside }
    ensures gone { Gone }
    ensures stays { Stays }
{}

/// What is looked at has a place, and the parts of a directory are there.
pub fn what_is_asked_has_a_place()
    ensures looks { LooksHavePlaces }
    ensures parts { PartsAreThere }
    ensures first { NodesComeFirst }
{}

/// Written and asked objects have keys of their owners; so who is told of a writer is near it.
pub fn objects_have_keys_of_their_owners()
    ensures wrote { WroteNear }
    ensures saw { SawNear }
    ensures near { TellsAreNear }
{}

/// Each update is in the part of its object's place; the parts name what is written, and make the shares of
/// the targets those after the operation.
pub fn parts_are_of_written_objects()
    ensures each { EachUpdateHasItsPart }
    ensures names { PartsNameWhatIsWritten }
    ensures here { WrittenHere }
    ensures shares { PartsMakeShares }
{}
