ghost use Rattle.commit_sharing.specs.Sharing.{SyncsAreFirst};
ghost use Rattle.commit_sharing.specs.WriterLaws.{WritersAreLast};

/// After any requests that were noted since the writers were forgotten, an object's writer is the last of
/// those that wrote it, and there is none exactly where none did. The call does nothing: its contract is a
/// law.
#[tactic(auto, using(crate::proofs::Writers::writers_are_last))]
pub fn a_writer_is_the_last_noted()
    ensures { WritersAreLast }
{}

/// What `must_sync` answers is the writer of the first object that was seen at the target and whose writer
/// isn't on all targets of the operation, and there is none exactly where no object is so. The call does
/// nothing: its contract is a law.
#[tactic(auto, using(crate::proofs::First::is_first))]
pub fn a_sync_is_for_the_first_writer()
    ensures { SyncsAreFirst }
{}
