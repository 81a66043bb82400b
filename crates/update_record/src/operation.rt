ghost use Rattle.std.specs.Prelude.{◌≡◌, ◌<◌, ℕ, All, IfSome};
ghost use Rattle.std.specs.Option.{option_copied};
ghost use Rattle.fid_space.specs.Targets.{is_member};
ghost use Rattle.out_update.specs.Spelling.{FitsRequest};
ghost use Rattle.update_record.specs.Spelling.{FitsRecord, has_target, part_for, targets_from};

use fid_space::Targets;
use out_update::{Parts, UpdateRequest};
use tree_model::Reply;

/// Which accepted operation a record is of.
#[derive(Clone, Copy, Debug, PartialEq, Eq)]
pub struct OpId {
    /// The epoch in which it was accepted, 1 or more.
    pub epoch: u32,
    /// The target that accepted it.
    pub master: u8,
    /// Its number there, 1 or more, counted anew in each epoch.
    pub batch: u64,
}

/// What the targets keep of an accepted operation until all of them have made its updates durable.
#[derive(Debug, Drop)]
pub struct Record {
    /// Which operation it is.
    pub id: OpId,
    /// One more than the greatest clock of the targets that it held, 1 or more.
    pub stamp: u64,
    /// The client's number of the request, 1 to 65,536.
    pub number: u32,
    /// The client, 0 to 63.
    pub client: u8,
    /// What the client was answered: `Ok` or an error.
    pub reply: Reply,
    /// The updates of each target that takes part, by rising targets.
    pub parts: Parts,
}

fn targets_of(parts: &[(u8, UpdateRequest)]) -> Targets
    requires { All (λ part. part.0 < 16) parts.now }
    ensures { result ≡ targets_from 0 parts.now }
{
    let mut targets = Targets::none();
    for part in parts {
        targets = targets.with(part.0);
    }
    targets
}

fn updates_for(parts: &[(u8, UpdateRequest)], target: u8) -> Option<&UpdateRequest>
    ensures { option_copied result ≡ part_for target parts.now }
{
    for part in parts {
        if part.0 == target {
            return Some(&part.1);
        }
    }
    None
}

impl Record {
    /// The targets that take part.
    pub fn targets(&self) -> Targets
        requires { FitsRecord self.now }
        ensures value { result ≡ targets_from 0 self.now.parts }
        ensures members { (t : ℕ) → is_member result t ≡ has_target t self.now.parts }
    {
        targets_of(self.parts.items())
    }

    /// Lends the updates of a target, or `None` where it takes no part.
    pub fn part_of(&self, target: u8) -> Option<&UpdateRequest>
        ensures value { option_copied result ≡ part_for target self.now.parts }
        // A part of a record that has a spelling is a request that has one.
        ensures fits { FitsRecord self.now → IfSome (option_copied result) FitsRequest }
    {
        updates_for(self.parts.items(), target)
    }
}
