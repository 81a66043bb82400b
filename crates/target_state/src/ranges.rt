//! A target in range, whose image is read back, stays so whatever it does. The calls do nothing: the contract
//! of each is a law.

ghost use Rattle.std.specs.Prelude.{◌≡◌, ◌≤◌, ◌<◌, ℕ, true};
ghost use Rattle.update_record.specs.declared.operation.Record.{Record};
ghost use Rattle.update_record.specs.declared.message.Attempt.{Attempt};
ghost use Rattle.update_record.specs.Spelling.{FitsRecord};
ghost use Rattle.state_image.specs.FrontText.{last_epoch, most};
ghost use Rattle.state_image.specs.StateText.{is_own};
ghost use Rattle.target_state.specs.State.{TargetState, first_state};
ghost use Rattle.target_state.specs.Image.{IsInRange};
ghost use Rattle.target_state.specs.Commit.{packed, committed};
ghost use Rattle.target_state.specs.Marking.{cancelled, marked};
ghost use Rattle.target_state.specs.Rules.{after_hold, after_release, after_execute, after_redo, forgotten, renewed};

use state_image::{a_log_stays_own_when_appended, a_log_stays_own_when_packed};

/// A target that was formatted is in range.
pub fn a_new_target_is_in_range()
    ensures { (targets index : ℕ) → IsInRange (first_state targets index) }
{}

/// One that is held, or that an attempt didn't get, stays in range.
#[tactic(auto, using(crate::proofs::Ranging::hold_stays))]
pub fn a_held_target_stays_in_range()
    ensures { (s : TargetState) (by : Attempt) → IsInRange s → IsInRange (after_hold s by) }
{}

/// One that an attempt lets go, or that notes its end, stays in range.
#[tactic(auto, using(crate::proofs::Ranging::release_stays))]
pub fn a_released_target_stays_in_range()
    ensures { (s : TargetState) (by : Attempt) → IsInRange s → IsInRange (after_release s by) }
{}

/// One that enters a recovery stays in range.
#[tactic(auto, using(crate::proofs::Ranging::recovery_stays))]
pub fn a_recovering_target_stays_in_range()
    ensures { (s : TargetState) → IsInRange s → IsInRange (forgotten s) }
{}

/// One that executes a record stays in range where the record names it, and no target that the cluster has not,
/// and where the transaction number, the record's stamp and its batch leave room.
pub fn an_executing_target_stays_in_range()
    ensures { (s : TargetState) (by : Attempt) (r : Record) → IsInRange s → FitsRecord r → is_own s.targets s.index r ≡ true → s.transno < most → r.stamp ≤ most → r.id.batch < most → IsInRange (after_execute s by r) }
{
    a_log_stays_own_when_appended();
}

/// One that does such a record again stays in range. It takes neither stamp nor batch.
pub fn a_redoing_target_stays_in_range()
    ensures { (s : TargetState) (r : Record) → IsInRange s → FitsRecord r → is_own s.targets s.index r ≡ true → s.transno < most → IsInRange (after_redo s r) }
{
    a_log_stays_own_when_appended();
}

/// One that cancels records stays in range.
#[tactic(auto, using(crate::proofs::Ranging::cancel_stays))]
pub fn a_cancelling_target_stays_in_range()
    ensures { (s : TargetState) (master mark : ℕ) → IsInRange s → IsInRange (cancelled s master mark) }
{}

/// One whose mark rises to at most 2^62 stays in range.
#[tactic(auto, using(crate::proofs::Ranging::mark_stays))]
pub fn a_marked_target_stays_in_range()
    ensures { (s : TargetState) (mark : ℕ) → IsInRange s → mark ≤ most → IsInRange (marked s mark) }
{}

/// What a commit of one makes durable is in range.
pub fn a_packed_target_stays_in_range()
    ensures { (s : TargetState) → IsInRange s → IsInRange (packed s) }
{
    a_log_stays_own_when_packed();
}

/// One that commits stays in range.
pub fn a_committed_target_stays_in_range()
    ensures { (s : TargetState) → IsInRange s → IsInRange (committed s) }
{
    a_log_stays_own_when_packed();
}

/// One that is renewed with an epoch of 1 to 1,895,048,192 stays in range.
pub fn a_renewed_target_stays_in_range()
    ensures { (s : TargetState) (epoch : ℕ) → IsInRange s → 1 ≤ epoch → epoch ≤ last_epoch → IsInRange (renewed epoch s) }
{}
