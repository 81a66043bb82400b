ghost use Rattle.std.specs.Prelude.{◌≡◌, ◌<◌, ◌≤◌, ℕ, List, Some, None, false, true};
ghost use Rattle.std.specs.List.{AllByRecursion};
ghost use Rattle.update_coordinator.specs.declared.words.Held.{Held};
ghost use Rattle.striped_dir.specs.declared.plan.Decision.{Decision};
ghost use Rattle.update_record.specs.declared.operation.Record.{Record};
ghost use Rattle.update_coordinator.specs.declared.words.Course.{Course};
ghost use Rattle.tree_model.specs.declared.op.Request.{Request};
ghost use Rattle.update_coordinator.specs.declared.words.Event.{Event};
ghost use Rattle.update_coordinator.specs.declared.words.Going.{Going};
ghost use Rattle.update_coordinator.specs.declared.words.Action.TheVariants as actions;
ghost use Rattle.update_coordinator.specs.Coordinating.{Coordinating, first_coordinating};
ghost use Rattle.update_coordinator.specs.Laws.{IsDue, IsAccepted, IsMark, IsUpTo, IsGivenUp, releases_of, accepts_some, is_answer, does_nothing, AsksHeld, AskedHeld};
ghost use Rattle.update_coordinator.specs.Rules.{stamp_of, settles, started, heard};
ghost use Rattle.update_coordinator.specs.Marks.{noted};

use fid_space::members_by_parts;

/// The stamp is above each clock that was told.
pub fn the_stamp_is_above_each_clock()
    ensures { (held : List Held) → AllByRecursion (λ (h : Held). h.clock < stamp_of held) held }
{}

/// An accept rests on this: each participant is held and has room, each told writer covers the operation or
/// its target has committed, and the stamp is above each clock.
pub fn an_accept_is_due()
    ensures { (c : Coordinating) (k : Course) (d : Decision) (synced : ℕ) (r : Record) → (settles c k d synced).action ≡ actions.Accept r → IsDue c k d synced r }
{}

/// An accept comes of what is awaited alone. The attempt was under way, and is over: none is under way after
/// it, so there is at most one accept of an attempt.
pub fn an_accept_ends_its_attempt()
    ensures { (c : Coordinating) (e : Event) (r : Record) → (heard c e).action ≡ actions.Accept r → IsAccepted c e r }
{}

/// The targets that were sent a Hold of an attempt are those that are held, at an accept exactly.
pub fn what_was_asked_is_held()
    ensures first { (c : Coordinating) (r : Request) (load clock : ℕ) → AsksHeld c.master (started c r load clock).after.current }
    ensures next { (c : Coordinating) (e : Event) → AsksHeld c.master c.current → AsksHeld c.master (heard c e).after.current }
    ensures accepted { (c : Coordinating) (e : Event) (r : Record) → AsksHeld c.master c.current → (x : IsAccepted c e r) → AskedHeld c.master x.course }
{
    members_by_parts();
}

/// After a target's batches were noted the mark is the greatest number such that each batch up to it is stable
/// on each of its targets. A mark never falls.
pub fn a_mark_is_the_greatest()
    ensures mark { (c : Coordinating) (t batch : ℕ) → IsUpTo c → IsMark (noted c t batch).stable 0 (noted c t batch).batches (noted c t batch).mark }
    ensures never_falls { (c : Coordinating) (t batch : ℕ) → c.mark ≤ (noted c t batch).mark }
{}

/// Each batch up to the mark is stable on each of its targets, from the first attempt on.
pub fn batches_up_to_the_mark_are_stable()
    ensures first { (targets master epoch : ℕ) → IsUpTo (first_coordinating targets master epoch) }
    ensures started { (c : Coordinating) (r : Request) (load clock : ℕ) → IsUpTo c → IsUpTo (started c r load clock).after }
    ensures heard { (c : Coordinating) (e : Event) → IsUpTo c → IsUpTo (heard c e).after }
    ensures noted { (c : Coordinating) (t batch : ℕ) → IsUpTo c → IsUpTo (noted c t batch) }
{}

/// An attempt that ends without an accept: a Release goes to all that were asked, but for a target that
/// doesn't serve, and these owe its answer.
pub fn an_end_releases_all_that_were_asked()
    ensures { (c : Coordinating) (e : Event) (g : Going) → c.current ≡ Some g → (heard c e).after.current ≡ None → accepts_some (heard c e).action ≡ false → IsGivenUp c g (heard c e).after (releases_of g.course.asked e) }
{}

/// An answer that is awaited is acted on.
pub fn an_awaited_answer_is_heard()
    ensures { (c : Coordinating) (e : Event) (g : Going) → c.current ≡ Some g → is_answer e g.waits ≡ true → does_nothing (heard c e).action ≡ false }
{}
