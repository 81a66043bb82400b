//! Laws that tie the turns of targets to the machine of the protocol. A cluster agrees with a world of the machine
//! where each target that serves keeps what the machine knows of it, and each message stands for one of the machine;
//! a turn is then a run of a few events, says the lines of these, and agreement stays. No code runs here: each
//! function is a law, its contract says it, and a call does nothing. The layer above may rest on this: what holds of
//! the machine's runs holds of turns that come one after another.
#![tactic(auto)]

ghost use Rattle.std.specs.Prelude.{◌≡◌, ◌≢◌, ◌<◌, ◌⊎◌, [], ℕ, List, length, get_or, Some, None, true, false};
ghost use Rattle.op_laws.specs.Laws.{IsCount};
ghost use Rattle.out_update.specs.declared.update.Update.{Update};
ghost use Rattle.scenario_text.specs.declared.line.Line.{Line};
ghost use Rattle.update_record.specs.declared.message.Message.{Message};
ghost use Rattle.update_record.specs.declared.operation.Record.{Record};
ghost use Rattle.update_record.specs.Messages.{FitsFacts};
ghost use Rattle.cluster_mail.specs.declared.content.Content.TheVariants.{Questions, Carries};
ghost use Rattle.target_state.specs.Image.{state_text};
ghost use Rattle.target_state.specs.Rules.{facts};
ghost use Rattle.target_state.specs.Marking.{cancelled};
ghost use Rattle.update_coordinator.specs.declared.words.Flight.{Flight};
ghost use Rattle.cluster_mail.specs.Mail.{Sent};
ghost use Rattle.tree_model.specs.declared.op.Request.{Request};
ghost use Rattle.update_protocol.specs.Events.{fresh};
ghost use Rattle.target_turns.specs.Target.{Fate, Turned, joins, quiet, serves};
ghost use Rattle.target_turns.specs.Marks.{commits, note, stops};
ghost use Rattle.target_turns.specs.Helping.{on_execute, on_hold, on_release, on_sync};
ghost use Rattle.update_protocol.specs.Epochs.{Reached};
ghost use Rattle.update_protocol.specs.Lists.{IsIn};
ghost use Rattle.update_protocol.specs.World.{Attempt, Cancel, History, Stable, Sync, Synced, World};
ghost use Rattle.tree_model.specs.Participants.{home_of};
ghost use Rattle.reply_cache.specs.Seats.{judged};
ghost use Rattle.reply_cache.specs.declared.seats.Judgement.TheVariants.{New};
ghost use Rattle.update_protocol.specs.Seats.{is_read};
ghost use Rattle.update_coordinator.specs.declared.words.Going.{Going};
ghost use Rattle.target_turns.specs.Home.{ends_with, own_attempt};
ghost use Rattle.turn_laws.specs.Attempting.{begun, let_go};
ghost use Rattle.turn_laws.specs.Begins.{IsNew, start_of};
ghost use Rattle.turn_laws.specs.Values.{Cluster, Unique, after_turn, target_at};
ghost use Rattle.turn_laws.specs.Agrees.{Agrees, TiedExecute, TiedHold, TiedRelease, TiedSync};
ghost use Rattle.turn_laws.specs.Runs.{IsRun, is_loud, loud};

use op_laws::parts_are_of_written_objects;
use tree_sound::histories_keep_trees_sound;
use update_protocol::operations_have_laws;

/// A target is asked to be held, and answers, or ignores it. The call does nothing: its contract is a law, as that of
/// each call below.
pub fn a_hold_is_a_run()
    ensures { (targets : ℕ) → IsCount targets → (h : History) (c : Cluster) (w : World) → Reached targets h w → (g : Agrees targets c w) → (k to : ℕ) → to < length c.targets → serves (target_at c.targets to) ≡ true
        → (m : Message) → m.to ≡ to → m.from < 16 → (q : List Update) → FitsFacts (facts (target_at c.targets to).node (length (state_text (target_at c.targets to).node)) q)
        → TiedHold targets g.epoch g.sent g.asked w.since w.pool m (Questions q)
        → IsRun targets w (on_hold k (target_at c.targets to) m q).lines (after_turn c to (on_hold k (target_at c.targets to) m q)) }
{
    operations_have_laws();
    parts_are_of_written_objects();
    histories_keep_trees_sound();
}

/// A target gets the record of an operation: it executes its part, or ignores the record.
pub fn an_execute_is_a_run()
    ensures { (targets : ℕ) → IsCount targets → (h : History) (c : Cluster) (w : World) → Reached targets h w → (g : Agrees targets c w) → (k to : ℕ) → to < length c.targets → serves (target_at c.targets to) ≡ true
        → (m : Message) → m.to ≡ to → (r : Record) → TiedExecute targets g.epoch g.sent g.asked w.since w.pool m (Carries r)
        → IsRun targets w (on_execute k (target_at c.targets to) m r).lines (after_turn c to (on_execute k (target_at c.targets to) m r)) }
{
    operations_have_laws();
}

/// A target is let go, or notes that an attempt has ended, or ignores it.
pub fn a_release_is_a_run()
    ensures { (targets : ℕ) → IsCount targets → (h : History) (c : Cluster) (w : World) → Reached targets h w → (g : Agrees targets c w) → (k to : ℕ) → to < length c.targets → serves (target_at c.targets to) ≡ true
        → (m : Message) → m.to ≡ to → TiedRelease targets g.epoch g.sent g.asked w.since w.pool m
        → IsRun targets w (on_release k (target_at c.targets to) m).lines (after_turn c to (on_release k (target_at c.targets to) m)) }
{
    operations_have_laws();
}

/// A target is asked to commit: nothing waits, or it commits, or its disk fails, or it ignores it.
pub fn a_sync_is_a_run()
    ensures { (targets : ℕ) → IsCount targets → (h : History) (c : Cluster) (w : World) → Reached targets h w → (g : Agrees targets c w) → (k to : ℕ) → to < length c.targets → to < 16 → serves (target_at c.targets to) ≡ true
        → (m : Message) → m.to ≡ to → TiedSync targets g.epoch g.sent g.asked w.since w.pool m → (f : Fate)
        → IsRun targets w (on_sync k (target_at c.targets to) m f).lines (after_turn c to (on_sync k (target_at c.targets to) m f)) }
{
    operations_have_laws();
}

/// A target commits by a command, or stops since its disk failed; or it stops by a command, which says the same.
pub fn a_commit_is_a_run()
    ensures made { (targets : ℕ) → IsCount targets → (h : History) (c : Cluster) (w : World) → Reached targets h w → Agrees targets c w → (to : ℕ) → to < length c.targets → to < 16 → serves (target_at c.targets to) ≡ true → (f : Fate)
        → IsRun targets w (commits (target_at c.targets to) f).lines (after_turn c to (commits (target_at c.targets to) f)) }
    ensures failed { (targets : ℕ) → IsCount targets → (h : History) (c : Cluster) (w : World) → Reached targets h w → Agrees targets c w → (to : ℕ) → to < length c.targets → serves (target_at c.targets to) ≡ true → (f : Fate)
        → IsRun targets w (stops (target_at c.targets to) f).lines (after_turn c to (stops (target_at c.targets to) f)) }
{
    operations_have_laws();
}

/// A master is told that its batches are committed somewhere: its mark may rise, and then its own records up to
/// there are cancelled.
pub fn a_note_is_a_run()
    ensures { (targets : ℕ) → IsCount targets → (h : History) (c : Cluster) (w : World) → Reached targets h w → Agrees targets c w → (to : ℕ) → to < length c.targets → serves (target_at c.targets to) ≡ true
        → (from batch : ℕ) → from < 16 → IsIn (Stable from to batch) w.pool → IsRun targets w [] (after_turn c to (quiet (note (target_at c.targets to) from batch))) }
{
    operations_have_laws();
}

/// A target is told up to which batch the records of a master are committed everywhere, and cancels them.
pub fn a_cancel_is_a_run()
    ensures { (targets : ℕ) → IsCount targets → (h : History) (c : Cluster) (w : World) → Reached targets h w → Agrees targets c w → (to : ℕ) → to < length c.targets → serves (target_at c.targets to) ≡ true
        → (of mark : ℕ) → IsIn (Cancel of mark) w.pool
        → IsRun targets w [] (after_turn c to (quiet (record (target_at c.targets to) { node = cancelled (target_at c.targets to).node of mark }))) }
{
    operations_have_laws();
}

/// A home begins an attempt of a request that was sent: nothing holds it, and the number is new there. What the
/// attempt asks first comes after this.
pub fn an_attempt_begins_as_a_run()
    ensures { (targets : ℕ) (c : Cluster) (w : World) → (g : Agrees targets c w) → (to : ℕ) → to < length c.targets → serves (target_at c.targets to) ≡ true
        → (r : Request) (sent : List Request) → Unique sent → ((q : Request) → IsIn q g.sent → IsIn q sent) → IsIn r sent → home_of targets r.op ≡ Some to
        → (target_at c.targets to).node.holder ≡ None → r.client < length (target_at c.targets to).node.seats
        → (is_read r.op ≡ false → judged (get_or (target_at c.targets to).node.seats r.client None) r.number ≡ New)
        → (asks released : ℕ) (going : Going) → going.course.request ≡ r → IsRun targets w [] (after_turn c to (quiet (begun (target_at c.targets to) r asks released going))) }
{}

/// An attempt ends without a record, and its home lets go. Each target that it asked for a commit has answered, or
/// doesn't serve.
pub fn an_attempt_ends_as_a_run()
    ensures { (targets : ℕ) → IsCount targets → (h : History) (c : Cluster) (w : World) → Reached targets h w → Agrees targets c w → (to : ℕ) → to < length c.targets → serves (target_at c.targets to) ≡ true
        → (going : Going) → (target_at c.targets to).home.current ≡ Some going
        → ((a : Attempt) → w.trying to ≡ Some a → (t k : ℕ) → IsIn (Sync a t k) w.pool → (w.up t ≡ false) ⊎ IsIn (Synced a t) w.pool)
        → (flights : List Flight) (released : ℕ) (line : Line) → is_loud line ≡ false
        → IsRun targets w (ends_with (own_attempt (let_go (target_at c.targets to) flights released) going.course.request.number) (let_go (target_at c.targets to) flights released) line).lines
        (after_turn c to (ends_with (own_attempt (let_go (target_at c.targets to) flights released) going.course.request.number) (let_go (target_at c.targets to) flights released) line)) }
{
    operations_have_laws();
}

/// Two pieces of a turn of one target are one; and what a run makes of a world that was reached is reached.
pub fn runs_go_on()
    ensures pieces { (targets : ℕ) (w : World) (c : Cluster) (i : ℕ) (t u : Turned) → (r : IsRun targets w t.lines (after_turn c i t)) → IsRun targets r.world u.lines (after_turn (after_turn c i t) i u)
        → IsRun targets w (joins t u).lines (after_turn c i (joins t u)) }
    ensures reached { (targets : ℕ) (h : History) (w : World) (ls : List Line) (c : Cluster) → Reached targets h w → (r : IsRun targets w ls c) → Reached targets h r.world }
{}

/// A turn that leaves its target as it is, sends nothing and says nothing of what changed; and an answer that an
/// ended attempt was owed is noted.
pub fn an_idle_turn_is_a_run()
    ensures rests { (targets : ℕ) (c : Cluster) (w : World) → Agrees targets c w → (to : ℕ) → to < length c.targets → (u : Turned) → u.target ≡ target_at c.targets to → loud u.lines ≡ [] → u.sent ≡ []
        → IsRun targets w u.lines (after_turn c to u) }
    ensures owed { (targets : ℕ) (c : Cluster) (w : World) → Agrees targets c w → (to : ℕ) → to < length c.targets → (flights : List Flight)
        → IsRun targets w [] (after_turn c to (quiet (record (target_at c.targets to) { home = record (target_at c.targets to).home { flights = flights; released = 0 } }))) }
{}

/// As an epoch begins, the cluster agrees with a fresh world over the history that was kept.
pub fn a_new_epoch_agrees()
    ensures { (targets epoch : ℕ) (h : History) (c : Cluster) (sent : List Request) → Unique sent → length c.targets ≡ targets
        → ((t : ℕ) → t < targets → IsNew targets epoch h t (target_at c.targets t)) → ((t : ℕ) → serves (target_at c.targets t) ≡ true → t < targets)
        → ((m : Sent) → IsIn m c.sent → m.message.epoch ≢ epoch) → Agrees targets c (fresh (start_of c) h) }
{}
