//! Laws of homes: what a target does for its own requests is a run of the events of the protocol, while the cluster
//! agrees with a world of it. These are the turns that decide nothing: an attempt begins or hears of another target,
//! looks at home, and then asks a target or is over without a record; and what an ended attempt was owed is noted.
//! No code runs here: each function is a law, its contract says it, and a call does nothing. The layer above may
//! rest on this beside the laws of turns: after such a turn the cluster agrees again, and each ask has its own number.
#![tactic(auto)]

ghost use Rattle.std.specs.Prelude.{◌≡◌, ◌≢◌, ◌<◌, ◌≤◌, ◌⊎◌, ℕ, List, length, get_or, Some, None, true, false};
ghost use Rattle.op_laws.specs.Laws.{IsCount};
ghost use Rattle.tree_model.specs.Participants.{home_of};
ghost use Rattle.tree_model.specs.declared.op.Request.{Request};
ghost use Rattle.reply_cache.specs.Seats.{judged};
ghost use Rattle.reply_cache.specs.declared.seats.Judgement.TheVariants.{New};
ghost use Rattle.update_record.specs.declared.message.Message.{Message};
ghost use Rattle.scenario_text.specs.declared.line.Line.{Line};
ghost use Rattle.cluster_mail.specs.Mail.{Sent};
ghost use Rattle.update_coordinator.specs.declared.words.Event.{Event};
ghost use Rattle.update_coordinator.specs.declared.words.Event.TheVariants.{Executed, Released};
ghost use Rattle.update_coordinator.specs.declared.words.Going.{Going};
ghost use Rattle.cluster_mail.specs.declared.content.Content.{Content};
ghost use Rattle.target_turns.specs.Marks.{commits, stops};
ghost use Rattle.target_turns.specs.Home.{begins, hears, hears_awaited, holds_home, walks};
ghost use Rattle.target_turns.specs.Target.{Fate, Turned, says, serves};
ghost use Rattle.target_turns.specs.Turn.{awaits, bounced, on_done, turned};
ghost use Rattle.update_protocol.specs.Epochs.{Reached};
ghost use Rattle.update_protocol.specs.Lists.{IsIn};
ghost use Rattle.update_protocol.specs.Seats.{is_read};
ghost use Rattle.update_protocol.specs.World.{Attempt, History, Sync, Synced, World};
ghost use Rattle.turn_laws.specs.Values.{Cluster, Unique, after_turn, target_at};
ghost use Rattle.turn_laws.specs.Agrees.{Agrees};
ghost use Rattle.turn_laws.specs.Runs.{IsRun};
ghost use Rattle.home_laws.specs.Asking.{AreNumbered, AsksOrEnds, GivesNumbers, is_ask, is_of_attempt, is_order, is_told};

use update_protocol::operations_have_laws;

/// A request comes to its home, which nothing holds, and where its number is new. An attempt begins; it looks at
/// home, and asks another target or is over without a record. The call does nothing: its contract is a law, as that
/// of each call below.
pub fn a_request_begins_as_a_run()
    ensures { (targets : ℕ) → IsCount targets → (h : History) (c : Cluster) (w : World) → Reached targets h w → (g : Agrees targets c w) → AreNumbered c → (to : ℕ) → to < length c.targets → serves (target_at c.targets to) ≡ true
        → (r : Request) (sent : List Request) → Unique sent → ((q : Request) → IsIn q g.sent → IsIn q sent) → IsIn r sent → home_of targets r.op ≡ Some to
        → (target_at c.targets to).node.holder ≡ None → r.client < length (target_at c.targets to).node.seats
        → (is_read r.op ≡ false → judged (get_or (target_at c.targets to).node.seats r.client None) r.number ≡ New)
        → (f : Fate) → AsksOrEnds targets to (walks (holds_home (target_at c.targets to) r).target (holds_home (target_at c.targets to) r).action).action
        → IsRun targets w (begins (target_at c.targets to) r f).lines (after_turn c to (begins (target_at c.targets to) r f)) }
{
    operations_have_laws();
}

/// An attempt hears of a target what it waits for, or that the target is held or down. It looks at home, and asks
/// another target or is over without a record; each target that it had asked for a commit has answered, or doesn't
/// serve.
pub fn an_answer_goes_on_as_a_run()
    ensures { (targets : ℕ) → IsCount targets → (h : History) (c : Cluster) (w : World) → Reached targets h w → Agrees targets c w → AreNumbered c → (to : ℕ) → to < length c.targets → serves (target_at c.targets to) ≡ true
        → (going : Going) → (target_at c.targets to).home.current ≡ Some going
        → ((a : Attempt) → w.trying to ≡ Some a → (t k : ℕ) → IsIn (Sync a t k) w.pool → (w.up t ≡ false) ⊎ IsIn (Synced a t) w.pool)
        → (f : Fate) (e : Event) → is_of_attempt e ≡ true
        → AsksOrEnds targets to (walks (hears (target_at c.targets to) e).target (hears (target_at c.targets to) e).action).action
        → IsRun targets w (hears_awaited (target_at c.targets to) going.course.request.number e f).lines (after_turn c to (hears_awaited (target_at c.targets to) going.course.request.number e f)) }
{
    operations_have_laws();
}

/// A target tells the home that it has executed its part, or let go: this is noted where it was owed, and ignored
/// otherwise.
pub fn an_owed_answer_is_a_run()
    ensures executed { (targets : ℕ) (c : Cluster) (w : World) → Agrees targets c w → (to : ℕ) → to < length c.targets → (k : ℕ) (m : Message) (t attempt : ℕ)
        → IsRun targets w (on_done k (target_at c.targets to) m (Executed t attempt)).lines (after_turn c to (on_done k (target_at c.targets to) m (Executed t attempt))) }
    ensures released { (targets : ℕ) (c : Cluster) (w : World) → Agrees targets c w → (to : ℕ) → to < length c.targets → (k : ℕ) (m : Message) (t attempt : ℕ)
        → IsRun targets w (on_done k (target_at c.targets to) m (Released t attempt)).lines (after_turn c to (on_done k (target_at c.targets to) m (Released t attempt))) }
{}

/// The numbers of asks stay given by a turn that gives more of them in order and answers under the number of an
/// order that came, and by one after which the target doesn't serve; and what is neither an order nor an answer may
/// be sent. As an epoch begins nothing is held, and no attempt of the home itself noted as ended.
pub fn numbers_stay_given()
    ensures turn { (c : Cluster) → AreNumbered c → (to : ℕ) → to < length c.targets → serves (target_at c.targets to) ≡ true → (u : Turned) → GivesNumbers c to u → AreNumbered (after_turn c to u) }
    ensures messages { (c d : Cluster) → AreNumbered c → d.targets ≡ c.targets
        → ((m : Sent) → IsIn m d.sent → (is_order m.message.kind ≡ true) ⊎ (is_told m.message.kind ≡ true) → (n : Sent) × IsIn n c.sent × (n.message ≡ m.message)) → AreNumbered d }
    ensures epoch { (c : Cluster) → ((t : ℕ) → serves (target_at c.targets t) ≡ true → ((target_at c.targets t).node.holder ≡ None) × (get_or (target_at c.targets t).node.ended t 0 ≡ 0)
        × ((m : Sent) → IsIn m c.sent → m.message.epoch ≢ (target_at c.targets t).node.epoch)) → AreNumbered c }
{}

/// They do so by each turn that a message makes, whatever its target does then; by the turn of a home which hears that
/// what it asked for doesn't serve; and by a commit or a stop by a command.
pub fn a_turn_gives_numbers_in_order()
    ensures message { (targets : ℕ) (c : Cluster) (w : World) → Agrees targets c w → AreNumbered c → (to : ℕ) → to < length c.targets → serves (target_at c.targets to) ≡ true
        → (k : ℕ) (m : Sent) → IsIn m c.sent → m.message.to ≡ to → (x : Content) (f : Fate) → AreNumbered (after_turn c to (turned k (target_at c.targets to) m.message x f)) }
    ensures bounce { (targets : ℕ) (c : Cluster) (w : World) → Agrees targets c w → AreNumbered c → (to : ℕ) → to < length c.targets → serves (target_at c.targets to) ≡ true
        → (m : Sent) → IsIn m c.sent → m.message.from ≡ to → is_ask m.message.kind ≡ true → awaits (target_at c.targets to) m.message ≡ true → (f : Fate) → AreNumbered (after_turn c to (bounced (target_at c.targets to) m.message f)) }
    ensures away { (c : Cluster) → AreNumbered c → (to : ℕ) → to < length c.targets → (ls : List Line) → AreNumbered (after_turn c to (says (target_at c.targets to) ls)) }
    ensures commit { (c : Cluster) → AreNumbered c → (to : ℕ) → to < length c.targets → serves (target_at c.targets to) ≡ true → (f : Fate) → AreNumbered (after_turn c to (commits (target_at c.targets to) f)) }
    ensures stop { (c : Cluster) → AreNumbered c → (to : ℕ) → to < length c.targets → serves (target_at c.targets to) ≡ true → (f : Fate) → AreNumbered (after_turn c to (stops (target_at c.targets to) f)) }
{}
