//! The protocol of the cluster as a machine, and what holds of each of its runs. The world of the cluster is a
//! value; its events are what a target or a home does, and each has a guard that says no more than the target or
//! the home can know. Whatever is delivered, lost, repeated or stopped, what was accepted is one legal history, and
//! what a recovery keeps is a part of it that may be kept. No code runs here: each function is a law, its contract
//! says it, and a call does nothing. The layer above rests on the laws where its turns are events of this machine.
#![tactic(auto)]

ghost use Rattle.std.specs.Prelude.{[], Bool, List, None, Some, false, length, suc, take, true, ℕ, ◌++◌, ◌+◌, ◌∷◌, ◌<◌, ◌≡◌, ◌≢◌, ◌⊎◌};
ghost use Rattle.std.specs.FinMap.{get};
ghost use Rattle.fid_space.specs.Targets.{is_member};
ghost use Rattle.fid_space.specs.declared.fid.Fid.{Fid};
ghost use Rattle.tree_model.specs.History.{IsLegal, tree_of};
ghost use Rattle.tree_model.specs.Participants.{home_of};
ghost use Rattle.tree_model.specs.Kept.{HasNumber, IsKept, laid_of};
ghost use Rattle.tree_model.specs.Step.{step};
ghost use Rattle.tree_model.specs.Striped.{on};
ghost use Rattle.tree_model.specs.declared.errno.Errno.{Errno};
ghost use Rattle.tree_model.specs.declared.op.Request.{Request};
ghost use Rattle.tree_model.specs.declared.reply.Reply.{Reply};
ghost use Rattle.update_protocol.specs.Epochs.{Epoch, Reached, Story, kept_of};
ghost use Rattle.update_protocol.specs.Events.{Accept, Adopt, AreHeard, Commit, Execute_comes, Forget, Give_up, May, Run, Send, Start, Stop, Sync_comes, Tear, fresh, happens, has_now};
ghost use Rattle.op_laws.specs.Laws.{IsCount};
ghost use Rattle.update_protocol.specs.Facts.{AreTrue, Fits, Imply};
ghost use Rattle.update_protocol.specs.Groups.{Send as Send_request, begun, made_with};
ghost use Rattle.update_protocol.specs.Laws.{Laws};
ghost use Rattle.update_protocol.specs.Lists.{IsIn, Rising, put};
ghost use Rattle.update_protocol.specs.Machine.{Accept as Accept_line, Done, Down, End_clean, Full, Line, Log, Needs, Opened, Recovered, Recovering, Redone, Replies, Says, SaysAll, Serving, Shared, Shows, Stable, Stale, State, Stopped, Up, room_of, stands_after, stays_smooth};
ghost use Rattle.update_protocol.specs.Near.{Cause};
ghost use Rattle.update_protocol.specs.States.{IsSplit, Spoken, committed_all, gathered_state, listed, number_at, numbers_at, redone_lines, stable_lines, state_of};
ghost use Rattle.update_protocol.specs.Parts.{IsSent, all_of, entries_of, numbers_of, passing};
ghost use Rattle.update_protocol.specs.Progress.{Asking, Note, Turn, Turns, idle};
ghost use Rattle.update_protocol.specs.Recovery.{Gathered, Redo, before_item, kept_items};
ghost use Rattle.update_protocol.specs.Rows.{AreOfCut, FitsLog, FitsTarget, live, pending};
ghost use Rattle.update_protocol.specs.Seats.{Newest, is_read};
ghost use Rattle.tree_shares.specs.Seats.{IsLast, share_of};
ghost use Rattle.update_protocol.specs.World.{Accepted, Answer, Attempt, Covers, Each, Follows, History, Named, Sync, Synced, World, after_items, at, count_home, facts_of, is_on, made, master, request_of, saw_of, wrote_of};
ghost use Rattle.update_record.specs.Spelling.{targets_from};

use op_laws::{
    keys_follow_objects, looks_are_told, objects_are_those_of_looks,
    objects_have_keys_of_their_owners, objects_stand_with_their_owners,
    parts_are_of_written_objects, written_objects_take_part,
};
use tree_model::{
    layouts_are_beside_the_tree, only_looks_matter, only_written_keys_change,
    the_step_is_decided_by_looks,
};
use tree_shares::{parts_are_of_targets, seats_are_last, shares_tell};
use tree_sound::{histories_keep_trees_sound, parents_name_their_directories};
use update_record::targets_are_those_of_the_parts;

/// All that the protocol needs of single operations, over the trees of histories. The call does nothing: its contract
/// is a law, as that of each call below.
pub fn operations_have_laws()
    ensures laws { (targets : ℕ) → IsCount targets → Laws targets }
{
    only_looks_matter();
    only_written_keys_change();
    the_step_is_decided_by_looks();
    layouts_are_beside_the_tree();
    histories_keep_trees_sound();
    parts_are_of_targets();
    objects_are_those_of_looks();
    written_objects_take_part();
    looks_are_told();
    keys_follow_objects();
    objects_stand_with_their_owners();
    objects_have_keys_of_their_owners();
    parts_are_of_written_objects();
}

/// Whatever is delivered, lost, repeated or stopped: what is named, with a front of what is pending at each target,
/// is a part that may be kept. It is a legal history, and it has each item on which one of its items depends.
pub fn every_cut_is_kept()
    ensures kept { (targets : ℕ) → IsCount targets → (h : History) (w : World) → Reached targets h w
        → (sent : ℕ → Request) → IsSent sent (h ++ entries_of w.since) → (cut : ℕ → ℕ) (kept : ℕ → Bool) → AreOfCut w cut kept
        → IsKept targets (h ++ entries_of w.since) (numbers_of (h ++ entries_of (kept_items kept 0 w.since))) (all_of h ++ passing kept 0 w.since) }
{
    operations_have_laws();
}

/// At each moment what was accepted is a legal history, and each item is what its operation is on the tree before it.
pub fn history_is_legal()
    ensures legal { (targets : ℕ) → IsCount targets → (h : History) (w : World) → Reached targets h w
        → (sent : ℕ → Request) → IsSent sent (h ++ entries_of w.since) → IsLegal targets (h ++ entries_of w.since) }
    ensures participants { (targets : ℕ) → IsCount targets → (h : History) (w : World) → Reached targets h w
        → Each (λ n x. targets_from 0 x.parts ≡ on targets (laid_of targets (before_item h w.since n)) (request_of x).op) w.since }
    ensures items { (targets : ℕ) → IsCount targets → (h : History) (w : World) → Reached targets h w → Follows targets h w.since }
{
    operations_have_laws();
}

/// What is accepted is new: no item has its number, and those of its client and home have smaller ones, over all epochs. A
/// seat of a home that is up has the last number of its client there and its reply, over all epochs.
pub fn what_is_accepted_is_new()
    ensures newest { (targets : ℕ) → IsCount targets → (h : History) (w : World) → Reached targets h w
        → (m : ℕ) (x : Accepted) → May targets w (Accept m x) → Newest targets (h ++ entries_of w.since) (request_of x) }
    ensures once { (targets : ℕ) → IsCount targets → (h : History) (w : World) → Reached targets h w
        → (m : ℕ) (x : Accepted) → May targets w (Accept m x) → (sent : ℕ → Request) → IsSent sent (h ++ entries_of w.since)
        → request_of x ≡ sent (request_of x).number → HasNumber (request_of x).number (h ++ entries_of w.since) → ⊥ }
    ensures seats { (targets : ℕ) → IsCount targets → (h : History) (w : World) → Reached targets h w → (t : ℕ) → w.up t ≡ true → (client : ℕ)
        → IsLast targets t client (h ++ entries_of w.since) (get (has_now targets w t).seats client) }
{
    operations_have_laws();
    seats_are_last();
}

/// What an attempt was told is true of the history as it is now, as long as the attempt is current: what follows over each
/// history of which it is true follows over this one.
pub fn what_is_told_is_true()
    ensures told { (targets : ℕ) → IsCount targets → (h : History) (w : World) → Reached targets h w → (m : ℕ) (a : Attempt) → w.trying m ≡ Some a → (answers : List Answer) → AreHeard targets w.pool a answers
        → AreTrue targets (laid_of targets (h ++ entries_of w.since)) (facts_of answers) }
    ensures fits { (targets : ℕ) → IsCount targets → (h : History) (w : World) → Reached targets h w → length (h ++ entries_of w.since) < 0x0ffffffe → Fits targets (h ++ entries_of w.since) }
{
    operations_have_laws();
}

/// Who wrote an object before that an accepted operation wrote or was told of is named by some target, or is on each target
/// of the operation. So neither an operation nor a refusal is accepted where it rests on a writer that no target has
/// committed and that lacks one of its targets.
pub fn what_an_accept_rests_on_is_safe()
    ensures safe { (targets : ℕ) → IsCount targets → (h : History) (w : World) → Reached targets h w → (m : ℕ) (x : Accepted) → May targets w (Accept m x) → (n : ℕ) → n < length w.since → (f : Fid) → wrote_of (at w.since n) f ≡ true
        → (saw_of x f ≡ true) ⊎ (wrote_of x f ≡ true) → Named w.disk n ⊎ Covers (at w.since n) x }
    ensures waits { (targets : ℕ) → IsCount targets → (h : History) (w : World) → Reached targets h w → (m : ℕ) (x : Accepted) (n : ℕ) → n < length w.since → (f : Fid) → wrote_of (at w.since n) f ≡ true → saw_of x f ≡ true
        → (Named w.disk n → ⊥) → (lacks : ℕ) → is_on x lacks ≡ true → is_on (at w.since n) lacks ≡ false → May targets w (Accept m x) → ⊥ }
{
    operations_have_laws();
}

/// A target that is up and that nothing holds has its share of all that was accepted, with its seats. So has its disk where
/// everything there is committed.
pub fn a_free_target_has_its_share()
    ensures memory { (targets : ℕ) → IsCount targets → (h : History) (w : World) → Reached targets h w → (t : ℕ) → t < targets → w.up t ≡ true → w.holder t ≡ None
        → has_now targets w t ≡ share_of targets (h ++ entries_of w.since) t }
    ensures disk { (targets : ℕ) → IsCount targets → (h : History) (w : World) → Reached targets h w → (t : ℕ) → t < targets → w.up t ≡ true → w.holder t ≡ None → ((n : ℕ) → IsIn n (w.done t) → IsIn n (w.disk t))
        → made targets w.since t (w.disk t) (share_of targets h t) ≡ share_of targets (h ++ entries_of w.since) t }
{
    operations_have_laws();
}

/// What lines may show. What is pending at a target stands behind what is committed there. Both images that its disk
/// may have after a commit that failed fit it, and so does its log; the transaction number is counted from the
/// epoch's start.
pub fn what_lines_show()
    ensures pends { (targets : ℕ) → IsCount targets → (h : History) (w : World) → Reached targets h w → (t : ℕ) → w.done t ≡ w.disk t ++ pending w t }
    ensures old_image { (targets : ℕ) → IsCount targets → (h : History) (w : World) → Reached targets h w → (t : ℕ) → FitsTarget w.since w.disk t (length (w.disk t)) (live (w.disk t) (w.kept_gone t)) }
    ensures new_image { (targets : ℕ) → IsCount targets → (h : History) (w : World) → Reached targets h w → (t : ℕ) → FitsTarget w.since w.disk t (length (w.torn t)) (live (w.torn t) (w.torn_gone t)) }
    ensures log { (targets : ℕ) → IsCount targets → (h : History) (w : World) → Reached targets h w → (t : ℕ) → FitsLog w t (live (w.done t) (w.gone t)) }
    ensures position { (targets : ℕ) → IsCount targets → (h : History) (w : World) → Reached targets h w → Each (λ n a. a.batch ≡ suc (count_home (master a) (take n w.since))) w.since }
{
    operations_have_laws();
}

/// What is pending at each target after an event: one more where it executes, nothing where it commits, stops or is
/// read again. Any other event leaves it as it is.
pub fn what_is_pending()
    ensures accepted { (targets : ℕ) → IsCount targets → (h : History) (w : World) → Reached targets h w → (m : ℕ) (x : Accepted) (s : ℕ) → pending (happens w (Accept m x)) s ≡ put (pending w) m (pending w m ++ length w.since ∷ []) s }
    ensures executed { (targets : ℕ) → IsCount targets → (h : History) (w : World) → Reached targets h w → (n t s : ℕ) → pending (happens w (Execute_comes n t)) s ≡ put (pending w) t (pending w t ++ n ∷ []) s }
    ensures committed { (targets : ℕ) → IsCount targets → (h : History) (w : World) → Reached targets h w → (t s : ℕ) → pending (happens w (Commit t)) s ≡ put (pending w) t [] s }
    ensures stopped { (targets : ℕ) → IsCount targets → (h : History) (w : World) → Reached targets h w → (t s : ℕ) → pending (happens w (Stop t)) s ≡ put (pending w) t [] s }
    ensures torn { (targets : ℕ) → IsCount targets → (h : History) (w : World) → Reached targets h w → (t s : ℕ) → pending (happens w (Tear t)) s ≡ put (pending w) t [] s }
    ensures adopted { (targets : ℕ) → IsCount targets → (h : History) (w : World) → Reached targets h w → (t s : ℕ) → pending (happens w (Adopt t)) s ≡ put (pending w) t [] s }
{
    operations_have_laws();
}

/// A record that comes to be executed at a target names it, wasn't executed there, and has another home.
pub fn each_record_is_executed_once()
    ensures once { (targets : ℕ) → IsCount targets → (h : History) (w : World) → Reached targets h w → (n t : ℕ) → May targets w (Execute_comes n t)
        → (n < length w.since) × (is_on (at w.since n) t ≡ true) × (IsIn n (w.done t) → ⊥) × (t ≡ master (at w.since n) → ⊥) }
{
    operations_have_laws();
}

/// Where a target that an attempt holds is asked for a sync and has something that isn't committed, the writer that
/// the message names is pending there, is near to the request, and lacks one of its participants.
pub fn each_shared_line_has_its_cause()
    ensures cause { (targets : ℕ) → IsCount targets → (h : History) (w : World) → Reached targets h w
        → length (h ++ entries_of w.since) < 0x0ffffffe → (a : Attempt) (t k : ℕ) → IsIn (Sync a t k) w.pool → w.serving ≡ true
        → w.up t ≡ true → w.holder t ≡ Some a → (n : ℕ) → IsIn n (pending w t) → Cause targets w t k a.who.request }
{
    operations_have_laws();
}

/// A record is cancelled only where it is committed on each of its targets, whether in a target's memory, on its disk, or in
/// the image that a failed commit may have left.
pub fn a_cancelled_record_is_everywhere()
    ensures everywhere { (targets : ℕ) → IsCount targets → (h : History) (w : World) → Reached targets h w
        → (t n : ℕ) → IsIn n (w.gone t) → (s : ℕ) → is_on (at w.since n) s ≡ true → IsIn n (w.disk s) }
    ensures on_disk { (targets : ℕ) → IsCount targets → (h : History) (w : World) → Reached targets h w
        → (t n : ℕ) → IsIn n (w.kept_gone t) → (s : ℕ) → is_on (at w.since n) s ≡ true → IsIn n (w.disk s) }
    ensures torn { (targets : ℕ) → IsCount targets → (h : History) (w : World) → Reached targets h w
        → (t n : ℕ) → IsIn n (w.torn_gone t) → (s : ℕ) → is_on (at w.since n) s ≡ true → IsIn n (w.disk s) }
{
    operations_have_laws();
}

/// What a recovery begins with is gathered where everything is committed that will be, and redo leaves it so. What is redone
/// is the same whether the marks and the cancelled records are those that are committed or those in memory.
pub fn what_is_gathered()
    ensures committed { (targets : ℕ) → IsCount targets → (h : History) (w : World) → Reached targets h w → (kept : ℕ → Bool) → Each (λ n a. (kept n ≡ true → Named w.disk n) × (Named w.disk n → kept n ≡ true)) w.since
        → Gathered targets w.base w.since w.disk w.kept_mark w.kept_gone kept }
    ensures in_memory { (targets : ℕ) → IsCount targets → (h : History) (w : World) → Reached targets h w → (kept : ℕ → Bool) → Each (λ n a. (kept n ≡ true → Named w.disk n) × (Named w.disk n → kept n ≡ true)) w.since
        → Gathered targets w.base w.since w.disk w.mark w.gone kept }
    ensures redone { (targets : ℕ) → IsCount targets → (base : History) (since : List Accepted) (disk : ℕ → List ℕ) (mark : ℕ → ℕ) (gone : ℕ → List ℕ) (kept : ℕ → Bool)
        → Gathered targets base since disk mark gone kept → (t : ℕ) (extra : List ℕ) → Redo since disk mark gone t extra → Gathered targets base since (put disk t (disk t ++ extra)) mark gone kept }
    ensures alike { (targets : ℕ) → IsCount targets → (base : History) (since : List Accepted) (disk : ℕ → List ℕ) (mark : ℕ → ℕ) (gone : ℕ → List ℕ) (kept : ℕ → Bool)
        → Gathered targets base since disk mark gone kept → (other : ℕ → ℕ) (dropped : ℕ → List ℕ) → Gathered targets base since disk other dropped kept
        → (t : ℕ) (extra : List ℕ) → Redo since disk mark gone t extra → Redo since disk other dropped t extra }
{
    operations_have_laws();
}

/// What a recovery redoes at a target: exactly the kept items that name it and that it lacks, in the order of the
/// history.
pub fn what_is_redone()
    ensures order { (targets : ℕ) → IsCount targets → (base : History) (since : List Accepted) (disk : ℕ → List ℕ) (mark : ℕ → ℕ) (gone : ℕ → List ℕ) (kept : ℕ → Bool)
        → Gathered targets base since disk mark gone kept → (t : ℕ) (extra : List ℕ) → Redo since disk mark gone t extra → Rising extra }
    ensures redone { (targets : ℕ) → IsCount targets → (base : History) (since : List Accepted) (disk : ℕ → List ℕ) (mark : ℕ → ℕ) (gone : ℕ → List ℕ) (kept : ℕ → Bool)
        → Gathered targets base since disk mark gone kept → (t : ℕ) (extra : List ℕ) → Redo since disk mark gone t extra → (n : ℕ) → IsIn n extra
        → (n < length since) × (is_on (at since n) t ≡ true) × (kept n ≡ true) × (IsIn n (disk t) → ⊥) }
    ensures all { (targets : ℕ) → IsCount targets → (base : History) (since : List Accepted) (disk : ℕ → List ℕ) (mark : ℕ → ℕ) (gone : ℕ → List ℕ) (kept : ℕ → Bool)
        → Gathered targets base since disk mark gone kept → (t : ℕ) (extra : List ℕ) → Redo since disk mark gone t extra → (n : ℕ) → n < length since → is_on (at since n) t ≡ true → kept n ≡ true → (IsIn n (disk t) → ⊥) → IsIn n extra }
{
    operations_have_laws();
}

/// In a recovery both images that a target's disk may have fit it: the one before the redone records, and the one
/// with them.
pub fn what_a_redo_shows()
    ensures old_image { (targets : ℕ) → IsCount targets → (base : History) (since : List Accepted) (disk : ℕ → List ℕ) (mark : ℕ → ℕ) (gone : ℕ → List ℕ) (kept : ℕ → Bool)
        → Gathered targets base since disk mark gone kept → (t : ℕ) (extra : List ℕ) → Redo since disk mark gone t extra → FitsTarget since disk t (length (disk t)) (live (disk t) (gone t)) }
    ensures new_image { (targets : ℕ) → IsCount targets → (base : History) (since : List Accepted) (disk : ℕ → List ℕ) (mark : ℕ → ℕ) (gone : ℕ → List ℕ) (kept : ℕ → Bool)
        → Gathered targets base since disk mark gone kept → (t : ℕ) (extra : List ℕ) → Redo since disk mark gone t extra → FitsTarget since disk t (length (disk t ++ extra)) (live (disk t ++ extra) (gone t)) }
{
    operations_have_laws();
}

/// A completed recovery, stopped and begun again as often as may be, keeps whole operations: a part that may be kept,
/// on each target exactly its share of it.
pub fn a_recovery_keeps_whole_operations()
    ensures kept { (targets : ℕ) → IsCount targets → (h : History) → Story targets h → (e : Epoch targets h) → (sent : ℕ → Request) → IsSent sent (h ++ entries_of e.world.since)
        → IsKept targets (h ++ entries_of e.world.since) (numbers_of (h ++ entries_of (kept_of targets h e))) (all_of h ++ passing e.kept 0 e.world.since) }
    ensures whole { (targets : ℕ) → IsCount targets → (h : History) → Story targets h → (e : Epoch targets h) → (t n : ℕ) → n < length e.world.since → e.kept n ≡ true → is_on (at e.world.since n) t ≡ true → IsIn n (e.disks t) }
    ensures absent { (targets : ℕ) → IsCount targets → (h : History) → Story targets h → (e : Epoch targets h) → (t n : ℕ) → IsIn n (e.disks t) → e.kept n ≡ true }
    ensures renewed { (targets : ℕ) → IsCount targets → (h : History) → Story targets h → (e : Epoch targets h) → (t : ℕ) → FitsTarget e.world.since e.disks t (length (e.disks t)) [] }
    ensures shares { (targets : ℕ) → IsCount targets → (h : History) → Story targets h → (e : Epoch targets h) → (t : ℕ) → t < targets
        → made targets e.world.since t (e.disks t) (share_of targets h t) ≡ share_of targets (h ++ entries_of (kept_of targets h e)) t }
{
    operations_have_laws();
}

/// Over any number of epochs all that was kept is one legal history.
pub fn all_epochs_are_one_history()
    ensures legal { (targets : ℕ) → IsCount targets → (h : History) → Story targets h → (sent : ℕ → Request) → IsSent sent h → IsLegal targets h }
{
    operations_have_laws();
}

/// Without a loss or a stop: where every message was delivered and each current attempt awaits an answer, nothing is
/// held.
pub fn nothing_is_held_when_all_is_delivered()
    ensures free { (turns : List Turn) (w : Asking) → Turns idle turns w → w.fresh ≡ []
        → ((m : ℕ) (a : Attempt) → w.trying m ≡ Some a → (p : Note) × IsIn p (w.awaits m)) → (t : ℕ) (a : Attempt) → w.holder t ≢ Some a }
{}

/// What events say in the plain machine over several targets, whose state is a function of the world and of what commands
/// and lines say by themselves: from the state before, the line of the event may be said, and the state after it is that
/// of the next world.
pub fn events_say_rows()
    ensures accepted { (targets : ℕ) → IsCount targets → (h : History) (w : World) → Reached targets h w → (sent : ℕ → Request) → IsSent sent (h ++ entries_of w.since) → (o : Spoken)
        → (m : ℕ) (x : Accepted) → May targets w (Accept m x) → request_of x ≡ sent (request_of x).number → IsIn (request_of x) o.sent → o.standing m ≡ Serving → (rest : List Line)
        → Says (state_of targets o w) (Accept_line (request_of x).number x.reply (targets_from 0 x.parts)) (Replies (request_of x).number x.reply ∷ rest) (state_of targets o (happens w (Accept m x))) }
    ensures executed { (targets : ℕ) → IsCount targets → (h : History) (w : World) → Reached targets h w → (sent : ℕ → Request) → IsSent sent (h ++ entries_of w.since) → (o : Spoken)
        → (n t : ℕ) → May targets w (Execute_comes n t) → o.standing t ≡ Serving → (others : List Line)
        → Says (state_of targets o w) (Done (number_at w.since n) t) others (state_of targets o (happens w (Execute_comes n t))) }
    ensures committed { (targets : ℕ) → IsCount targets → (h : History) (w : World) → Reached targets h w → (sent : ℕ → Request) → IsSent sent (h ++ entries_of w.since) → (o : Spoken)
        → (t : ℕ) (others : List Line) → Says (state_of targets o w) (Stable t (numbers_at w.since (pending w t))) others (state_of targets o (happens w (Commit t))) }
    ensures stopped { (targets : ℕ) → IsCount targets → (h : History) (w : World) → Reached targets h w → (sent : ℕ → Request) → IsSent sent (h ++ entries_of w.since) → (o : Spoken)
        → (t : ℕ) (others : List Line) → Says (state_of targets o w) (Stopped t) others (state_of targets (record o { standing = stands_after others t o.standing; smooth = stays_smooth others o.smooth }) (happens w (Stop t))) }
    ensures torn { (targets : ℕ) → IsCount targets → (h : History) (w : World) → Reached targets h w → (sent : ℕ → Request) → IsSent sent (h ++ entries_of w.since) → (o : Spoken)
        → (t : ℕ) (others : List Line) → Says (state_of targets o w) (Stopped t) others (state_of targets (record o { standing = stands_after others t o.standing; smooth = stays_smooth others o.smooth }) (happens w (Tear t))) }
    ensures kept_image { (targets : ℕ) → IsCount targets → (h : History) (w : World) → Reached targets h w → (sent : ℕ → Request) → IsSent sent (h ++ entries_of w.since) → (o : Spoken)
        → (t : ℕ) (others : List Line) → Says (state_of targets o w) (Up t (o.start t + length (w.disk t)) (numbers_at w.since (live (w.disk t) (w.kept_gone t)))) others (state_of targets (record o { standing = put o.standing t Opened }) w) }
    ensures new_image { (targets : ℕ) → IsCount targets → (h : History) (w : World) → Reached targets h w → (sent : ℕ → Request) → IsSent sent (h ++ entries_of w.since) → (o : Spoken)
        → (t : ℕ) → May targets w (Adopt t) → (others : List Line) → Says (state_of targets o w) (Up t (o.start t + length (w.torn t)) (numbers_at w.since (live (w.torn t) (w.torn_gone t)))) others (state_of targets (record o { standing = put o.standing t Opened }) (happens w (Adopt t))) }
{
    operations_have_laws();
    targets_are_those_of_the_parts();
}

/// What a home answers, as lines: behind an accept, to a repeat, to a request that is late, and to a read whose answers
/// were told.
pub fn answers_say_rows()
    ensures answered { (targets : ℕ) → IsCount targets → (h : History) (w : World) → Reached targets h w → (sent : ℕ → Request) → IsSent sent (h ++ entries_of w.since) → (o : Spoken)
        → (m : ℕ) (x : Accepted) → May targets w (Accept m x) → IsIn (request_of x) o.sent → o.standing m ≡ Serving → (others : List Line)
        → Says (state_of targets o (happens w (Accept m x))) (Replies (request_of x).number x.reply) others (state_of targets o (happens w (Accept m x))) }
    ensures repeated { (targets : ℕ) → IsCount targets → (h : History) (w : World) → Reached targets h w → (sent : ℕ → Request) → IsSent sent (h ++ entries_of w.since) → (o : Spoken)
        → (t : ℕ) → w.up t ≡ true → (q : Request) → home_of targets q.op ≡ Some t → (reply : Reply) → get (has_now targets w t).seats q.client ≡ Some (q.number, reply)
        → q ≡ sent q.number → IsIn q o.sent → is_read q.op ≡ false → o.standing t ≡ Serving → (others : List Line) → Says (state_of targets o w) (Replies q.number reply) others (state_of targets o w) }
    ensures late { (targets : ℕ) → IsCount targets → (h : History) (w : World) → Reached targets h w → (sent : ℕ → Request) → IsSent sent (h ++ entries_of w.since) → (o : Spoken)
        → (t : ℕ) → w.up t ≡ true → (q : Request) → home_of targets q.op ≡ Some t → (last : ℕ) (reply : Reply) → get (has_now targets w t).seats q.client ≡ Some (last, reply) → q.number < last
        → IsIn q o.sent → is_read q.op ≡ false → o.standing t ≡ Serving → (others : List Line) → Says (state_of targets o w) (Stale q.number last) others (state_of targets o w) }
    ensures read { (targets : ℕ) → IsCount targets → (h : History) (w : World) → Reached targets h w → (sent : ℕ → Request) → IsSent sent (h ++ entries_of w.since) → (o : Spoken)
        → (m : ℕ) (a : Attempt) → w.trying m ≡ Some a → IsIn a.who.request o.sent → is_read a.who.request.op ≡ true → o.standing m ≡ Serving → length (h ++ entries_of w.since) < 0x0ffffffe
        → (answers : List Answer) → AreHeard targets w.pool a answers → (reply : Reply) → Imply targets (facts_of answers) (λ l. reply ≡ (step targets l.tree a.who.request.op).1) → (others : List Line)
        → Says (state_of targets o w) (Replies a.who.request.number reply) others (state_of targets o (happens w (Give_up m a))) }
{
    operations_have_laws();
    seats_are_last();
}

/// Why a request that came isn't served, and why a commit is shared for one, as lines: its home doesn't serve, or another
/// target that its answers show it to need; a target that it is on has no room; an entry near to it lacks one of its targets.
pub fn refusals_say_rows()
    ensures home_stopped { (targets : ℕ) → IsCount targets → (h : History) (w : World) → Reached targets h w → (sent : ℕ → Request) → IsSent sent (h ++ entries_of w.since) → (o : Spoken)
        → (q : Request) (t : ℕ) → IsIn q o.sent → home_of targets q.op ≡ Some t → (o.standing t ≡ Serving → ⊥) → (others : List Line)
        → Says (state_of targets o w) (Recovering q.number t) others (state_of targets o w) }
    ensures other_stopped { (targets : ℕ) → IsCount targets → (h : History) (w : World) → Reached targets h w → (sent : ℕ → Request) → IsSent sent (h ++ entries_of w.since) → (o : Spoken) → (m : ℕ) (a : Attempt) → w.trying m ≡ Some a → IsIn a.who.request o.sent → length (h ++ entries_of w.since) < 0x0ffffffe
        → (answers : List Answer) → AreHeard targets w.pool a answers
        → (t : ℕ) → Imply targets (facts_of answers) (λ l. Needs targets l a.who.request.op t) → (o.standing t ≡ Serving → ⊥) → (others : List Line)
        → Says (state_of targets o w) (Recovering a.who.request.number t) others (state_of targets o w) }
    ensures full { (targets : ℕ) → IsCount targets → (h : History) (w : World) → Reached targets h w → (sent : ℕ → Request) → IsSent sent (h ++ entries_of w.since) → (o : Spoken) → (m : ℕ) (a : Attempt) → w.trying m ≡ Some a → IsIn a.who.request o.sent → length (h ++ entries_of w.since) < 0x0ffffffe
        → (answers : List Answer) → AreHeard targets w.pool a answers
        → is_read a.who.request.op ≡ false → o.standing m ≡ Serving → (t load : ℕ) → Imply targets (facts_of answers) (λ l. is_member (on targets l a.who.request.op) t ≡ true)
        → 5242880 < load + room_of a.who.request.op → (others : List Line)
        → Says (state_of targets o w) (Full a.who.request.number t load (room_of a.who.request.op)) others (state_of targets o w) }
    ensures shared { (targets : ℕ) → IsCount targets → (h : History) (w : World) → Reached targets h w → (sent : ℕ → Request) → IsSent sent (h ++ entries_of w.since) → (o : Spoken)
        → length (h ++ entries_of w.since) < 0x0ffffffe → (a : Attempt) (t k : ℕ) → IsIn (Sync a t k) w.pool → w.serving ≡ true → w.up t ≡ true → w.holder t ≡ Some a → (n : ℕ) → IsIn n (pending w t)
        → IsIn a.who.request o.sent → (others : List Line) → Says (state_of targets o w) (Shared t a.who.request.number (number_at w.since k)) others (state_of targets o w) }
{
    operations_have_laws();
    targets_are_those_of_the_parts();
}

/// A cluster as it is made and a request that is sent are those of the plain machine. Between two recoveries commands show
/// the tree of all that was accepted, where every target serves, and the records of a log.
pub fn commands_say_rows()
    ensures made { (targets : ℕ) (s : Start) → state_of targets (record { sent = []; epoch = 1; smooth = true; standing = λ t. Serving; start = λ t. 0 }) (fresh s []) ≡ made_with targets }
    ensures sent { (targets : ℕ) (w : World) (o : Spoken) (request : Request) → state_of targets (record o { sent = o.sent ++ request ∷ [] }) w ≡ begun (state_of targets o w) (Send_request request) }
    ensures tree { (targets : ℕ) → IsCount targets → (h : History) (w : World) → Reached targets h w → (sent : ℕ → Request) → IsSent sent (h ++ entries_of w.since) → (o : Spoken)
        → ((t : ℕ) → t < targets → o.standing t ≡ Serving) → (others : List Line) → Says (state_of targets o w) (Shows (tree_of targets (h ++ entries_of w.since))) others (state_of targets o w) }
    ensures log { (targets : ℕ) → IsCount targets → (h : History) (w : World) → Reached targets h w → (sent : ℕ → Request) → IsSent sent (h ++ entries_of w.since) → (o : Spoken)
        → (t : ℕ) (indexes : List ℕ) → Rising indexes → length indexes ≡ length (live (w.done t) (w.gone t)) → (o.standing t ≡ Down → ⊥) → (others : List Line)
        → Says (state_of targets o w) (Log t (listed o.epoch w.since indexes (live (w.done t) (w.gone t)))) others (state_of targets o w) }
{
    operations_have_laws();
    targets_are_those_of_the_parts();
}

/// What targets say that commit one after another, before whatever is said then: as a recovery begins, and at the end, which
/// is clean. Then the disk of each of them that nothing holds has its share of all that was accepted, with its seats.
pub fn commits_say_rows()
    ensures reached { (targets : ℕ) → IsCount targets → (h : History) (w : World) → Reached targets h w → (ts : List ℕ) → ((t : ℕ) → IsIn t ts → w.up t ≡ true) → Reached targets h (committed_all w ts) }
    ensures said { (targets : ℕ) → IsCount targets → (h : History) (w : World) → Reached targets h w → (sent : ℕ → Request) → IsSent sent (h ++ entries_of w.since) → (o : Spoken) → (ts : List ℕ) → ((t : ℕ) → IsIn t ts → w.up t ≡ true)
        → (ends : List Line) (next : State) → SaysAll (state_of targets o (committed_all w ts)) ends next → SaysAll (state_of targets o w) (stable_lines w ts ++ ends) next }
    ensures ended { (targets : ℕ) → IsCount targets → (h : History) (w : World) → Reached targets h w → (sent : ℕ → Request) → IsSent sent (h ++ entries_of w.since) → (o : Spoken) → (ts : List ℕ) → ((t : ℕ) → IsIn t ts → w.up t ≡ true)
        → ((t : ℕ) → t < targets → o.standing t ≡ Serving) → SaysAll (state_of targets o w) (stable_lines w ts ++ End_clean ∷ []) (state_of targets o (committed_all w ts)) }
    ensures disks { (targets : ℕ) → IsCount targets → (h : History) (w : World) → Reached targets h w → (ts : List ℕ) → ((t : ℕ) → IsIn t ts → w.up t ≡ true)
        → (t : ℕ) → t < targets → IsIn t ts → w.holder t ≡ None → made targets w.since t ((committed_all w ts).disk t) (share_of targets h t) ≡ share_of targets (h ++ entries_of w.since) t }
{
    operations_have_laws();
}

/// What a recovery says in the plain machine, once what served is committed: what it redoes at a target, and what a
/// target shows that stopped in it, before or after the redone records were committed there; what a log shows when a recovery
/// stopped; and all that one says which nothing stops, from what is redone on, and from its first commit on.
pub fn recoveries_say_rows()
    ensures gathered { (targets : ℕ) → IsCount targets → (h : History) (w : World) → Reached targets h w → (o : Spoken) → ((t n : ℕ) → IsIn n (w.done t) → IsIn n (w.disk t)) → state_of targets o w ≡ gathered_state targets o w.base w.since w.disk }
    ensures stopped { (targets : ℕ) (o : Spoken) (base : History) (since : List Accepted) (disk : ℕ → List ℕ) (t : ℕ) (others : List Line) → Says (gathered_state targets o base since disk) (Stopped t) others
        (gathered_state targets (record o { standing = stands_after others t o.standing; smooth = stays_smooth others o.smooth }) base since disk) }
    ensures redone { (targets : ℕ) → IsCount targets → (base : History) (since : List Accepted) (disk : ℕ → List ℕ) (mark : ℕ → ℕ) (gone : ℕ → List ℕ) (kept : ℕ → Bool)
        → Gathered targets base since disk mark gone kept → Follows targets base since → IsLegal targets (base ++ entries_of since) → (o : Spoken) (t : ℕ)
        → (extra : List ℕ) → Redo since disk mark gone t extra → (others : List Line)
        → Says (gathered_state targets o base since disk) (Redone t (numbers_at since extra)) others (gathered_state targets o base since (put disk t (disk t ++ extra))) }
    ensures kept_image { (targets : ℕ) → IsCount targets → (base : History) (since : List Accepted) (disk : ℕ → List ℕ) (mark : ℕ → ℕ) (gone : ℕ → List ℕ) (kept : ℕ → Bool)
        → Gathered targets base since disk mark gone kept → Follows targets base since → IsLegal targets (base ++ entries_of since) → (o : Spoken) (t : ℕ)
        → (others : List Line) → Says (gathered_state targets o base since disk) (Up t (o.start t + length (disk t)) (numbers_at since (live (disk t) (gone t)))) others
        (gathered_state targets (record o { standing = put o.standing t Opened }) base since disk) }
    ensures redone_image { (targets : ℕ) → IsCount targets → (base : History) (since : List Accepted) (disk : ℕ → List ℕ) (mark : ℕ → ℕ) (gone : ℕ → List ℕ) (kept : ℕ → Bool)
        → Gathered targets base since disk mark gone kept → Follows targets base since → IsLegal targets (base ++ entries_of since) → (o : Spoken) (t : ℕ)
        → (extra : List ℕ) → Redo since disk mark gone t extra → (others : List Line)
        → Says (gathered_state targets o base since disk) (Up t (o.start t + length (disk t ++ extra)) (numbers_at since (live (disk t ++ extra) (gone t)))) others
        (gathered_state targets (record o { standing = put o.standing t Opened }) base since (put disk t (disk t ++ extra))) }
    ensures renewed_image { (targets : ℕ) → IsCount targets → (h : History) → Story targets h → (e : Epoch targets h) → (sent : ℕ → Request) → IsSent sent (h ++ entries_of e.world.since) → (o : Spoken)
        → (t : ℕ) (others : List Line) → Says (gathered_state targets o h e.world.since e.disks) (Up t (o.start t + length (e.disks t)) []) others (gathered_state targets (record o { standing = put o.standing t Opened }) h e.world.since e.disks) }
    ensures log { (targets : ℕ) → IsCount targets → (h : History) (w : World) → Reached targets h w → (sent : ℕ → Request) → IsSent sent (h ++ entries_of w.since) → (o : Spoken)
        → (disks : ℕ → List ℕ) (mark : ℕ → ℕ) (gone : ℕ → List ℕ) (kept : ℕ → Bool) → Gathered targets w.base w.since disks mark gone kept → (t : ℕ) (indexes : List ℕ) → Rising indexes → length indexes ≡ length (live (disks t) (gone t)) → (o.standing t ≡ Down → ⊥) → (others : List Line)
        → Says (gathered_state targets o w.base w.since disks) (Log t (listed o.epoch w.since indexes (live (disks t) (gone t)))) others (gathered_state targets o w.base w.since disks) }
    ensures emptied_log { (targets : ℕ) → IsCount targets → (h : History) (w : World) → Reached targets h w → (sent : ℕ → Request) → IsSent sent (h ++ entries_of w.since) → (o : Spoken)
        → (disks : ℕ → List ℕ) (mark : ℕ → ℕ) (gone : ℕ → List ℕ) (kept : ℕ → Bool) → Gathered targets w.base w.since disks mark gone kept → ((s : ℕ) → Redo w.since disks mark gone s []) → (t : ℕ) → (o.standing t ≡ Down → ⊥) → (others : List Line)
        → Says (gathered_state targets o w.base w.since disks) (Log t []) others (gathered_state targets o w.base w.since disks) }
    ensures recovered { (targets : ℕ) → IsCount targets → (h : History) → Story targets h → (e : Epoch targets h) → (sent : ℕ → Request) → IsSent sent (h ++ entries_of e.world.since) → (o : Spoken)
        → (epoch : ℕ) → o.epoch < epoch → (o.smooth ≡ true → epoch ≡ suc o.epoch) → (kept lost : List ℕ) → IsSplit e.world.since e.kept kept lost → (s : Start) (others : List Line)
        → Says (gathered_state targets o h e.world.since e.disks) (Recovered epoch kept lost) others
        (state_of targets (record { sent = o.sent; epoch = epoch; smooth = true; standing = λ t. Serving; start = λ t. o.start t + length (e.disks t) }) (fresh s (after_items h (kept_of targets h e)))) }
    ensures whole { (targets : ℕ) → IsCount targets → (h : History) → Story targets h → (e : Epoch targets h) → (sent : ℕ → Request) → IsSent sent (h ++ entries_of e.world.since) → (o : Spoken)
        → (epoch : ℕ) → o.epoch < epoch → (o.smooth ≡ true → epoch ≡ suc o.epoch) → (kept lost : List ℕ) → IsSplit e.world.since e.kept kept lost → (s : Start)
        → SaysAll (gathered_state targets o h e.world.since e.world.disk) (redone_lines e.world.since e.redos ++ Recovered epoch kept lost ∷ [])
        (state_of targets (record { sent = o.sent; epoch = epoch; smooth = true; standing = λ t. Serving; start = λ t. o.start t + length (e.disks t) }) (fresh s (after_items h (kept_of targets h e)))) }
    ensures command { (targets : ℕ) → IsCount targets → (h : History) → Story targets h → (e : Epoch targets h) → (sent : ℕ → Request) → IsSent sent (h ++ entries_of e.world.since) → (o : Spoken)
        → (epoch : ℕ) → o.epoch < epoch → (o.smooth ≡ true → epoch ≡ suc o.epoch) → (kept lost : List ℕ) → IsSplit e.world.since e.kept kept lost → (s : Start)
        → (w : World) → Reached targets h w → IsSent sent (h ++ entries_of w.since) → (ts : List ℕ) → ((t : ℕ) → IsIn t ts → w.up t ≡ true) → e.world ≡ committed_all (happens w Forget) ts
        → SaysAll (state_of targets o w) (stable_lines (happens w Forget) ts ++ (redone_lines e.world.since e.redos ++ Recovered epoch kept lost ∷ []))
        (state_of targets (record { sent = o.sent; epoch = epoch; smooth = true; standing = λ t. Serving; start = λ t. o.start t + length (e.disks t) }) (fresh s (after_items h (kept_of targets h e)))) }
{
    operations_have_laws();
    targets_are_those_of_the_parts();
}

/// The premises of these laws can be met: there is a run in which an operation is accepted and committed before its
/// target stops, and a recovery that keeps it.
pub fn an_operation_can_be_kept()
    ensures accepted { (w : World) × Reached 1 [] w × (length w.since ≡ 1) × (w.disk 0 ≡ 0 ∷ []) × (w.up 0 ≡ false) }
    ensures kept { (h : History) × Story 1 h × (length h ≡ 1) }
{
    histories_keep_trees_sound();
}

/// There is a run in which an operation on two targets is accepted and executed, one of them stops before it has
/// committed, and a recovery redoes the operation there.
pub fn an_operation_can_be_redone()
    ensures redone { (e : Epoch 3 []) × (length e.world.since ≡ 1) × (is_on (at e.world.since 0) 0 ≡ true) × (is_on (at e.world.since 0) 1 ≡ true) × (e.world.disk 0 ≡ 0 ∷ []) × (e.world.disk 1 ≡ [])
        × (e.redos ≡ (1, 0 ∷ []) ∷ []) × (e.disks 1 ≡ 0 ∷ []) }
    ensures kept { (h : History) × Story 3 h × (length h ≡ 1) }
{
    operations_have_laws();
    histories_keep_trees_sound();
    shares_tell();
}

/// There is a run in which an operation is committed on its two targets, its home raises its mark, and the record is
/// cancelled at both.
pub fn a_record_can_be_cancelled()
    ensures cancelled { (w : World) × Reached 3 [] w × (length w.since ≡ 1) × (is_on (at w.since 0) 0 ≡ true) × (is_on (at w.since 0) 1 ≡ true) × (w.gone 0 ≡ 0 ∷ []) × (w.gone 1 ≡ 0 ∷ []) }
{
    operations_have_laws();
    histories_keep_trees_sound();
    shares_tell();
}

/// There is a run in which an operation is refused by what another one wrote on a target where the refusal takes no part, and
/// where the writer is pending: the refusal may not be accepted there, but behind a sync of that target it may.
pub fn a_refusal_can_wait_for_a_commit()
    ensures waited { (x : Accepted) × (x.reply ≡ Reply.Err Errno.EEXIST) × (is_on x 0 ≡ true) × (is_on x 1 ≡ false)
        × (w : World) × Reached 3 [] w × (is_on (at w.since 1) 0 ≡ false) × IsIn 1 (pending w 1) × (May 3 w (Accept 0 x) → ⊥)
        × (v : World) × Run 3 w (Send (Sync x.attempt 1 1) ∷ Commit 1 ∷ Sync_comes x.attempt 1 1 ∷ []) v × Reached 3 [] v × May 3 v (Accept 0 x) }
{
    operations_have_laws();
    histories_keep_trees_sound();
    shares_tell();
}

/// There is a run in which a read is answered: a name is looked up that isn't there.
pub fn a_read_can_be_answered()
    ensures answered { (w : World) × (a : Attempt) × (answers : List Answer) × Reached 3 [] w × (w.trying 0 ≡ Some a) × (is_read a.who.request.op ≡ true) × AreHeard 3 w.pool a answers
        × Imply 3 (facts_of answers) (λ l. Reply.Err Errno.ENOENT ≡ (step 3 l.tree a.who.request.op).1) }
{
    operations_have_laws();
    histories_keep_trees_sound();
    shares_tell();
}

/// There is a run in which a rename is on three targets: the directory that it moves stands on one, its old parent and
/// its new one on two others, and each of them executes it.
pub fn a_rename_can_be_on_three_targets()
    ensures renamed { (w : World) × Reached 3 [] w × (length w.since ≡ 3) × (is_on (at w.since 2) 0 ≡ true) × (is_on (at w.since 2) 1 ≡ true) × (is_on (at w.since 2) 2 ≡ true)
        × IsIn 2 (w.done 0) × IsIn 2 (w.done 1) × IsIn 2 (w.done 2) }
{
    operations_have_laws();
    histories_keep_trees_sound();
    parents_name_their_directories();
    shares_tell();
}
