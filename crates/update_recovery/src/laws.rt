//! What walking a log comes to.

ghost use Rattle.std.specs.Prelude.{◌≡◌, ℕ, List, map};
ghost use Rattle.llog_store.specs.Log.{Log, IsLog};
ghost use Rattle.llog_store.specs.Changes.{live_payloads};
ghost use Rattle.update_recovery.specs.Live.{live_records};

/// The live records of a log, as they are walked, are all that it has, in their order. The call does nothing: its
/// contract is a law.
#[tactic(auto, using(crate::proofs::Walked::all_walked))]
pub fn each_live_record_is_walked()
    ensures { (log : Log) → IsLog log → map (λ (x : ℕ × List ℕ). x.1) (live_records log.entries) ≡ live_payloads log.entries }
{}
