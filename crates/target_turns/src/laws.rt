ghost use Rattle.std.specs.Prelude.{◌≡◌, ℕ, [], List, map, false};
ghost use Rattle.llog_store.specs.Log.{Log, IsLog};
ghost use Rattle.llog_store.specs.Changes.{live_payloads};
ghost use Rattle.target_turns.specs.Showing.{live_records};
ghost use Rattle.cluster_mail.specs.declared.content.Content.{Content};
ghost use Rattle.update_record.specs.declared.message.Message.{Message};
ghost use Rattle.target_turns.specs.Target.{Target, Fate, serves};
ghost use Rattle.target_turns.specs.Turn.{turned};

/// A target that doesn't serve sends nothing, whatever comes.
pub fn a_target_that_does_not_serve_sends_nothing()
    ensures { (k : ℕ) (t : Target) (m : Message) (c : Content) (f : Fate) → serves t ≡ false → (turned k t m c f).sent ≡ [] }
{}

/// Of a log that has a spelling each live record is shown, in the order of the log.
#[tactic(auto, using(crate::proofs::Whole::log_shown))]
pub fn each_live_record_is_shown()
    ensures { (l : Log) → IsLog l → map (λ (x : ℕ × List ℕ). x.1) (live_records l.entries) ≡ live_payloads l.entries }
{}
