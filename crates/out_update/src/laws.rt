ghost use Rattle.std.specs.Prelude.{◌≡◌, ◌≤◌, ℕ, ◌++◌, List, [], length, take, Some};
ghost use Rattle.byte_grammar.specs.declared.verdict.Refusal.{Refusal};
ghost use Rattle.byte_grammar.specs.Numbers.{IsBytes};
ghost use Rattle.fid_space.specs.declared.fid.Fid.{Fid};
ghost use Rattle.fid_space.specs.FidText.{IsFid};
ghost use Rattle.out_update.specs.declared.update.Update.{Update};
ghost use Rattle.out_update.specs.declared.result.UpdateResult.{UpdateResult};
ghost use Rattle.out_update.specs.Spelling.{fid_bytes, spells, FitsRequest};
ghost use Rattle.out_update.specs.Replies.{spells_reply, FitsReply};
ghost use Rattle.out_update.specs.Values.{fid_value};
ghost use Rattle.out_update.specs.Decoding.{judge_request, judge_reply};

use byte_grammar::Verdict;

/// A request has exactly one spelling, a spelling is that of one request, and none is a proper prefix of
/// another. The call does nothing: its contract is a law, as that of the calls below.
pub fn one_spelling_per_request()
    ensures some { (us : List Update) → FitsRequest us → (a : List ℕ) × spells us a }
    ensures one_spelling { (us : List Update) (a b : List ℕ) → spells us a → spells us b → a ≡ b }
    ensures one_value { (us vs : List Update) (a : List ℕ) → spells us a → spells vs a → us ≡ vs }
    ensures no_prefix { (us vs : List Update) (a rest : List ℕ) → spells us a → spells vs (a ++ rest) → rest ≡ [] }
{}

/// What a verdict on bytes says of the spellings of requests.
pub fn verdicts_are_of_spelled_requests()
    // Done comes exactly where a spelling ends.
    ensures done { (bytes : List ℕ) (k : ℕ) → IsBytes bytes → judge_request bytes ≡ Verdict.Done k → (us : List Update) × spells us (take k bytes) × (k ≤ length bytes) }
    ensures spelled { (us : List Update) (a rest : List ℕ) → spells us a → judge_request (a ++ rest) ≡ Verdict.Done (length a) }
    // What is refused begins no spelling.
    ensures refused { (bytes : List ℕ) (r : Refusal) (us : List Update) (rest : List ℕ) → judge_request bytes ≡ Verdict.Refused r → spells us (bytes ++ rest) → ⊥ }
    // At More no spelling has ended.
    ensures more { (bytes : List ℕ) (us : List Update) (a rest : List ℕ) → judge_request bytes ≡ Verdict.More → spells us a → bytes ≡ a ++ rest → ⊥ }
{}

/// A reply has exactly one spelling, a spelling is that of one reply, and none is a proper prefix of another.
pub fn one_spelling_per_reply()
    ensures some { (rs : List UpdateResult) → FitsReply rs → (a : List ℕ) × spells_reply rs a }
    ensures one_spelling { (rs : List UpdateResult) (a b : List ℕ) → spells_reply rs a → spells_reply rs b → a ≡ b }
    ensures one_value { (rs ss : List UpdateResult) (a : List ℕ) → spells_reply rs a → spells_reply ss a → rs ≡ ss }
    ensures no_prefix { (rs ss : List UpdateResult) (a rest : List ℕ) → spells_reply rs a → spells_reply ss (a ++ rest) → rest ≡ [] }
{}

/// What a verdict on bytes says of the spellings of replies.
pub fn verdicts_are_of_spelled_replies()
    // Done comes exactly where a spelling ends.
    ensures done { (bytes : List ℕ) (k : ℕ) → IsBytes bytes → judge_reply bytes ≡ Verdict.Done k → (rs : List UpdateResult) × spells_reply rs (take k bytes) × (k ≤ length bytes) }
    ensures spelled { (rs : List UpdateResult) (a rest : List ℕ) → spells_reply rs a → judge_reply (a ++ rest) ≡ Verdict.Done (length a) }
    // What is refused begins no spelling.
    ensures refused { (bytes : List ℕ) (r : Refusal) (rs : List UpdateResult) (rest : List ℕ) → judge_reply bytes ≡ Verdict.Refused r → spells_reply rs (bytes ++ rest) → ⊥ }
    // At More no spelling has ended.
    ensures more { (bytes : List ℕ) (rs : List UpdateResult) (a rest : List ℕ) → judge_reply bytes ≡ Verdict.More → spells_reply rs a → bytes ≡ a ++ rest → ⊥ }
{}

/// The 16 bytes of a FID are read as that FID, whatever follows.
pub fn a_fid_is_read_back()
    ensures { (f : Fid) (rest : List ℕ) → IsFid f → fid_value (fid_bytes f ++ rest) ≡ Some (f, rest) }
{}
