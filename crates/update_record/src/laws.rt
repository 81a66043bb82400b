ghost use Rattle.std.specs.Prelude.{◌≡◌, ◌≤◌, ℕ, true, Some, ◌++◌, List, [], length, take};
ghost use Rattle.byte_grammar.specs.declared.verdict.Refusal.{Refusal};
ghost use Rattle.byte_grammar.specs.Numbers.{IsBytes};
ghost use Rattle.fid_space.specs.Targets.{is_member};
ghost use Rattle.tree_model.specs.declared.reply.Reply.{Reply};
ghost use Rattle.out_update.specs.declared.update.Update.{Update};
ghost use Rattle.update_record.specs.declared.message.Facts.{Facts};
ghost use Rattle.update_record.specs.declared.message.Message.{Message};
ghost use Rattle.update_record.specs.declared.operation.Record.{Record};
ghost use Rattle.update_record.specs.Spelling.{is_answer, reply_code, has_target, targets_from, record_text, spells_record, FitsRecord};
ghost use Rattle.update_record.specs.Values.{answer_at, record_value};
ghost use Rattle.update_record.specs.Decoding.{judge_record};
ghost use Rattle.update_record.specs.Messages.{facts_text, spells_facts, FitsFacts, message_text, spells_message, FitsMessage};
ghost use Rattle.update_record.specs.FactsValues.{facts_value};
ghost use Rattle.update_record.specs.MessageValues.{message_value};
ghost use Rattle.update_record.specs.MessageReading.{judge_facts, judge_message};

use byte_grammar::Verdict;

/// A record has exactly one spelling, a spelling is that of one record, and none is a proper prefix of
/// another. The call does nothing: its contract is a law, as that of the calls below.
pub fn one_spelling_per_record()
    ensures some { (r : Record) → FitsRecord r → (a : List ℕ) × spells_record r a }
    ensures one_spelling { (r : Record) (a b : List ℕ) → spells_record r a → spells_record r b → a ≡ b }
    ensures one_value { (r s : Record) (a : List ℕ) → spells_record r a → spells_record s a → r ≡ s }
    ensures no_prefix { (r s : Record) (a rest : List ℕ) → spells_record r a → spells_record s (a ++ rest) → rest ≡ [] }
{}

/// What a verdict on bytes says of the spellings of records.
pub fn verdicts_are_of_spelled_records()
    // Done comes exactly where a spelling ends.
    ensures done { (bytes : List ℕ) (k : ℕ) → IsBytes bytes → judge_record bytes ≡ Verdict.Done k → (r : Record) × spells_record r (take k bytes) × (k ≤ length bytes) }
    ensures spelled { (r : Record) (a rest : List ℕ) → spells_record r a → judge_record (a ++ rest) ≡ Verdict.Done (length a) }
    // What is refused begins no spelling.
    ensures refused { (bytes : List ℕ) (refusal : Refusal) (r : Record) (rest : List ℕ) → judge_record bytes ≡ Verdict.Refused refusal → spells_record r (bytes ++ rest) → ⊥ }
    // At More no spelling has ended.
    ensures more { (bytes : List ℕ) (r : Record) (a rest : List ℕ) → judge_record bytes ≡ Verdict.More → spells_record r a → bytes ≡ a ++ rest → ⊥ }
{}

/// A message has exactly one spelling, a spelling is that of one message, and none is a proper prefix of
/// another.
pub fn one_spelling_per_message()
    ensures some { (m : Message) → FitsMessage m → (a : List ℕ) × spells_message m a }
    ensures one_spelling { (m : Message) (a b : List ℕ) → spells_message m a → spells_message m b → a ≡ b }
    ensures one_value { (m n : Message) (a : List ℕ) → spells_message m a → spells_message n a → m ≡ n }
    ensures no_prefix { (m n : Message) (a rest : List ℕ) → spells_message m a → spells_message n (a ++ rest) → rest ≡ [] }
{}

/// What a verdict on bytes says of the spellings of messages.
pub fn verdicts_are_of_spelled_messages()
    // Done comes exactly where a spelling ends.
    ensures done { (bytes : List ℕ) (k : ℕ) → IsBytes bytes → judge_message bytes ≡ Verdict.Done k → (m : Message) × spells_message m (take k bytes) × (k ≤ length bytes) }
    ensures spelled { (m : Message) (a rest : List ℕ) → spells_message m a → judge_message (a ++ rest) ≡ Verdict.Done (length a) }
    // What is refused begins no spelling.
    ensures refused { (bytes : List ℕ) (refusal : Refusal) (m : Message) (rest : List ℕ) → IsBytes bytes → judge_message bytes ≡ Verdict.Refused refusal → spells_message m (bytes ++ rest) → ⊥ }
    // At More no spelling has ended.
    ensures more { (bytes : List ℕ) (m : Message) (a rest : List ℕ) → judge_message bytes ≡ Verdict.More → spells_message m a → bytes ≡ a ++ rest → ⊥ }
{}

/// Facts have exactly one spelling, a spelling is that of one value, and none is a proper prefix of another.
pub fn one_spelling_per_facts()
    ensures some { (f : Facts) → FitsFacts f → (a : List ℕ) × spells_facts f a }
    ensures one_spelling { (f : Facts) (a b : List ℕ) → spells_facts f a → spells_facts f b → a ≡ b }
    ensures one_value { (f g : Facts) (a : List ℕ) → spells_facts f a → spells_facts g a → f ≡ g }
    ensures no_prefix { (f g : Facts) (a rest : List ℕ) → spells_facts f a → spells_facts g (a ++ rest) → rest ≡ [] }
{}

/// What a verdict on bytes says of the spellings of facts.
pub fn verdicts_are_of_spelled_facts()
    // Done comes exactly where a spelling ends.
    ensures done { (bytes : List ℕ) (k : ℕ) → IsBytes bytes → judge_facts bytes ≡ Verdict.Done k → (f : Facts) × spells_facts f (take k bytes) × (k ≤ length bytes) }
    ensures spelled { (f : Facts) (a rest : List ℕ) → spells_facts f a → judge_facts (a ++ rest) ≡ Verdict.Done (length a) }
    // What is refused begins no spelling.
    ensures refused { (bytes : List ℕ) (refusal : Refusal) (f : Facts) (rest : List ℕ) → judge_facts bytes ≡ Verdict.Refused refusal → spells_facts f (bytes ++ rest) → ⊥ }
    // At More no spelling has ended.
    ensures more { (bytes : List ℕ) (f : Facts) (a rest : List ℕ) → judge_facts bytes ≡ Verdict.More → spells_facts f a → bytes ≡ a ++ rest → ⊥ }
{}

/// A record that has a spelling is found in it, alone and with bytes behind it.
pub fn a_record_is_read_back()
    ensures alone { (r : Record) → FitsRecord r → record_value (record_text r) ≡ Some r }
    ensures followed { (r : Record) (rest : List ℕ) → FitsRecord r → record_value (record_text r ++ rest) ≡ Some r }
{}

/// A message that has a spelling is found in it, alone and with bytes behind it.
pub fn a_message_is_read_back()
    ensures alone { (m : Message) → FitsMessage m → message_value (message_text m) ≡ Some m }
    ensures followed { (m : Message) (rest : List ℕ) → FitsMessage m → message_value (message_text m ++ rest) ≡ Some m }
{}

/// Facts that have a spelling are found in it, alone and with bytes behind it.
pub fn facts_are_read_back()
    ensures alone { (f : Facts) → FitsFacts f → facts_value (facts_text f) ≡ Some f }
    ensures followed { (f : Facts) (rest : List ℕ) → FitsFacts f → facts_value (facts_text f ++ rest) ≡ Some f }
{}

/// An answer to an accepted operation is found by its code.
pub fn answers_are_read_back()
    ensures { (r : Reply) → is_answer r ≡ true → answer_at (reply_code r) ≡ Some r }
{}

/// The set of the targets of the parts has just these as members.
pub fn targets_are_those_of_the_parts()
    ensures { (t : ℕ) (parts : List (ℕ × List Update)) → is_member (targets_from 0 parts) t ≡ has_target t parts }
{}
