ghost use Rattle.std.specs.Prelude.{◌≡◌, ◌<◌, ◌+◌, ◌++◌, ℕ, List, Ok, length};
ghost use Rattle.byte_grammar.specs.Numbers.{IsBytes};
ghost use Rattle.llog_store.specs.Log.{Log, log_text};
ghost use Rattle.llog_store.specs.Changes.{appended, cancelled, repacked};
ghost use Rattle.object_store.specs.ImageText.{image_text};
ghost use Rattle.state_image.specs.declared.front.Front.{Front};
ghost use Rattle.state_image.specs.declared.image.Image.{Image};
ghost use Rattle.state_image.specs.FrontText.{FitsFront, front_text};
ghost use Rattle.state_image.specs.FrontReading.{front_in};
ghost use Rattle.state_image.specs.StateText.{IsOwn, AreOwn, FitsState, state_text};
ghost use Rattle.state_image.specs.StateReading.{image_in};

use llog_store::{a_payload_stands_at_its_place, one_spelling_per_log};
use update_record::{a_record_is_read_back, verdicts_are_of_spelled_records};

/// One spelling for each front. The call does nothing: its contract is a law, as that of the calls below.
#[tactic(auto, using(crate::proofs::Again::front_again))]
pub fn one_spelling_per_front()
    // What was written is read again, whatever follows.
    ensures again { (f : Front) (rest : List ℕ) → FitsFront f → front_in f.cluster f.index (length (front_text f ++ rest)) (front_text f ++ rest) ≡ Ok (f, rest) }
    // What is read was written so.
    ensures only { (targets index : ℕ) (bytes : List ℕ) (f : Front) (rest : List ℕ) → IsBytes bytes → targets < 256 → index < 256 → front_in targets index (length bytes) bytes ≡ Ok (f, rest) → FitsFront f × (f.cluster ≡ targets) × (f.index ≡ index) × (bytes ≡ front_text f ++ rest) }
{}

/// A state image that was written is read again.
pub fn a_state_is_read_back()
    ensures { (s : Image) → FitsState s → image_in s.front.cluster s.front.index (state_text s) ≡ Ok s }
{
    one_spelling_per_log();
    verdicts_are_of_spelled_records();
    a_record_is_read_back();
}

/// A state image that is read was written so, by the target that it is read for.
pub fn a_state_was_written_so()
    ensures { (targets index : ℕ) (bytes : List ℕ) (s : Image) → IsBytes bytes → targets < 256 → index < 256 → image_in targets index bytes ≡ Ok s → FitsState s × (s.front.cluster ≡ targets) × (s.front.index ≡ index) × (bytes ≡ state_text s) }
{
    one_spelling_per_log();
    a_payload_stands_at_its_place();
    verdicts_are_of_spelled_records();
    a_record_is_read_back();
}

/// A log of records of the target is one when another is appended.
pub fn a_log_stays_own_when_appended()
    ensures { (targets index : ℕ) (log : Log) (payload : List ℕ) → AreOwn targets index log → IsOwn targets index payload → AreOwn targets index (appended log payload) }
{}

/// It is one when a record is cancelled.
pub fn a_log_stays_own_when_cancelled()
    ensures { (targets index : ℕ) (log : Log) (record_index : ℕ) → AreOwn targets index log → AreOwn targets index (cancelled log record_index) }
{}

/// It is one when it is packed.
pub fn a_log_stays_own_when_packed()
    ensures { (targets index : ℕ) (log : Log) → AreOwn targets index log → AreOwn targets index (repacked log) }
{}

/// How long a state image is: its front, its objects, eight bytes, and its log.
#[tactic(auto, using(crate::proofs::StateLengths::state_length))]
pub fn a_state_is_as_long_as_its_parts()
    ensures { (s : Image) → length (state_text s) ≡ length (front_text s.front) + length (image_text s.objects) + 8 + length (log_text s.log) }
{}
