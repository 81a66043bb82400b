ghost use Rattle.std.specs.Prelude.{◌≡◌, ℕ, List};
ghost use Rattle.update_record.specs.declared.message.MessageKind.{MessageKind};
ghost use Rattle.cluster_mail.specs.declared.content.Content.{Content};
ghost use Rattle.cluster_mail.specs.Content.{Says};

use out_update::one_spelling_per_request;
use tree_model::one_text_per_operation;
use update_record::{one_spelling_per_facts, one_spelling_per_record};

/// The body of a message says one thing. The call does nothing: its contract is a law.
pub fn a_message_says_one_thing()
    ensures { (targets : ℕ) (kind : MessageKind) (body : List ℕ) (c d : Content) → Says targets kind body c → Says targets kind body d → c ≡ d }
{
    one_text_per_operation();
    one_spelling_per_request();
    one_spelling_per_facts();
    one_spelling_per_record();
}
