ghost use Rattle.decode_mode.specs.Requests.{OneAnswerPerRequest};
ghost use Rattle.decode_mode.specs.Records.{OneAnswerPerRecord};
ghost use Rattle.decode_mode.specs.Logs.{OneAnswerPerLog};

use llog_store::one_spelling_per_log;
use out_update::{one_spelling_per_request, verdicts_are_of_spelled_requests};
use update_record::{one_spelling_per_record, verdicts_are_of_spelled_records};

/// To each list of bytes there is exactly one answer of `decode_request`: a text that shows the request that
/// a front of them spells, or one that refuses them. The call does nothing: its contract is a law.
pub fn one_answer_per_request()
    ensures { OneAnswerPerRequest }
{
    one_spelling_per_request();
    verdicts_are_of_spelled_requests();
}

/// To each list of bytes there is exactly one answer of `decode_record`: a text that shows the record that a
/// front of them spells, or one that refuses them. The call does nothing: its contract is a law.
pub fn one_answer_per_record()
    ensures { OneAnswerPerRecord }
{
    one_spelling_per_record();
    verdicts_are_of_spelled_records();
}

/// To each list of bytes there is exactly one answer of `decode_log`: a text that shows the log that they
/// spell, or one that refuses them. The call does nothing: its contract is a law.
pub fn one_answer_per_log()
    ensures { OneAnswerPerLog }
{
    one_spelling_per_log();
}
