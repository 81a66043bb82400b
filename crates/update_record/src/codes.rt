ghost use Rattle.std.specs.Prelude.{◌≡◌};
ghost use Rattle.out_update.specs.Replies.{is_code};
ghost use Rattle.update_record.specs.Spelling.{reply_code};
ghost use Rattle.update_record.specs.Values.{answer_at};

use tree_model::{Errno, Reply};

/// Whether an operation can be answered with this code: 0, or the number of an error.
pub fn is_answer_code(code: u32) -> bool
    ensures { result ≡ is_code code }
{
    matches!(
        code,
        0 | 1 | 2 | 17 | 20 | 21 | 22 | 27 | 28 | 31 | 39 | 40 | 61
    )
}

/// The answer with a code.
#[tactic(auto, unfolding(crate::specs::Values::answer_at))]
pub fn answer_with(code: u32) -> Option<Reply>
    ensures { result ≡ answer_at code }
{
    match code {
        0 => Some(Reply::Ok),
        1 => Some(Reply::Err(Errno::EPERM)),
        2 => Some(Reply::Err(Errno::ENOENT)),
        17 => Some(Reply::Err(Errno::EEXIST)),
        20 => Some(Reply::Err(Errno::ENOTDIR)),
        21 => Some(Reply::Err(Errno::EISDIR)),
        22 => Some(Reply::Err(Errno::EINVAL)),
        27 => Some(Reply::Err(Errno::EFBIG)),
        28 => Some(Reply::Err(Errno::ENOSPC)),
        31 => Some(Reply::Err(Errno::EMLINK)),
        39 => Some(Reply::Err(Errno::ENOTEMPTY)),
        40 => Some(Reply::Err(Errno::ELOOP)),
        61 => Some(Reply::Err(Errno::ENODATA)),
        _ => None,
    }
}

/// The code of an answer.
pub fn code_of_answer(reply: &Reply) -> u32
    ensures { result ≡ reply_code reply.now }
{
    match reply {
        Reply::Err(errno) => errno.code(),
        _ => 0,
    }
}
