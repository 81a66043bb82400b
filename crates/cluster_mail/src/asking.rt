//! The messages of an attempt's home.

ghost use Rattle.std.specs.Prelude.{◌≡◌, ◌≤◌, ◌<◌, ◌^◌, [], IfOk};
ghost use Rattle.out_update.specs.Spelling.{FitsRequest};
ghost use Rattle.update_record.specs.Messages.{AsksOne, FitsMessage};
ghost use Rattle.update_record.specs.Spelling.{FitsRecord};
ghost use Rattle.cluster_mail.specs.Asking.{order_to, hold_message, sync_message, execute_message, release_message};

use fid_space::Bytes;
use out_update::UpdateRequest;
use std::alloc::{AllocError as Memory, Global};
use update_record::{Attempt, Message, MessageKind, Record};

/// A message of an attempt's home.
fn order_to(kind: MessageKind, by: Attempt, to: u8, ask: u32, value: u64, body: Bytes) -> Message
    ensures value { result ≡ order_to kind by to ask value body }
    ensures epoch { by.epoch < 2 ^ 32 }
    ensures attempt { by.attempt < 2 ^ 64 }
    ensures number { by.number < 2 ^ 32 }
{
    Message {
        kind,
        epoch: by.epoch,
        from: u32::from(by.master),
        to: u32::from(to),
        number: by.number,
        attempt: by.attempt,
        ask,
        value,
        body,
    }
}

/// Asks a target to be held, with a question or none. The target and the home are below 16.
pub fn hold_message(
    alloc: Global,
    by: Attempt,
    to: u8,
    ask: u32,
    question: &UpdateRequest,
) -> Result<Message, Memory>
    requires master { by.master ≤ 15 }
    requires to { to ≤ 15 }
    requires question { FitsRequest question.now }
    requires one { AsksOne question.now }
    ensures value { IfOk result (λ m. m ≡ hold_message by to ask question.now) }
    ensures fits { IfOk result FitsMessage }
{
    let mut body = Bytes::new(alloc);
    question.encode(&mut body)?;
    Ok(order_to(MessageKind::Hold, by, to, ask, 0, body))
}

/// Asks a target to commit, because of what this request wrote. The target and the home are below 16.
pub fn sync_message(alloc: Global, by: Attempt, to: u8, ask: u32, writer: u32) -> Message
    requires master { by.master ≤ 15 }
    requires to { to ≤ 15 }
    ensures value { result ≡ sync_message by to ask writer }
    ensures fits { FitsMessage result }
{
    let body = Bytes::new(alloc);
    order_to(MessageKind::Sync, by, to, ask, u64::from(writer), body)
}

/// Sends a target the record of an operation that was accepted. The target and the home are below 16.
pub fn execute_message(
    alloc: Global,
    by: Attempt,
    to: u8,
    entry: &Record,
) -> Result<Message, Memory>
    requires master { by.master ≤ 15 }
    requires to { to ≤ 15 }
    requires entry { FitsRecord entry.now }
    ensures value { IfOk result (λ m. m ≡ execute_message by to entry.now) }
    ensures fits { IfOk result FitsMessage }
{
    let mut body = Bytes::new(alloc);
    entry.encode(&mut body)?;
    Ok(order_to(MessageKind::Execute, by, to, 0, 0, body))
}

/// Has a target let go. The target and the home are below 16.
pub fn release_message(alloc: Global, by: Attempt, to: u8) -> Message
    requires master { by.master ≤ 15 }
    requires to { to ≤ 15 }
    ensures value { result ≡ release_message by to }
    ensures fits { FitsMessage result }
{
    order_to(MessageKind::Release, by, to, 0, 0, Bytes::new(alloc))
}
