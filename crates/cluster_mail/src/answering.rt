//! The messages that answer others, and those that tell of batches.

ghost use Rattle.std.specs.Prelude.{◌≡◌, ◌≤◌, [], IfOk};
ghost use Rattle.update_record.specs.Messages.{FitsFacts, FitsMessage};
ghost use Rattle.cluster_mail.specs.Answering.{ComesAs, attempt_of, answer_to, held_message, busy_message, synced_message, executed_message, released_message, batch_message, stable_message, cancel_message};

use fid_space::Bytes;
use std::alloc::{AllocError as Memory, Global};
use update_record::{Attempt, Facts, Message, MessageKind};

/// The attempt that a message of the attempt's home is of.
pub fn attempt_of(message: &Message) -> Attempt
    requires { message.now.from ≤ 15 }
    ensures value { result ≡ attempt_of message.now }
    ensures master { result.master ≤ 15 }
{
    Attempt {
        epoch: message.epoch,
        master: message.from as u8,
        attempt: message.attempt,
        number: message.number,
    }
}

/// An answer of a target: of the same request, attempt and ask.
fn answer_to(
    kind: MessageKind,
    epoch: u32,
    from: u8,
    old: &Message,
    value: u64,
    body: Bytes,
) -> Message
    ensures { result ≡ answer_to kind epoch from old.now value body }
{
    Message {
        kind,
        epoch,
        from: u32::from(from),
        to: old.from,
        number: old.number,
        attempt: old.attempt,
        ask: old.ask,
        value,
        body,
    }
}

/// The answer of a target, below 16, that is held: what it tells.
pub fn held_message(
    alloc: Global,
    epoch: u32,
    from: u8,
    hold: &Message,
    facts: &Facts,
) -> Result<Message, Memory>
    requires from { from ≤ 15 }
    requires hold { ComesAs MessageKind.Hold hold.now }
    requires facts { FitsFacts facts.now }
    ensures value { IfOk result (λ m. m ≡ held_message epoch from hold.now facts.now) }
    ensures fits { IfOk result FitsMessage }
{
    let mut body = Bytes::new(alloc);
    facts.encode(&mut body)?;
    Ok(answer_to(MessageKind::Held, epoch, from, hold, 0, body))
}

/// The answer of a target, below 16, that is held by another request, which has this number.
pub fn busy_message(alloc: Global, epoch: u32, from: u8, hold: &Message, holder: u32) -> Message
    requires from { from ≤ 15 }
    requires hold { ComesAs MessageKind.Hold hold.now }
    ensures value { result ≡ busy_message epoch from hold.now holder }
    ensures fits { FitsMessage result }
{
    let body = Bytes::new(alloc);
    answer_to(
        MessageKind::HoldBusy,
        epoch,
        from,
        hold,
        u64::from(holder),
        body,
    )
}

/// The answer of a target, below 16, that has committed.
pub fn synced_message(alloc: Global, epoch: u32, from: u8, sync: &Message) -> Message
    requires from { from ≤ 15 }
    requires sync { ComesAs MessageKind.Sync sync.now }
    ensures value { result ≡ synced_message epoch from sync.now }
    ensures fits { FitsMessage result }
{
    answer_to(MessageKind::Synced, epoch, from, sync, 0, Bytes::new(alloc))
}

/// The answer of a target, below 16, that has done its part, now or before.
pub fn executed_message(alloc: Global, epoch: u32, from: u8, execute: &Message) -> Message
    requires from { from ≤ 15 }
    requires execute { ComesAs MessageKind.Execute execute.now }
    ensures value { result ≡ executed_message epoch from execute.now }
    ensures fits { FitsMessage result }
{
    answer_to(
        MessageKind::Executed,
        epoch,
        from,
        execute,
        0,
        Bytes::new(alloc),
    )
}

/// The answer of a target, below 16, that has let go, now or before.
pub fn released_message(alloc: Global, epoch: u32, from: u8, release: &Message) -> Message
    requires from { from ≤ 15 }
    requires release { ComesAs MessageKind.Release release.now }
    ensures value { result ≡ released_message epoch from release.now }
    ensures fits { FitsMessage result }
{
    answer_to(
        MessageKind::Released,
        epoch,
        from,
        release,
        0,
        Bytes::new(alloc),
    )
}

/// What tells of batches, and is of no request.
fn batch_message(
    kind: MessageKind,
    epoch: u32,
    from: u8,
    to: u8,
    value: u64,
    body: Bytes,
) -> Message
    requires { body ≡ [] }
    ensures { result ≡ batch_message kind epoch from to value }
{
    Message {
        kind,
        epoch,
        from: u32::from(from),
        to: u32::from(to),
        number: 0,
        attempt: 0,
        ask: 0,
        value,
        body,
    }
}

/// Tells a master that its records are stable at a target up to this batch. Both are below 16.
pub fn stable_message(alloc: Global, epoch: u32, from: u8, to: u8, batch: u64) -> Message
    requires from { from ≤ 15 }
    requires to { to ≤ 15 }
    ensures value { result ≡ stable_message epoch from to batch }
    ensures fits { FitsMessage result }
{
    batch_message(
        MessageKind::Stable,
        epoch,
        from,
        to,
        batch,
        Bytes::new(alloc),
    )
}

/// Tells a target that the records of a master are stable everywhere up to this batch. Both are below 16.
pub fn cancel_message(alloc: Global, epoch: u32, from: u8, to: u8, mark: u64) -> Message
    requires from { from ≤ 15 }
    requires to { to ≤ 15 }
    ensures value { result ≡ cancel_message epoch from to mark }
    ensures fits { FitsMessage result }
{
    batch_message(
        MessageKind::Cancel,
        epoch,
        from,
        to,
        mark,
        Bytes::new(alloc),
    )
}
