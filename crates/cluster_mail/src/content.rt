//! What the bodies of messages say.

ghost use Rattle.std.specs.Prelude.{◌≡◌, ◌++◌, [], List, IfOk};
ghost use Rattle.out_update.specs.declared.update.Update.{Update};
ghost use Rattle.tree_model.specs.declared.op.Op.{Op};
ghost use Rattle.update_record.specs.declared.message.Facts.{Facts};
ghost use Rattle.update_record.specs.declared.operation.Record.{Record};
ghost use Rattle.update_record.specs.Messages.{spells_question, spells_facts};
ghost use Rattle.update_record.specs.Spelling.{spells_record};
ghost use Rattle.update_record.specs.declared.fault.RecordFault.{RecordFault};
ghost use Rattle.cluster_mail.specs.declared.content.Content.{Content};
ghost use Rattle.cluster_mail.specs.Content.{spells_op, Says};

use fid_space::Cluster;
use out_update::{
    Decoder, Progress, UpdateFault, UpdateRequest, one_spelling_per_request,
    verdicts_are_of_spelled_requests,
};
use std::alloc::{AllocError as Memory, Global};
use tree_model::{Op, OpFault};
use update_record::{
    Facts, Message, MessageKind, Record, RecordFault, verdicts_are_of_spelled_facts,
    verdicts_are_of_spelled_records,
};

/// What the body of a message says.
#[derive(Drop)]
pub enum Content {
    /// The operation that a client asks for.
    Asks(Op),
    /// The question of a Hold, or none.
    Questions(UpdateRequest),
    /// What a held target tells.
    Tells(Facts),
    /// The record of an operation that was accepted.
    Carries(Record),
    /// Nothing, in the other kinds.
    Nothing,
}

/// What is wanted where bytes that are a spelling aren't decoded.
pub(crate) fn wanted(fault: RecordFault) -> Memory
    requires { fault ≡ RecordFault.Memory }
{
    match fault {
        RecordFault::Memory => Memory,
        _ => unreachable!(),
    }
}

/// The operation that a text spells.
fn op_of(alloc: Global, cluster: Cluster, text: &[u8]) -> Result<Op, Memory>
    requires { (op : Op) × spells_op cluster op text.now }
    ensures { IfOk result (λ op. spells_op cluster op text.now) }
{
    match Op::parse(alloc, text, cluster) {
        Ok(op) => Ok(op),
        Err(fault) => match fault {
            OpFault::Memory => Err(Memory),
            _ => unreachable!(),
        },
    }
}

/// The question that a body spells.
fn question_of(alloc: Global, body: &[u8]) -> Result<UpdateRequest, Memory>
    requires { (us : List Update) × spells_question us body.now }
    ensures { IfOk result (λ us. spells_question us body.now) }
{
    one_spelling_per_request();
    verdicts_are_of_spelled_requests();
    let mut decoder = Decoder::new(alloc);
    match decoder.feed(body) {
        Ok(Progress::Done { value, .. }) => Ok(value),
        Ok(Progress::More) => unreachable!(),
        Err(fault) => match fault {
            UpdateFault::Memory => Err(Memory),
            _ => unreachable!(),
        },
    }
}

/// The facts that a body spells.
fn facts_of(alloc: Global, body: &[u8]) -> Result<Facts, Memory>
    requires { (f : Facts) × spells_facts f body.now }
    ensures { IfOk result (λ f. spells_facts f body.now) }
{
    verdicts_are_of_spelled_facts();
    match Facts::decode(alloc, body) {
        Ok((facts, _)) => Ok(facts),
        Err(fault) => Err(wanted(fault)),
    }
}

/// The record that bytes spell, as those of a log do.
pub fn record_of(alloc: Global, bytes: &[u8]) -> Result<Record, Memory>
    requires { (r : Record) × spells_record r bytes.now }
    ensures { IfOk result (λ r. spells_record r bytes.now) }
{
    verdicts_are_of_spelled_records();
    match Record::decode(alloc, bytes) {
        Ok((entry, _)) => Ok(entry),
        Err(fault) => Err(wanted(fault)),
    }
}

impl Content {
    /// Reads what the body of a message says, of a cluster's targets.
    pub fn read(alloc: Global, cluster: Cluster, message: &Message) -> Result<Content, Memory>
        requires { (c : Content) × Says cluster message.now.kind message.now.body c }
        ensures { IfOk result (λ c. Says cluster message.now.kind message.now.body c) }
    {
        let body = message.body.bytes();
        match message.kind {
            MessageKind::Request => Ok(Content::Asks(op_of(alloc, cluster, body)?)),
            MessageKind::Hold => Ok(Content::Questions(question_of(alloc, body)?)),
            MessageKind::Held => Ok(Content::Tells(facts_of(alloc, body)?)),
            MessageKind::Execute => Ok(Content::Carries(record_of(alloc, body)?)),
            _ => Ok(Content::Nothing),
        }
    }
}
