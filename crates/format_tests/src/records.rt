use crate::digits::spelled;
use crate::fixtures::changed;
use fid_space::Bytes;
use std::test::Fail;
use tree_model::{Errno, Reply};
use update_record::{
    Facts, Message, MessageKind, Messages, Record, RecordFault, a_message_is_read_back,
    a_record_is_read_back, answer_with, answers_are_read_back, code_of_answer, facts_are_read_back,
    is_answer_code, one_spelling_per_facts, one_spelling_per_message, one_spelling_per_record,
    targets_are_those_of_the_parts, verdicts_are_of_spelled_facts,
    verdicts_are_of_spelled_messages, verdicts_are_of_spelled_records,
};

/// Epoch 1, master 0, number 5, batch 7, stamp 9, client 3, code 0; on target 0 a delete of name `a` from
/// the root, on target 1 a destroy.
const RECORD: &str =
    "55504431 01000000 00000000 05000000 0700000000000000 0900000000000000 03000000 00000000 02000000 00000000 00000000 38000000 0100debd 0100 0000 0b00 0100 00000000 0700000000000000 0700000002000000 01000000 00000000 0100 0000 00000000 6100000000000000 01000000 28000000 0100debd 0100 0000 0200 0000 00000000 0700000000000000 0004000002000000 01000000 00000000";

/// A Held from target 1 to target 0 in epoch 1: number 5, attempt 6, ask 2. It tells load 1, clock 2, the
/// writer 4 on targets 0 and 1, and a reply with ENOTDIR.
const HELD: &str =
    "31454e4d 03000000 01000000 01000000 00000000 05000000 0600000000000000 02000000 00000000 0000000000000000 28000000 00000000 0100000000000000 0200000000000000 04000000 03000000 0101debd 0100 0000 14000000 00000000";

#[test]
fn reads_a_record_of_two_parts(rt: HostRuntime) -> Result<(), Fail> {
    let alloc = rt.alloc();
    let bytes = spelled(alloc, RECORD)?;
    let Ok((record, end)) = Record::decode(alloc, &bytes) else {
        assert!(rt; false);
        return Ok(());
    };
    assert_eq!(rt; end, 160);
    assert_eq!(rt;
        (record.id.epoch, record.id.master, record.id.batch),
        (1, 0, 7)
    );
    assert_eq!(rt; (record.number, record.stamp, record.client), (5, 9, 3));
    assert!(rt; record.part_of(1).is_some() && record.part_of(2).is_none());
    let targets = record.targets();
    assert!(rt; targets.has(0) && targets.has(1) && !targets.has(2));
    let mut again = Bytes::new(alloc);
    record.encode(&mut again)?;
    assert!(rt; again.bytes() == bytes.as_slice());
    let other = changed(alloc, &bytes, 104, 0x2f)?;
    match Record::decode(alloc, &other) {
        Err(fault) => assert_eq!(rt; fault, RecordFault::BadValue(104)),
        Ok(_) => assert!(rt; false),
    }
    Ok(())
}

#[test]
fn reads_a_held(rt: HostRuntime) -> Result<(), Fail> {
    let alloc = rt.alloc();
    let bytes = spelled(alloc, HELD)?;
    let Ok((message, end)) = Message::decode(alloc, &bytes) else {
        assert!(rt; false);
        return Ok(());
    };
    assert_eq!(rt; (message.kind, end), (MessageKind::Held, 96));
    let mut again = Bytes::new(alloc);
    message.encode(&mut again)?;
    assert!(rt; again.bytes() == bytes.as_slice());
    let Ok((facts, size)) = Facts::decode(alloc, message.body.bytes()) else {
        assert!(rt; false);
        return Ok(());
    };
    assert_eq!(rt; (facts.load, facts.clock, size), (1, 2, 40));
    assert_eq!(rt;
        facts.writer.map(|(number, on)| (number, on.number())),
        Some((4, 3))
    );
    again.clear();
    facts.encode(&mut again)?;
    assert!(rt; again.bytes() == message.body.bytes());
    let mut kept = Messages::new(alloc);
    kept.push(message)?;
    assert!(rt; kept.len() == 1 && kept.get(0).is_some());
    Ok(())
}

#[test]
fn refuses_messages(rt: HostRuntime) -> Result<(), Fail> {
    let alloc = rt.alloc();
    let bytes = spelled(alloc, HELD)?;
    let rows: [(usize, u8, RecordFault); 4] = [
        (4, 13, RecordFault::BadType(4)),
        (37, 1, RecordFault::BadPadding(37)),
        (48, 39, RecordFault::BadLength(48)),
        (80, 2, RecordFault::BadMagic(80)),
    ];
    for (at, with, want) in rows {
        let other = changed(alloc, &bytes, at, with)?;
        match Message::decode(alloc, &other) {
            Err(fault) => assert_eq!(rt; fault, want, "{at}"),
            Ok(_) => assert!(rt; false, "{at}"),
        }
    }
    Ok(())
}

#[test]
fn has_codes_and_laws(rt: HostRuntime) {
    let code = code_of_answer(&Reply::Err(Errno::ENOENT));
    assert_eq!(rt; code, 2);
    assert!(rt; is_answer_code(2) && !is_answer_code(3));
    assert!(rt; matches!(answer_with(2), Some(Reply::Err(Errno::ENOENT))));
    one_spelling_per_record();
    one_spelling_per_message();
    one_spelling_per_facts();
    verdicts_are_of_spelled_records();
    verdicts_are_of_spelled_messages();
    verdicts_are_of_spelled_facts();
    a_record_is_read_back();
    a_message_is_read_back();
    facts_are_read_back();
    answers_are_read_back();
    targets_are_those_of_the_parts();
}
