use crate::fixtures::changed;
use decode_mode::{
    decode_log, decode_record, decode_request, one_answer_per_log, one_answer_per_record,
    one_answer_per_request,
};
use llog_store::Llog;
use outside::{Status, TextSink, TextSource};
use std::alloc::Global;
use std::test::*;

/// An insert of name `a` with FID [0x200000400:0x1:0x0] in the root, batch 1.
const VECTOR: [u8; 80] = [
    1, 0, 0xde, 0xbd, 1, 0, 0, 0, 0x0a, 0, 2, 0, 0, 0, 0, 0, 1, 0, 0, 0, 0, 0, 0, 0, 7, 0, 0, 0, 2,
    0, 0, 0, 1, 0, 0, 0, 0, 0, 0, 0, 1, 0, 0, 0, 0, 0, 0, 0, 0x61, 0, 0, 0, 0, 0, 0, 0, 0x10, 0, 0,
    0, 0, 0, 0, 0, 0, 4, 0, 0, 2, 0, 0, 0, 1, 0, 0, 0, 0, 0, 0, 0,
];

/// Whether `decode_request` of the bytes ends so and writes the text.
fn requests(alloc: Global, bytes: &[u8], end: Status, text: &str) -> Result<bool, Fail> {
    let mut input = TextSource::new(alloc, bytes, &[])?;
    let mut output = TextSink::new(alloc, &[])?;
    let status = decode_request(alloc, &mut input, &mut output);
    Ok(status == end && output.bytes() == text.as_bytes())
}

/// Whether `decode_log` of the bytes ends so and writes the text.
fn logs(alloc: Global, bytes: &[u8], end: Status, text: &str) -> Result<bool, Fail> {
    let mut input = TextSource::new(alloc, bytes, &[])?;
    let mut output = TextSink::new(alloc, &[])?;
    let status = decode_log(alloc, &mut input, &mut output);
    Ok(status == end && output.bytes() == text.as_bytes())
}

#[test]
fn shows_the_vector(rt: HostRuntime) -> Result<(), Fail> {
    let text =
        "request 1\nupdate insert [0x200000007:0x1:0x0] batch 1\nparam 61\nparam 00040000020000000100000000000000\nrest 0\n";
    assert!(rt; requests(rt.alloc(), &VECTOR, Status::Done, text)?);
    Ok(())
}

#[test]
fn refuses_a_changed_vector(rt: HostRuntime) -> Result<(), Fail> {
    let rows: [(usize, u8, &str); 3] = [
        (0, 2, "place 0: BadMagic\n"),
        (8, 12, "place 8: BadType\n"),
        (48, 0x2f, "place 48: BadValue\n"),
    ];
    for (at, byte, text) in rows {
        let bytes = changed(rt.alloc(), &VECTOR, at, byte)?;
        assert!(rt;
            requests(rt.alloc(), bytes.as_slice(), Status::Refused, text)?,
            "{at}"
        );
    }
    Ok(())
}

#[test]
fn shows_what_is_left(rt: HostRuntime) -> Result<(), Fail> {
    let bytes: [u8; 9] = [1, 0, 0xde, 0xbd, 0, 0, 0, 0, 5];
    let rows: [(usize, Status, &str); 3] = [
        (8, Status::Done, "request 0\nrest 0\n"),
        (7, Status::Refused, "place 7: Truncated\n"),
        (9, Status::Done, "request 0\nrest 1\n"),
    ];
    for (len, end, text) in rows {
        assert!(rt; requests(rt.alloc(), &bytes[..len], end, text)?, "{len}");
    }
    Ok(())
}

/// A record of one part without updates: epoch 1, master 0, batch 7, number 5, client 3, stamp 9.
const RECORD: [u8; 64] = [
    0x55, 0x50, 0x44, 0x31, 1, 0, 0, 0, 0, 0, 0, 0, 5, 0, 0, 0, 7, 0, 0, 0, 0, 0, 0, 0, 9, 0, 0, 0,
    0, 0, 0, 0, 3, 0, 0, 0, 0, 0, 0, 0, 1, 0, 0, 0, 0, 0, 0, 0, 0, 0, 0, 0, 8, 0, 0, 0, 1, 0, 0xde,
    0xbd, 0, 0, 0, 0,
];

#[test]
fn shows_a_record(rt: HostRuntime) -> Result<(), Fail> {
    let text = "record 1.0.7 number 5 client 3 stamp 9 reply OK\npart 0\nrequest 0\nrest 0\n";
    let mut input = TextSource::new(rt.alloc(), &RECORD, &[])?;
    let mut output = TextSink::new(rt.alloc(), &[])?;
    assert_eq!(rt;
        decode_record(rt.alloc(), &mut input, &mut output),
        Status::Done
    );
    assert!(rt; output.bytes() == text.as_bytes());
    Ok(())
}

/// The chunks of a log, joined.
fn bytes_of(alloc: Global, log: &Llog) -> Result<Vec<u8>, Fail> {
    let mut bytes = Vec::new(alloc);
    for i in 0..log.chunks() {
        bytes.extend_from_slice(log.chunk(i).ok_or("the chunk is there")?)?;
    }
    Ok(bytes)
}

/// A log of three records, of which the second is cancelled.
fn three(alloc: Global) -> Result<Vec<u8>, Fail> {
    let mut log = Llog::new(alloc)?;
    for payload in [b"abc".as_slice(), b"defgh", b"last"] {
        log.append(payload)
            .ok()
            .ok_or("the record was not appended")?;
    }
    log.cancel(2).ok().ok_or("the record was not cancelled")?;
    bytes_of(alloc, &log)
}

#[test]
fn shows_logs(rt: HostRuntime) -> Result<(), Fail> {
    let log = three(rt.alloc())?;
    let text =
        "log next 4 live 2\nindex 1 live length 3\nindex 2 cancelled length 5\nindex 3 live length 4\nrest 0\n";
    assert!(rt; logs(rt.alloc(), log.as_slice(), Status::Done, text)?);
    Ok(())
}

#[test]
fn refuses_a_changed_log(rt: HostRuntime) -> Result<(), Fail> {
    let log = three(rt.alloc())?;
    let bytes = changed(rt.alloc(), log.as_slice(), 20, 3)?;
    let text = "place 20: BadBitmap\n";
    assert!(rt; logs(rt.alloc(), bytes.as_slice(), Status::Refused, text)?);
    assert!(rt; logs(rt.alloc(), b"", Status::Refused, "place 0: Truncated\n")?);
    Ok(())
}

#[test]
fn inputs_and_outputs_that_fail(rt: HostRuntime) -> Result<(), Fail> {
    let alloc = rt.alloc();
    let mut broken = TextSource::new(alloc, &VECTOR, &[2])?;
    let mut output = TextSink::new(alloc, &[])?;
    assert_eq!(rt;
        decode_request(alloc, &mut broken, &mut output),
        Status::Source
    );
    assert_eq!(rt; output.bytes(), b"".as_slice());
    let mut input = TextSource::new(alloc, &VECTOR, &[])?;
    let mut full = TextSink::new(alloc, &[1])?;
    assert_eq!(rt; decode_request(alloc, &mut input, &mut full), Status::Sink);
    Ok(())
}

#[test]
fn laws(rt: HostRuntime) -> Result<(), Fail> {
    one_answer_per_request();
    one_answer_per_log();
    one_answer_per_record();
    assert_eq!(rt; Status::Done.code(), 0);
    Ok(())
}
