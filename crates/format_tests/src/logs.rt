use fid_space::Bytes;
use llog_store::{AppendFault, Llog, LlogFault, NotLive};
use std::alloc::Global;
use std::test::*;

const HEADER: usize = 32_768;

/// A log with a record of as many bytes as each number says.
fn log_of(alloc: Global, sizes: &[usize]) -> Result<Llog, Fail> {
    let mut log = Llog::new(alloc)?;
    for size in sizes {
        log.append(payload(alloc, *size)?.as_slice())
            .ok()
            .ok_or("the record was not appended")?;
    }
    Ok(log)
}

fn payload(alloc: Global, size: usize) -> Result<Vec<u8>, Fail> {
    let mut bytes = Vec::new(alloc);
    bytes.resize(size, 0x5a)?;
    Ok(bytes)
}

/// The chunks of a log, joined.
fn bytes_of(alloc: Global, log: &Llog) -> Result<Vec<u8>, Fail> {
    let mut bytes = Vec::new(alloc);
    for i in 0..log.chunks() {
        bytes.extend_from_slice(log.chunk(i).ok_or("the chunk is there")?)?;
    }
    Ok(bytes)
}

fn text_of(alloc: Global, log: &Llog) -> Result<Bytes, Fail> {
    let mut out = Bytes::new(alloc);
    log.print(&mut out)?;
    Ok(out)
}

#[test]
fn an_empty_log(rt: HostRuntime) -> Result<(), Fail> {
    let log = Llog::new(rt.alloc())?;
    assert_eq!(rt;
        (log.next(), log.live(), log.records(), log.chunks()),
        (1, 0, 0, 1)
    );
    let bytes = log.chunk(0).ok_or("the header is there")?;
    assert_eq!(rt; bytes.len(), HEADER);
    let front: [u8; 24] = [
        0, 0x80, 0, 0, 0, 0, 0, 0, 0x39, 0x55, 0x64, 0x10, 0, 0, 0, 0, 1, 0, 0, 0, 0, 0, 0, 0,
    ];
    assert_eq!(rt; bytes.get(..24), Some(front.as_slice()));
    assert_eq!(rt; bytes.get(24..32), Some([0u8; 8].as_slice()));
    assert_eq!(rt;
        bytes.get(32_760..),
        Some([0, 0x80, 0, 0, 0, 0, 0, 0].as_slice())
    );
    assert!(rt; log.walk(0).is_none());
    assert_eq!(rt;
        text_of(rt.alloc(), &log)?.bytes(),
        b"log next 1 live 0\n".as_slice()
    );
    Ok(())
}

#[test]
fn one_record(rt: HostRuntime) -> Result<(), Fail> {
    let mut log = Llog::new(rt.alloc())?;
    assert_eq!(rt; log.append(b"abc"), Ok(1));
    let record: [u8; 40] = [
        40, 0, 0, 0, 1, 0, 0, 0, 0, 0, 0x6a, 0x10, 0, 0, 0, 0, 3, 0, 0, 0, 0, 0, 0, 0, b'a', b'b',
        b'c', 0, 0, 0, 0, 0, 40, 0, 0, 0, 1, 0, 0, 0,
    ];
    assert_eq!(rt; log.chunk(1), Some(record.as_slice()));
    assert_eq!(rt; log.place(1), Some(32_792));
    let header = log.chunk(0).ok_or("the header is there")?;
    assert_eq!(rt;
        header.get(16..25),
        Some([2, 0, 0, 0, 1, 0, 0, 0, 2].as_slice())
    );
    assert_eq!(rt; log.chunk(2), None);
    Ok(())
}

/// The first record takes 24,608 bytes of its chunk and leaves 8,160.
#[test]
fn records_that_just_fit_and_pads(rt: HostRuntime) -> Result<(), Fail> {
    let rows: [(usize, u32, usize); 5] = [
        (8_128, 2, 32_768),
        (8_120, 3, 32_768 + 8_152),
        (8_112, 3, 32_768 + 8_144),
        (8_104, 2, 32_744),
        (24_576, 3, 32_768 + 24_608),
    ];
    for (size, index, end) in rows {
        let mut log = log_of(rt.alloc(), &[24_576])?;
        let second = payload(rt.alloc(), size)?;
        assert_eq!(rt; log.append(second.as_slice()), Ok(index), "{size}");
        assert_eq!(rt; bytes_of(rt.alloc(), &log)?.len(), HEADER + end, "{size}");
    }
    Ok(())
}

#[test]
fn limits_of_payload_and_index(rt: HostRuntime) -> Result<(), Fail> {
    let mut log = Llog::new(rt.alloc())?;
    let long = payload(rt.alloc(), 24_577)?;
    assert_eq!(rt;
        log.append(long.as_slice()),
        Err(AppendFault::TooLong(24_577))
    );
    for index in 1..256_000 {
        assert_eq!(rt; log.append(b""), Ok(index));
    }
    assert_eq!(rt; log.append(b""), Err(AppendFault::Full(256_000)));
    assert_eq!(rt; log.cancel(255_999), Ok(()));
    assert_eq!(rt; log.pack(), Ok(()));
    assert_eq!(rt; log.append(b""), Ok(255_999));
    Ok(())
}

/// The index and the payload's length of the first live record from an index on.
fn walked(log: &Llog, from: u32) -> Option<(u32, usize)> {
    match log.walk(from) {
        Some((index, payload)) => Some((index, payload.len())),
        None => None,
    }
}

/// The length of the payload with an index.
fn lent(log: &Llog, index: u32) -> Option<usize> {
    match log.payload(index) {
        Some(payload) => Some(payload.len()),
        None => None,
    }
}

#[test]
fn cancelled_walked_packed_and_cleared(rt: HostRuntime) -> Result<(), Fail> {
    let mut log = log_of(rt.alloc(), &[3, 5])?;
    assert_eq!(rt; log.append(b"last"), Ok(3));
    assert_eq!(rt; log.cancel(2), Ok(()));
    for index in [0, 2, 4, 255_999, 256_000, u32::MAX] {
        assert_eq!(rt; log.cancel(index), Err(NotLive), "{index}");
    }
    assert_eq!(rt; (log.next(), log.live(), log.records()), (4, 2, 3));
    assert_eq!(rt; walked(&log, 0), Some((1, 3)));
    assert_eq!(rt; walked(&log, 2), Some((3, 4)));
    assert_eq!(rt; walked(&log, 4), None);
    assert_eq!(rt; (lent(&log, 3), lent(&log, 2)), (Some(4), None));
    log.pack()?;
    assert_eq!(rt; (log.next(), log.live(), log.records()), (3, 2, 2));
    assert_eq!(rt; walked(&log, 2), Some((2, 4)));
    log.clear();
    assert_eq!(rt; (log.next(), log.chunks()), (1, 1));
    Ok(())
}

/// Record 1 stands at 32,768, a pad of 8,160 bytes with index 2 at 57,376, record 3 at 65,536 and record 4
/// at 73,688, up to 73,728.
fn padded(alloc: Global) -> Result<Vec<u8>, Fail> {
    let log = log_of(alloc, &[24_576, 8_120, 3])?;
    bytes_of(alloc, &log)
}

/// The log in chunks is read from one slice, and spelled again.
#[test]
fn a_log_is_read_again(rt: HostRuntime) -> Result<(), Fail> {
    let bytes = padded(rt.alloc())?;
    let log = Llog::read(rt.alloc(), bytes.as_slice())
        .ok()
        .ok_or("the log is read")?;
    assert_eq!(rt;
        (log.next(), log.live(), log.chunks(), bytes.len()),
        (5, 3, 3, 73_728)
    );
    assert_eq!(rt; bytes_of(rt.alloc(), &log)?, bytes);
    assert_eq!(rt; log.payload(4), Some(b"ZZZ".as_slice()));
    Ok(())
}

/// The same bytes, copied in pieces of at most so many. There are no more pieces than bytes.
fn copied(alloc: Global, bytes: &[u8], most: usize) -> Result<Vec<u8>, Fail> {
    let mut copy = Vec::new(alloc);
    let mut rest = bytes;
    for _i in 0..bytes.len() {
        let (piece, behind) = rest.split_at(most.min(rest.len()));
        copy.extend_from_slice(piece)?;
        rest = behind;
    }
    Ok(copy)
}

/// The spelling of a log is copied in pieces, and the log is read from the copy.
#[test]
fn a_log_in_pieces(rt: HostRuntime) -> Result<(), Fail> {
    let bytes = padded(rt.alloc())?;
    for most in [1, 7, 4_096] {
        let copy = copied(rt.alloc(), bytes.as_slice(), most)?;
        assert_eq!(rt; copy, bytes, "{most}");
        let log = Llog::read(rt.alloc(), copy.as_slice())
            .ok()
            .ok_or("the log is read")?;
        assert_eq!(rt; (log.records(), log.live()), (3, 3), "{most}");
        assert_eq!(rt; log.payload(4), Some(b"ZZZ".as_slice()), "{most}");
    }
    Ok(())
}

/// What reading answers where two bytes are written over.
fn refusal(alloc: Global, one: (usize, u8), other: (usize, u8)) -> Result<Option<LlogFault>, Fail> {
    let mut bytes = padded(alloc)?;
    for (place, byte) in [one, other] {
        if let Some(old) = bytes.as_mut_slice().get_mut(place) {
            *old = byte;
        }
    }
    Ok(Llog::read(alloc, bytes.as_slice()).err())
}

/// Ordinary faults; lengths that only a pad can have, where none may stand and where one may; a pad's type
/// behind another length; a bit of the pad, where the count is one more.
const FAULTS: [((usize, u8), (usize, u8), LlogFault); 12] = [
    ((4, 1), (4, 1), LlogFault::BadIndex(4)),
    ((13, 1), (13, 1), LlogFault::BadPadding(13)),
    ((32_764, 1), (32_764, 1), LlogFault::BadTail(32_764)),
    ((32_784, 1), (32_784, 1), LlogFault::BadLength(32_784)),
    ((57_368, 0), (57_368, 0), LlogFault::BadTail(57_368)),
    ((73_715, 1), (73_715, 1), LlogFault::BadPadding(73_715)),
    ((32_768, 0x28), (32_769, 0x60), LlogFault::BadLength(32_768)),
    ((65_536, 0x28), (65_537, 0x60), LlogFault::BadLength(65_536)),
    ((32_768, 0), (32_769, 0x80), LlogFault::BadType(32_776)),
    ((32_778, 0x60), (32_779, 0x10), LlogFault::BadType(32_776)),
    ((20, 4), (24, 0b11110), LlogFault::BadBitmap(24)),
    ((20, 4), (32_023, 128), LlogFault::BadBitmap(32_023)),
];

#[test]
fn faults_with_their_places(rt: HostRuntime) -> Result<(), Fail> {
    for (one, other, want) in FAULTS {
        assert_eq!(rt; refusal(rt.alloc(), one, other)?, Some(want), "{one:?}");
    }
    Ok(())
}

#[test]
fn inputs_that_end_early(rt: HostRuntime) -> Result<(), Fail> {
    for len in [0, 32_767, 32_768, 73_688, 73_727] {
        let mut bytes = padded(rt.alloc())?;
        bytes.truncate(len);
        let got = Llog::read(rt.alloc(), bytes.as_slice()).err();
        assert_eq!(rt; got, Some(LlogFault::Truncated(len)), "{len}");
    }
    Ok(())
}

#[test]
fn the_line_of_a_fault(rt: HostRuntime) -> Result<(), Fail> {
    let mut out = Bytes::new(rt.alloc());
    LlogFault::BadTail(32_760).print(&mut out)?;
    assert_eq!(rt; out.bytes(), b"place 32760: BadTail\n".as_slice());
    Ok(())
}
