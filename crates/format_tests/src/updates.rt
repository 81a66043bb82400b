use crate::digits::spelled;
use crate::fixtures::changed;
use fid_space::{Bytes, Fid};
use out_update::{
    Decoder, Kind, Params, Parts, Progress, ReplyDecoder, ReplyProgress, Update, UpdateRequest,
    a_fid_is_read_back, kind_of, one_spelling_per_reply, one_spelling_per_request, read_pieces,
    reply_of, request_of, verdicts_are_of_spelled_replies, verdicts_are_of_spelled_requests,
};
use std::alloc::{AllocError as Memory, Global};
use std::test::Fail;

/// An insert of name `a` with FID [0x200000400:0x1:0x0] in the root, batch 1.
const VECTOR: &str =
    "0100debd01000000 0a00020000000000 0100000000000000 07000000020000000100000000000000 01000000000000006100000000000000 1000000000000000000400000200000001000000 00000000";

const VECTOR_TEXT: &str =
    "request 1\nupdate insert [0x200000007:0x1:0x0] batch 1\nparam 61\nparam 00040000020000000100000000000000\nrest 0\n";

/// Adds a line for the answer to a piece behind so many bytes. False where more is to come.
fn answer(
    decoder: &mut Decoder,
    piece: &[u8],
    behind: usize,
    out: &mut Bytes,
) -> Result<bool, Memory> {
    let alloc = out.alloc();
    match decoder.feed(piece) {
        Ok(Progress::More) => Ok(false),
        Ok(Progress::Done { value, used }) => {
            value.print(out)?;
            let rest = piece.len().saturating_sub(used).saturating_add(behind);
            let text = format!(in alloc; "rest {rest}\n")?;
            out.append(text.as_bytes())?;
            Ok(true)
        }
        Err(fault) => {
            let Some((place, word)) = fault.told() else {
                return Err(Memory);
            };
            let text = format!(in alloc; "place {place}: {word}\n")?;
            out.append(text.as_bytes())?;
            Ok(true)
        }
    }
}

/// What is shown of these bytes, read in two pieces; nothing where more is to come.
fn decoded(alloc: Global, bytes: &[u8], cut: usize) -> Result<Bytes, Memory> {
    let mut out = Bytes::new(alloc);
    let mut decoder = Decoder::new(alloc);
    let (first, back) = bytes.split_at(cut.min(bytes.len()));
    if !answer(&mut decoder, first, back.len(), &mut out)? {
        answer(&mut decoder, back, 0, &mut out)?;
    }
    Ok(out)
}

#[test]
fn reads_the_vector(rt: HostRuntime) -> Result<(), Fail> {
    let alloc = rt.alloc();
    let bytes = spelled(alloc, VECTOR)?;
    let rows: [(usize, u8, &str); 10] = [
        (0, 1, VECTOR_TEXT),
        (0, 2, "place 0: BadMagic\n"),
        (4, 129, "place 4: BadCount\n"),
        (6, 1, "place 6: BadPadding\n"),
        (8, 12, "place 8: BadType\n"),
        (10, 1, "place 10: BadCount\n"),
        (40, 0, "place 40: BadLength\n"),
        (48, 0x2f, "place 48: BadValue\n"),
        (49, 1, "place 49: BadPadding\n"),
        (56, 17, "place 56: BadLength\n"),
    ];
    for (at, byte, want) in rows {
        let other = changed(alloc, &bytes, at, byte)?;
        for cut in [0, 1, 41, 79] {
            assert!(rt;
                decoded(alloc, &other, cut)?.bytes() == want.as_bytes(),
                "{at}"
            );
        }
    }
    Ok(())
}

/// Whether these bytes are one request, which is written so again.
fn is_written_again(alloc: Global, bytes: &[u8]) -> Result<bool, Memory> {
    let mut decoder = Decoder::new(alloc);
    let Ok(Progress::Done { value, used }) = decoder.feed(bytes) else {
        return Ok(false);
    };
    let mut again = Bytes::new(alloc);
    value.encode(&mut again)?;
    Ok(used == bytes.len() && again.bytes() == bytes)
}

#[test]
fn makes_and_writes_a_request(rt: HostRuntime) -> Result<(), Fail> {
    let alloc = rt.alloc();
    let mut name = Bytes::new(alloc);
    name.append(b"a")?;
    let mut fid = Bytes::new(alloc);
    fid.append(&spelled(alloc, "0004000002000000 01000000 00000000")?)?;
    let mut params = Params::new(alloc);
    params.push(name)?;
    params.push(fid)?;
    assert_eq!(rt; (params.len(), params.get(2).is_some()), (2, false));
    let mut request = UpdateRequest::new(alloc);
    request.push(Update {
        kind: Kind::Insert,
        batch: 1,
        fid: Fid::ROOT,
        params,
    })?;
    let bytes = spelled(alloc, VECTOR)?;
    assert!(rt; is_written_again(alloc, &bytes)?);
    for update in request.items() {
        assert!(rt; update.kind.word() == "insert" && !update.kind.is_read());
    }
    let mut parts = Parts::new(alloc);
    parts.push((3, request.copy(alloc)?))?;
    let again = parts.copy(alloc)?;
    assert_eq!(rt; again.len(), 1);
    match again.get(0) {
        Some((3, updates)) => {
            assert!(rt; updates.len() == 1 && updates.get(0).is_some());
        }
        _ => assert!(rt; false),
    }
    match request_of(alloc, &bytes) {
        Ok((value, rest)) => assert_eq!(rt; (value.len(), rest.len()), (1, 0)),
        Err(_) => assert!(rt; false),
    }
    assert_eq!(rt; kind_of(10), Some(Kind::Insert));
    Ok(())
}

#[test]
fn reads_a_reply(rt: HostRuntime) -> Result<(), Fail> {
    let alloc = rt.alloc();
    let bytes = spelled(
        alloc,
        "0101debd 0100 0000 02000000 01000000 ff 00000000000000",
    )?;
    let mut decoder = ReplyDecoder::new(alloc);
    let Ok(ReplyProgress::Done { value, used }) = decoder.feed(&bytes) else {
        assert!(rt; false);
        return Ok(());
    };
    let mut again = Bytes::new(alloc);
    value.copy(alloc)?.encode(&mut again)?;
    assert!(rt; used == bytes.len() && again.bytes() == bytes.as_slice());
    assert_eq!(rt; value.len(), 1);
    match value.get(0) {
        Some(found) => assert_eq!(rt; (found.code, found.body.len()), (2, 1)),
        None => assert!(rt; false),
    }
    match reply_of(alloc, &bytes) {
        Ok((value, _)) => assert_eq!(rt; value.len(), 1),
        Err(_) => assert!(rt; false),
    }
    Ok(())
}

#[test]
fn reads_a_list_of_pieces(rt: HostRuntime) -> Result<(), Fail> {
    let alloc = rt.alloc();
    let mut pieces = Vec::new(alloc);
    for text in [
        "0100",
        "",
        "debd 0100 0000 0200",
        "0000 00000000 0100000000000000 00000000000000000000000000000000 ff",
    ] {
        let mut piece = Bytes::new(alloc);
        piece.append(&spelled(alloc, text)?)?;
        pieces.push(piece)?;
    }
    match read_pieces(alloc, &pieces) {
        Ok(Some(request)) => assert_eq!(rt; request.len(), 1),
        _ => assert!(rt; false),
    }
    one_spelling_per_request();
    one_spelling_per_reply();
    verdicts_are_of_spelled_requests();
    verdicts_are_of_spelled_replies();
    a_fid_is_read_back();
    Ok(())
}
