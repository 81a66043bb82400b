use fid_space::Bytes;
use std::alloc::AllocError as Memory;
use std::test::Fail;
use tree_model::{Errno, Name, NameFault, Reply, number, words};

#[test]
fn reads_spelled_names(rt: HostRuntime) -> Result<(), Fail> {
    let alloc = rt.alloc();
    let rows = [
        (
            "A%20%25~%7f%fe",
            [0x41, 0x20, 0x25, 0x7e, 0x7f, 0xfe].as_slice(),
        ),
        ("%2", b"".as_slice()),
        ("%41", b"".as_slice()),
        ("%0A", b"".as_slice()),
        ("a%2fb", b"".as_slice()),
        ("\u{e9}", b"".as_slice()),
    ];
    for (word, bytes) in rows {
        match Name::parse(alloc, word.as_bytes()) {
            Ok(name) => {
                assert!(rt;
                    name.bytes() == bytes && name.copy(alloc)? == name,
                    "{word}"
                )
            }
            Err(fault) => assert!(rt; bytes.is_empty() && fault == NameFault::BadName, "{word}"),
        }
    }
    Ok(())
}

#[test]
fn prints_a_directory_with_all_bits(rt: HostRuntime) -> Result<(), Memory> {
    let directory = Reply::Attr {
        dir: true,
        mode: 0o1537,
        uid: 1000,
        gid: 4294967295,
        links: 2,
    };
    let mut out = Bytes::new(rt.alloc());
    directory.print(&mut out)?;
    assert_eq!(rt; out.bytes(), b"dir 1537 1000 4294967295 2".as_slice());
    Ok(())
}

#[test]
fn errors_have_their_names_and_numbers(rt: HostRuntime) {
    let rows = [
        (Errno::EPERM, "EPERM", 1),
        (Errno::ENOENT, "ENOENT", 2),
        (Errno::EEXIST, "EEXIST", 17),
        (Errno::ENOTDIR, "ENOTDIR", 20),
        (Errno::EISDIR, "EISDIR", 21),
        (Errno::EINVAL, "EINVAL", 22),
        (Errno::EFBIG, "EFBIG", 27),
        (Errno::ENOSPC, "ENOSPC", 28),
        (Errno::EMLINK, "EMLINK", 31),
        (Errno::ENOTEMPTY, "ENOTEMPTY", 39),
        (Errno::ELOOP, "ELOOP", 40),
        (Errno::ENODATA, "ENODATA", 61),
    ];
    for (errno, word, number) in rows {
        assert_eq!(rt; errno.word(), word);
        assert_eq!(rt; errno.code(), number);
    }
}

#[test]
fn numbers_and_words(rt: HostRuntime) -> Result<(), Fail> {
    let rows = [
        (b"0".as_slice(), Some(0)),
        (b"4294967295".as_slice(), Some(4294967295)),
        (b"4294967296".as_slice(), None),
        (b"01".as_slice(), None),
        (b"+1".as_slice(), None),
        (&[0xff], None),
    ];
    for (word, want) in rows {
        assert_eq!(rt; number(rt.alloc(), word)?, want, "{word:?}");
    }
    let got = words(rt.alloc(), b" a  d")?;
    assert_eq!(rt; got.len(), 4);
    assert_eq!(rt; got[1], b"a".as_slice());
    assert_eq!(rt; got[2], b"".as_slice());
    Ok(())
}
