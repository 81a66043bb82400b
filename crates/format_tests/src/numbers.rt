use byte_grammar::{
    BuildFault, number8, number16, number32, number64, padding_of, part, put_zeros, put16, put32,
    put64, set_byte, u16_at, u32_at, u64_at,
};
use std::test::Fail;

#[test]
fn reads_numbers(rt: HostRuntime) {
    let bytes = [1u8, 2, 3, 4, 5, 6, 7, 8];
    assert_eq!(rt; number8(&bytes[..1]), 1);
    assert_eq!(rt; number16(&bytes[..2]), 0x0201);
    assert_eq!(rt; number32(&bytes[..4]), 0x0403_0201);
    assert_eq!(rt; number64(bytes.as_slice()), 0x0807_0605_0403_0201);
}

#[test]
fn writes_numbers(rt: HostRuntime) -> Result<(), Fail> {
    let mut out = Vec::new(rt.alloc());
    put16(&mut out, 0x0201)?;
    put32(&mut out, 0x0605_0403)?;
    put64(&mut out, 0x0e0d_0c0b_0a09_0807)?;
    put_zeros(&mut out, 2)?;
    assert_eq!(rt;
        out.as_slice(),
        b"\x01\x02\x03\x04\x05\x06\x07\x08\x09\x0a\x0b\x0c\x0d\x0e\x00\x00".as_slice()
    );
    Ok(())
}

#[test]
fn finds_what_is_set_and_what_lacks(rt: HostRuntime) {
    assert_eq!(rt; set_byte(b"\x00\x00\x09\x09"), Some(2));
    assert_eq!(rt; set_byte(b"\x00\x00"), None);
    for (len, lacks) in [(0, 0), (1, 7), (7, 1), (8, 0), (4097, 7)] {
        assert_eq!(rt; padding_of(len), lacks, "{len}");
    }
}

#[test]
fn reads_parts(rt: HostRuntime) {
    let bytes = b"\x01\x00\x02\x00\x00\x00\x03\x00\x00\x00\x00\x00\x00\x00ab";
    match parts_of(bytes.as_slice()) {
        Ok((one, two, three, rest)) => {
            assert_eq!(rt; (one, two, three), (1, 2, 3));
            assert_eq!(rt; rest, b"ab".as_slice());
        }
        Err(_) => assert!(rt; false),
    }
    assert!(rt; parts_of(&bytes[..13]).is_err());
    assert!(rt; part(3, b"ab").is_err());
}

fn parts_of(bytes: &[u8]) -> Result<(u16, u32, u64, &[u8]), BuildFault> {
    let (one, rest) = u16_at(bytes)?;
    let (two, rest) = u32_at(rest)?;
    let (three, rest) = u64_at(rest)?;
    let (front, _) = part(2, rest)?;
    Ok((one, two, three, front))
}
