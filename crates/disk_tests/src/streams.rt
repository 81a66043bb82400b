use outside::{
    Sink, SinkFault, Source, SourceFault, StreamSink, StreamSource, TakeFault, TextSink,
    TextSource, put_all, take_all,
};
use std::alloc::Global;
use std::io::{self, ErrorKind, Read, Write};

/// A reader and a writer that fail.
#[derive(Drop)]
struct Broken;

impl Read for Broken {
    fn read(&mut self, _buf: &mut [u8]) -> io::Result<usize> {
        Err(io::Error::from(ErrorKind::Other))
    }
}

impl Write for Broken {
    fn write(&mut self, _buf: &[u8]) -> io::Result<usize> {
        Err(io::Error::from(ErrorKind::Interrupted))
    }

    fn flush(&mut self) -> io::Result<()> {
        Ok(())
    }
}

/// A writer that takes nothing.
#[derive(Drop)]
struct Full;

impl Write for Full {
    fn write(&mut self, _buf: &[u8]) -> io::Result<usize> {
        Ok(0)
    }

    fn flush(&mut self) -> io::Result<()> {
        Ok(())
    }
}

/// What four reads of at most three bytes answer of five, of which the second fails, what the first and the
/// last leave, and how many failed.
fn read_in_pieces(alloc: Global) -> Option<([Result<usize, SourceFault>; 4], [[u8; 3]; 2], u64)> {
    let mut source = TextSource::new(alloc, b"abcde", &[2]).ok()?;
    let mut first = [0u8; 3];
    let mut last = [0u8; 3];
    let answers = [
        source.read(&mut first),
        source.read(&mut last),
        source.read(&mut last),
        source.read(&mut last),
    ];
    Some((answers, [first, last], source.faults()))
}

#[test]
fn text_in_pieces(rt: HostRuntime) {
    let answers = [Ok(3), Err(SourceFault::Failed), Ok(2), Ok(0)];
    let want = Some((answers, [*b"abc", *b"de\0"], 1));
    assert!(rt; read_in_pieces(rt.alloc()) == want);
}

/// What a put answers and one that fails, whether the bytes of the first alone were put, and how many writes
/// failed and were refused.
fn put_twice(alloc: Global) -> Option<([Result<(), SinkFault>; 2], bool, u64, u64)> {
    let mut sink = TextSink::new(alloc, &[2]).ok()?;
    let answers = [put_all(&mut sink, b"abc"), put_all(&mut sink, b"de")];
    let first = sink.bytes() == b"abc".as_slice();
    Some((answers, first, sink.faults(), sink.refused()))
}

#[test]
fn puts_all(rt: HostRuntime) {
    let want = ([Ok(()), Err(SinkFault::Failed)], true, 1, 0);
    assert!(rt; put_twice(rt.alloc()) == Some(want));
}

#[test]
fn streams_read(rt: HostRuntime) {
    let text: &[u8] = b"abc";
    let mut source = StreamSource::new(text);
    let mut into = [0u8; 2];
    let answer = source.read(&mut into);
    assert!(rt; (answer, into, source.faults()) == (Ok(2), *b"ab", 0));
}

#[test]
fn a_reader_that_fails(rt: HostRuntime) {
    let mut source = StreamSource::new(Broken);
    let answer = source.read(&mut [0u8; 2]);
    assert!(rt; (answer, source.faults()) == (Err(SourceFault::Failed), 1));
}

#[test]
fn streams_write(rt: HostRuntime) {
    let mut bytes = Vec::new(rt.alloc());
    let mut sink = StreamSink::new(&mut bytes);
    let answer = put_all(&mut sink, b"abc");
    let counted = (answer, sink.faults());
    assert!(rt; counted == (Ok(()), 0) && bytes.as_slice() == b"abc".as_slice());
}

#[test]
fn a_writer_that_fails(rt: HostRuntime) {
    let mut sink = StreamSink::new(Broken);
    let answer = sink.write(b"a");
    assert!(rt; (answer, sink.faults()) == (Err(SinkFault::Failed), 1));
}

#[test]
fn a_writer_that_takes_nothing(rt: HostRuntime) {
    let mut sink = StreamSink::new(Full);
    let answers = [sink.write(b"a"), sink.write(b"")];
    let want = ([Err(SinkFault::Failed), Ok(0)], 1);
    assert!(rt; (answers, sink.faults()) == want);
}

/// Whether taking at most so many bytes of five answers so, where the reads with the listed numbers fail.
fn takes(alloc: Global, bad_reads: &[u64], limit: usize, want: Result<&[u8], TakeFault>) -> bool {
    let Ok(mut source) = TextSource::new(alloc, b"abcde", bad_reads) else {
        return false;
    };
    match take_all(alloc, &mut source, limit) {
        Ok(bytes) => want == Ok(bytes.as_slice()),
        Err(fault) => want == Err(fault),
    }
}

#[test]
fn takes_all(rt: HostRuntime) {
    assert!(rt; takes(rt.alloc(), &[], 5, Ok(b"abcde".as_slice())));
    assert!(rt; takes(rt.alloc(), &[], 4, Err(TakeFault::TooMuch)));
    assert!(rt; takes(rt.alloc(), &[2], 5, Err(TakeFault::Source)));
}
