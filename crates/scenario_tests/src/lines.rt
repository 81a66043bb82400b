use fid_space::{Bytes, Cluster, Fid, Targets};
use scenario_text::{
    Command, Cut, Kind, Line, LineCutter, Lines, Logged, Sender, TextFault, is_skipped,
    print_no_end, print_refusal,
};
use std::alloc::{AllocError as Memory, Global};
use std::test::Fail;
use tree_model::{Op, Reply};

fn kind(read: &Result<Command, TextFault>) -> &'static str {
    match read {
        Ok(Command::Cluster(_)) => "cluster",
        Ok(Command::Send(_)) => "send",
        Ok(Command::Again(_)) => "again",
        Ok(Command::Deliver(_)) => "deliver",
        Ok(Command::Drop(_)) => "drop",
        Ok(Command::Settle) => "settle",
        Ok(Command::Resend) => "resend",
        Ok(Command::List) => "list",
        Ok(Command::Log(_)) => "log",
        Ok(Command::Tree) => "tree",
        Ok(Command::End) => "end",
        Ok(Command::Commit(_)) => "commit",
        Ok(Command::Crash(_)) => "crash",
        Ok(Command::Restart(_)) => "restart",
        Ok(Command::Fuse { .. }) => "fuse",
        Err(TextFault::NotYet) => "NotYet",
        Err(TextFault::Memory) => "Memory",
    }
}

#[test]
fn reads_commands(rt: HostRuntime) {
    let rows: [(&str, &str); 25] = [
        ("settle", "settle"),
        ("tree", "tree"),
        ("end", "end"),
        ("commit 15", "commit"),
        ("commit 16", "NotYet"),
        ("crash 0", "crash"),
        ("restart 00", "NotYet"),
        ("fuse 0 1000000 255", "fuse"),
        ("fuse 0 0 256", "NotYet"),
        ("send 65536 63 getattr [0x200f00400:0x1:0x0]", "send"),
        ("send 0 0 getattr [0x200000007:0x1:0x0]", "NotYet"),
        ("send 1 64 getattr [0x200000007:0x1:0x0]", "NotYet"),
        ("send 1 0 mknod [0x200000007:0x1:0x0] a", "NotYet"),
        ("again 65536", "again"),
        ("again 0", "NotYet"),
        ("deliver 4294967295", "deliver"),
        ("deliver 4294967296", "NotYet"),
        ("drop 0", "drop"),
        ("resend", "resend"),
        ("list", "list"),
        ("log 15", "log"),
        ("log 16", "NotYet"),
        ("recover", "NotYet"),
        ("settle ", "NotYet"),
        ("", "NotYet"),
    ];
    for (line, want) in rows {
        let read = Command::parse(rt.alloc(), line.as_bytes(), Cluster::new(16));
        assert_eq!(rt; kind(&read), want, "{line}");
    }
}

#[test]
fn reads_clusters(rt: HostRuntime) {
    let rows: [(&str, &str, bool); 6] = [
        ("cluster 1", "cluster", true),
        ("cluster 16", "cluster", false),
        ("cluster 0", "NotYet", false),
        ("cluster 17", "NotYet", false),
        ("commit 0", "NotYet", false),
        ("send 1 0 getattr [0x200000007:0x1:0x0]", "NotYet", false),
    ];
    for (line, want, played) in rows {
        let read = Command::parse(rt.alloc(), line.as_bytes(), None);
        assert_eq!(rt; kind(&read), want, "{line}");
        let is = match &read {
            Ok(command) => command.is_played(),
            Err(_) => false,
        };
        assert_eq!(rt; is, played, "{line}");
    }
}

#[test]
fn tells_skipped_lines(rt: HostRuntime) -> Result<(), Fail> {
    assert!(rt; is_skipped(b"") && is_skipped(b"# x") && !is_skipped(b" # x"));
    let mut out = Bytes::new(rt.alloc());
    print_refusal(7, &mut out)?;
    print_no_end(1_000_001, &mut out)?;
    assert_eq!(rt;
        out.bytes(),
        b"line 7: NotYet\nline 1000001: NoEnd\n".as_slice()
    );
    Ok(())
}

/// A line goes on in the next piece, and a long one shows at its byte 16,385.
#[test]
fn cuts_lines(rt: HostRuntime) -> Result<(), Fail> {
    let mut cutter = LineCutter::new(rt.alloc());
    assert_eq!(rt; cutter.feed(b"ab\n\ncd")?, Cut::Line { used: 3 });
    assert_eq!(rt; cutter.line(), b"ab".as_slice());
    assert_eq!(rt; cutter.feed(b"\ncd")?, Cut::Line { used: 1 });
    assert_eq!(rt; cutter.line(), b"".as_slice());
    assert_eq!(rt; cutter.feed(b"cd")?, Cut::More);
    assert_eq!(rt; cutter.line(), b"cd".as_slice());
    assert!(rt; cutter.is_open());
    let long = vec![in rt.alloc(); b'x'; 16_385]?;
    let mut cutter = LineCutter::new(rt.alloc());
    assert!(rt; long.len() == 16_385);
    assert_eq!(rt; cutter.feed(&long.as_slice()[..16_384])?, Cut::More);
    assert_eq!(rt; cutter.feed(b"\nx")?, Cut::Line { used: 1 });
    assert_eq!(rt; cutter.feed(long.as_slice())?, Cut::Long { used: 16_385 });
    Ok(())
}

#[test]
fn reads_the_parts_of_a_request(rt: HostRuntime) {
    let line = b"send 65536 63 create [0x200000007:0x1:0x0] a-B [0x200000400:0x2:0x3]";
    let read = Command::parse(rt.alloc(), line.as_slice(), Cluster::new(1));
    let file = Fid {
        seq: 0x2_0000_0400,
        oid: 2,
        ver: 3,
    };
    match read {
        Ok(Command::Send(request)) => {
            assert_eq!(rt; request.number, 65_536);
            assert_eq!(rt; request.client, 63);
            match &request.op {
                Op::Create { parent, name, fid } => {
                    assert_eq!(rt; *parent, Fid::ROOT);
                    assert_eq!(rt; name.bytes(), b"a-B".as_slice());
                    assert_eq!(rt; *fid, file);
                }
                _ => assert!(rt; false, "no create"),
            }
        }
        _ => assert!(rt; false, "no request"),
    }
}

/// What a line prints.
fn printed(alloc: Global, line: Line) -> Result<Bytes, Memory> {
    let mut out = Bytes::new(alloc);
    line.print(&mut out)?;
    Ok(out)
}

/// Lines that no scenario of one target has, or that need a broken disk.
#[test]
fn prints_lines(rt: HostRuntime) -> Result<(), Fail> {
    let alloc = rt.alloc();
    let on = Targets::none().with(0).with(15).with(3);
    let accept = Line::Accept {
        number: 7,
        reply: Reply::Fid(Fid::ROOT),
        on,
    };
    assert_eq!(rt;
        printed(alloc, accept)?.bytes(),
        b"accept 7 [0x200000007:0x1:0x0] on 0,3,15\n".as_slice()
    );
    let gates = Line::DamagedGates {
        target: 15,
        gates: 3,
    };
    assert_eq!(rt;
        printed(alloc, gates)?.bytes(),
        b"damaged 15 gates 3\n".as_slice()
    );
    let image = Line::DamagedImage {
        target: 15,
        place: 33_546_224,
    };
    assert_eq!(rt;
        printed(alloc, image)?.bytes(),
        b"damaged 15 image 33546224\n".as_slice()
    );
    Ok(())
}

/// Lines of several targets, in a list.
#[test]
fn prints_lines_of_several_targets(rt: HostRuntime) -> Result<(), Fail> {
    let alloc = rt.alloc();
    let mut lines = Lines::new(alloc);
    lines.push(Line::Done {
        number: 1,
        target: 15,
    })?;
    lines.push(Line::Full {
        number: 489,
        target: 0,
        load: 4_070_272,
        need: 1_179_648,
    })?;
    lines.push(Line::Shared {
        target: 0,
        number: 3,
        writer: 2,
    })?;
    lines.push(Line::LogEntry(Logged {
        index: 1,
        epoch: 2,
        master: 0,
        batch: 3,
        number: 4,
        on: Targets::none().with(0).with(1),
    }))?;
    lines.push(Line::Message {
        number: 6,
        kind: Kind::Stable,
        request: 0,
        from: Sender::Target(1),
        to: 0,
    })?;
    lines.push(Line::Message {
        number: 7,
        kind: Kind::Request,
        request: 5,
        from: Sender::Client(63),
        to: 15,
    })?;
    let mut out = Bytes::new(alloc);
    lines.print(&mut out)?;
    assert!(rt; lines.len() == 6);
    assert_eq!(rt;
        out.bytes(),
        b"done 1 at 15\nfull 489 target 0 load 4070272 need 1179648\nshared 0 3 2\nindex 1 id 2.0.3 number 4 on 0,1\nmsg 6 stable 0 1 0\nmsg 7 request 5 c63 15\n".as_slice()
    );
    Ok(())
}
