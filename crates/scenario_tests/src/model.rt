use model_mode::play_model;
use outside::{Status, TextSink, TextSource};
use std::alloc::Global;
use std::test::Fail;

/// Runs a text; the calls with the listed numbers fail.
fn run(
    alloc: Global,
    text: &[u8],
    bad_reads: &[u64],
    bad_writes: &[u64],
) -> Result<(Status, TextSink), Fail> {
    let mut input = TextSource::new(alloc, text, bad_reads)?;
    let mut output = TextSink::new(alloc, bad_writes)?;
    let status = play_model(alloc, &mut input, &mut output);
    Ok((status, output))
}

#[test]
fn runs_scenarios(rt: HostRuntime) -> Result<(), Fail> {
    let rows: [(&str, Status, &str); 4] = [
        (
            "cluster 1\nsend 1 0 create [0x200000007:0x1:0x0] a [0x200000400:0x1:0x0]\nsettle\ntree\nend\n",
            Status::Done,
            "reply 1 OK\ntree 2 1\nnode [0x200000007:0x1:0x0] dir 0755 0 0 2\nnode [0x200000400:0x1:0x0] file 0644 0 0 1\nentry [0x200000007:0x1:0x0] a [0x200000400:0x1:0x0]\nend\n",
        ),
        (
            "# made\n\ncluster 16\ncommit 15\ncrash 0\nrestart 0\nfuse 3 7 255\ndeliver 9\ndrop 0\nresend\nlist\nlog 15\nend",
            Status::Done,
            "end\n",
        ),
        (
            "cluster 16\nsend 7 63 create [0x200000007:0x1:0x0] z [0x200f00400:0x1:0x0]\nend\n",
            Status::Done,
            "reply 7 OK\nend\n",
        ),
        (
            "cluster 1\ntree\n",
            Status::Refused,
            "tree 1 0\nnode [0x200000007:0x1:0x0] dir 0755 0 0 2\nline 3: NoEnd\n",
        ),
    ];
    for (text, status, want) in rows {
        let (got, output) = run(rt.alloc(), text.as_bytes(), &[], &[])?;
        assert_eq!(rt; got, status, "{text}");
        assert_eq!(rt; output.bytes(), want.as_bytes(), "{text}");
    }
    Ok(())
}

#[test]
fn refuses_lines(rt: HostRuntime) -> Result<(), Fail> {
    let rows: [(&str, &str); 13] = [
        ("", "line 1: NoEnd\n"),
        ("tree\n", "line 1: NotYet\n"),
        ("cluster 0\n", "line 1: NotYet\n"),
        ("cluster 17\n", "line 1: NotYet\n"),
        ("cluster 1\ncluster 1\n", "line 2: NotYet\n"),
        ("cluster 1\nend\nend\n", "end\nline 3: NotYet\n"),
        ("cluster 1\nend\n\n", "end\nline 3: NotYet\n"),
        ("cluster 1\ncommit 1\n", "line 2: NotYet\n"),
        (
            "cluster 1\nsend 0 0 getattr [0x200000007:0x1:0x0]\n",
            "line 2: NotYet\n",
        ),
        (
            "cluster 1\nsend 1 0 getattr [0x200100400:0x1:0x0]\n",
            "line 2: NotYet\n",
        ),
        (
            "cluster 1\nsend 1 0 getattr [0x200000400:0x1:0x0]\nsend 1 0 getattr [0x200000400:0x1:0x0]\n",
            "reply 1 ENOENT\nline 3: NotYet\n",
        ),
        ("cluster 2\nagain 1\n", "line 2: NotYet\n"),
        ("cluster 2\n\nfrob", "line 3: NotYet\n"),
    ];
    for (text, want) in rows {
        let (got, output) = run(rt.alloc(), text.as_bytes(), &[], &[])?;
        assert_eq!(rt; got, Status::Refused, "{text}");
        assert_eq!(rt; output.bytes(), want.as_bytes(), "{text}");
    }
    Ok(())
}

#[test]
fn answers_each_kind_of_request(rt: HostRuntime) -> Result<(), Fail> {
    let rows: [(&str, &str); 15] = [
        ("mkdir [0x200000007:0x1:0x0] d [0x200000400:0x1:0x0]", "OK"),
        ("create [0x200000400:0x1:0x0] a [0x200000400:0x2:0x0]", "OK"),
        (
            "create [0x200000400:0x1:0x0] a [0x200000400:0x3:0x0]",
            "EEXIST",
        ),
        ("link [0x200000007:0x1:0x0] b [0x200000400:0x2:0x0]", "OK"),
        ("setattr [0x200000400:0x2:0x0] 416 7 9", "OK"),
        ("getattr [0x200000400:0x2:0x0]", "file 0640 7 9 2"),
        ("setxattr [0x200000400:0x2:0x0] user.k 00fe", "OK"),
        ("getxattr [0x200000400:0x2:0x0] user.k", "00fe"),
        ("delxattr [0x200000400:0x2:0x0] user.x", "ENODATA"),
        ("lookup [0x200000400:0x1:0x0] a", "[0x200000400:0x2:0x0]"),
        (
            "rename [0x200000400:0x1:0x0] a [0x200000007:0x1:0x0] c",
            "OK",
        ),
        ("unlink [0x200000007:0x1:0x0] b", "OK"),
        ("migrate [0x200000400:0x1:0x0] 2 1", "EINVAL"),
        ("rmdir [0x200000007:0x1:0x0] d", "OK"),
        ("getattr [0x200000007:0x1:0x0]", "dir 0755 0 0 2"),
    ];
    let mut text = String::from_str(rt.alloc(), "cluster 1\n")?;
    let mut want = String::new(rt.alloc());
    let mut number = 1u32;
    for (op, reply) in rows {
        text.push_str(format!(in rt.alloc(); "send {number} 0 {op}\n")?.as_str())?;
        want.push_str(format!(in rt.alloc(); "reply {number} {reply}\n")?.as_str())?;
        number = number.wrapping_add(1);
    }
    text.push_str("end\n")?;
    want.push_str("end\n")?;
    let (status, output) = run(rt.alloc(), text.as_bytes(), &[], &[])?;
    assert_eq!(rt; status, Status::Done);
    assert_eq!(rt; output.bytes(), want.as_bytes());
    Ok(())
}

#[test]
fn stops_at_faults(rt: HostRuntime) -> Result<(), Fail> {
    let text = b"cluster 1\ntree\nend\n".as_slice();
    let tree = b"tree 1 0\nnode [0x200000007:0x1:0x0] dir 0755 0 0 2\n".as_slice();
    let (status, output) = run(rt.alloc(), text, &[1], &[])?;
    assert_eq!(rt; status, Status::Source);
    assert_eq!(rt; output.bytes(), b"".as_slice());
    let (status, _) = run(rt.alloc(), text, &[2], &[])?;
    assert_eq!(rt; status, Status::Source);
    let (status, output) = run(rt.alloc(), text, &[], &[2])?;
    assert_eq!(rt; status, Status::Sink);
    assert_eq!(rt; output.bytes(), tree);
    Ok(())
}
