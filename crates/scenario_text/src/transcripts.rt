ghost use Rattle.std.specs.Prelude.{codes};
ghost use Rattle.scenario_text.specs.Worked.{AreCalm, AreOpen, AreWaiting, IsTranscript, MayLeave};

/// The transcript of a first scenario: one file is made and shown. It stands here as text, so that what
/// a program writes can be compared with what the definitions compute.
pub fn first_transcript() -> &'static str
    ensures { IsTranscript (codes "cluster 1\nsend 1 0 create [0x200000007:0x1:0x0] a [0x200000400:0x1:0x0]\nsettle\ntree\nend\n") result.now }
{
    "accept 1 OK on 0\nreply 1 OK\ntree 2 1\nnode [0x200000007:0x1:0x0] dir 0755 0 0 2\nnode [0x200000400:0x1:0x0] file 0644 0 0 1\nentry [0x200000007:0x1:0x0] a [0x200000400:0x1:0x0]\nstable 0 1\nend clean\n"
}

/// The transcript of a scenario that shows a new cluster's tree: it has the root alone.
pub fn empty_transcript() -> &'static str
    ensures { IsTranscript (codes "cluster 1\ntree\nend\n") result.now }
{
    "tree 1 0\nnode [0x200000007:0x1:0x0] dir 0755 0 0 2\nstable 0 -\nend clean\n"
}

/// Places of scenarios that are calm, and places that aren't. The call does nothing: its contract is a law.
pub fn calm_places()
    ensures { AreCalm }
{}

/// Commands at which a request is open, and commands at which it isn't. The call does nothing: its contract
/// is a law.
pub fn open_requests()
    ensures { AreOpen }
{}

/// Places at which a request has no answer, and places at which it has. The call does nothing: its contract
/// is a law.
pub fn waiting_requests()
    ensures { AreWaiting }
{}

/// Places at which a settle may leave messages, and places at which it leaves none. The call does nothing:
/// its contract is a law.
pub fn settles_that_leave_messages()
    ensures { MayLeave }
{}
