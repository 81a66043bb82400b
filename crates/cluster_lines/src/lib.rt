//! What a transcript of several targets may be: its lines as lines of the plain machine of several targets, which
//! stands beside the protocol's, and the scenarios of which it has a run.
//!
//! The layer above may rest on a transcript that was computed from these definitions. No code runs here.
#![tactic(auto)]

ghost use Rattle.std.specs.Prelude.{codes};
ghost use Rattle.cluster_lines.specs.Transcripts.{IsClusterTranscript};

/// The transcript of a scenario of two targets: the root's attributes are set and committed, and the update log is
/// shown between. It stands here as text, so that what a program writes can be compared with what the definitions
/// compute.
pub fn worked_transcript() -> &'static str
    ensures { IsClusterTranscript (codes "cluster 2\nsend 1 0 setattr [0x200000007:0x1:0x0] 0 0 0\nsettle\nlog 0\ncommit 0\nend\n") result.now }
{
    "accept 1 OK on 0\nreply 1 OK\nlog 0 live 1\nindex 1 id 1.0.1 number 1 on 0\nstable 0 1\nstable 0 -\nstable 1 -\nend clean\n"
}
