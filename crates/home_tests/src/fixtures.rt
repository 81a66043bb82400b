ghost use Rattle.std.specs.Prelude.{◌≡◌};
ghost use Rattle.tree_model.specs.Participants.{first_fid};

use fid_space::Fid;
use tree_model::Op;

/// The first FID in an operation's text, whose place is the home of its requests.
pub fn first_fid(op: &Op) -> Fid
    ensures { result ≡ first_fid op.now }
{
    match op {
        Op::Create { parent, .. } => *parent,
        Op::Mkdir { parent, .. } => *parent,
        Op::Link { parent, .. } => *parent,
        Op::Unlink { parent, .. } => *parent,
        Op::Rmdir { parent, .. } => *parent,
        Op::Rename { parent, .. } => *parent,
        Op::SetAttr { fid, .. } => *fid,
        Op::SetXattr { fid, .. } => *fid,
        Op::DelXattr { fid, .. } => *fid,
        Op::Migrate { dir, .. } => *dir,
        Op::Lookup { parent, .. } => *parent,
        Op::GetAttr { fid } => *fid,
        Op::GetXattr { fid, .. } => *fid,
    }
}
