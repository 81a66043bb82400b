ghost use Rattle.std.specs.Prelude.{◌≡◌, length, IsErrOf};
ghost use Rattle.std.specs.Option.{option_map};
ghost use Rattle.byte_grammar.specs.Values.{Gives};
ghost use Rattle.out_update.specs.Values.{fid_value};
ghost use Rattle.striped_dir.specs.Layouts.{layout_in};
ghost use Rattle.object_store.specs.Bodies.{ok, layout_at};
ghost use Rattle.object_store.specs.Meaning.{attributes_at};

use byte_grammar::{BuildFault, part, u32_at, u64_at};
use fid_space::Fid;
use striped_dir::Layout;

/// The FID in the first 16 bytes, and the bytes behind it.
#[tactic(auto, unfolding(out_update::specs::Values::fid_value))]
pub(crate) fn fid_at(bytes: &[u8]) -> Result<(Fid, &[u8]), BuildFault>
    ensures value { Gives (λ x. (x.0, x.1.now)) result (fid_value bytes.now) }
    ensures free { IsErrOf result BuildFault.Memory → ⊥ }
{
    let (seq, rest) = u64_at(bytes)?;
    let (oid, rest) = u32_at(rest)?;
    let (ver, rest) = u32_at(rest)?;
    Ok((Fid { seq, oid, ver }, rest))
}

/// The layout that eight bytes are, if they are one.
fn layout_of(bytes: &[u8]) -> Option<Layout>
    requires { length bytes.now ≡ 8 }
    ensures { result ≡ ok (layout_in bytes.now) }
{
    let spelled = [
        bytes[0], bytes[1], bytes[2], bytes[3], bytes[4], bytes[5], bytes[6], bytes[7],
    ];
    Layout::decode(spelled).ok()
}

/// The layout in the first eight bytes, and the bytes behind it.
#[tactic(auto, unfolding(crate::specs::Bodies::layout_at, byte_grammar::specs::Values::part_at))]
pub(crate) fn layout_at(bytes: &[u8]) -> Result<(Layout, &[u8]), BuildFault>
    ensures value { Gives (λ x. (x.0, x.1.now)) result (layout_at bytes.now) }
    ensures free { IsErrOf result BuildFault.Memory → ⊥ }
{
    let (front, rest) = part(8, bytes)?;
    match layout_of(front) {
        Some(layout) => Ok((layout, rest)),
        None => Err(BuildFault::Short),
    }
}

/// Mode, owner and group in the first 12 bytes.
#[tactic(auto, unfolding(crate::specs::Meaning::attributes_at))]
pub(crate) fn attributes_at(bytes: &[u8]) -> Result<(u32, u32, u32), BuildFault>
    ensures value { Gives (λ x. (x.0, (x.1, x.2))) result (attributes_at bytes.now) }
    ensures free { IsErrOf result BuildFault.Memory → ⊥ }
{
    let (mode, rest) = u32_at(bytes)?;
    let (uid, rest) = u32_at(rest)?;
    let (gid, _) = u32_at(rest)?;
    Ok((mode, uid, gid))
}
