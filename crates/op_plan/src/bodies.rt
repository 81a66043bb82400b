ghost use Rattle.std.specs.Prelude.{◌≡◌};
ghost use Rattle.plan_base.specs.Updates.{file_body, directory_body};
ghost use Rattle.plan_base.specs.Planning.{AreSmall, first_layout};

use fid_space::Fid;
use object_store::{Body, ObjectKind};
use striped_dir::Layout;

/// The body of a new file.
pub(crate) fn file_body() -> Body
    ensures { result ≡ file_body }
{
    Body {
        kind: ObjectKind::File,
        mode: 0o644,
        uid: 0,
        gid: 0,
        links: 1,
        layout: Layout {
            count: 0,
            start: 0,
            generation: 0,
        },
        fid: Fid {
            seq: 0,
            oid: 0,
            ver: 0,
        },
        index: 0,
    }
}

/// The body of a new directory in this parent.
pub(crate) fn directory_body(parent: Fid, layout: Layout) -> Body
    ensures { result ≡ directory_body parent layout }
{
    Body {
        kind: ObjectKind::Directory,
        mode: 0o755,
        uid: 0,
        gid: 0,
        links: 2,
        layout,
        fid: parent,
        index: 0,
    }
}

/// The layout of a new directory. The stripes are allowed.
pub(crate) fn first_layout(stripes: Option<(u32, u32)>) -> Layout
    requires { AreSmall stripes }
    ensures value { result ≡ first_layout stripes }
{
    match stripes {
        Some((count, index)) if count != 0 => Layout {
            count: count as u8,
            start: index as u8,
            generation: 0,
        },
        _ => Layout {
            count: 0,
            start: 0,
            generation: 0,
        },
    }
}
