ghost use Rattle.std.specs.Prelude.{◌≡◌, ◌≤◌, true};
ghost use Rattle.object_store.specs.Bodies.{number_of, is_plain, may_lay, may_be_file, may_be_directory, may_be_stripe, is_allowed};
ghost use Rattle.object_store.specs.Objects.{no_layout, root_body};

use fid_space::Fid;
use striped_dir::Layout;

/// What an object is.
#[derive(Clone, Copy, Debug, PartialEq, Eq)]
pub enum ObjectKind {
    /// A file.
    File,
    /// A directory, which may have entries of its own.
    Directory,
    /// A stripe of a directory, which has some of its entries.
    Stripe,
}

/// The body of an object, as an update that creates it has it in 48 bytes.
#[derive(Clone, Copy, Debug, PartialEq, Eq)]
pub struct Body {
    /// What it is.
    pub kind: ObjectKind,
    /// The permission bits, at most 0o7777; of a stripe 0.
    pub mode: u32,
    /// The owner; of a stripe 0.
    pub uid: u32,
    /// The group; of a stripe 0.
    pub gid: u32,
    /// How many links there are: 1 to 65,000 of a file, 2 of a directory, 0 of a stripe.
    pub links: u32,
    /// How a directory is striped; else the layout of zeros.
    pub layout: Layout,
    /// Of a directory its parent, of a stripe its directory, of a file the FID of zeros.
    pub fid: Fid,
    /// The number of a stripe, 0 to 15; else 0.
    pub index: u32,
}

/// The number of a kind in the bytes of a body.
pub(crate) fn number_of_kind(kind: ObjectKind) -> u32
    ensures { result ≡ number_of kind }
{
    match kind {
        ObjectKind::File => 1,
        ObjectKind::Directory => 2,
        ObjectKind::Stripe => 3,
    }
}

fn is_plain(layout: Layout) -> bool
    ensures { result ≡ is_plain layout }
{
    layout.count == 0 && layout.start == 0 && layout.generation == 0
}

fn may_lay(layout: Layout) -> bool
    ensures { result ≡ may_lay layout }
{
    let may_start = if layout.count == 0 {
        layout.start == 0
    } else {
        layout.start <= 15
    };
    layout.count <= 16 && may_start && layout.generation <= 0x0fff_fffe
}

fn may_be_file(body: &Body) -> bool
    ensures { result ≡ may_be_file body.now }
{
    let zeros = Fid {
        seq: 0,
        oid: 0,
        ver: 0,
    };
    body.mode <= 0o7777
        && 1 <= body.links
        && body.links <= 65_000
        && is_plain(body.layout)
        && body.fid == zeros
        && body.index == 0
}

fn may_be_directory(body: &Body) -> bool
    ensures { result ≡ may_be_directory body.now }
{
    body.mode <= 0o7777 && body.links == 2 && may_lay(body.layout) && body.index == 0
}

fn may_be_stripe(body: &Body) -> bool
    ensures { result ≡ may_be_stripe body.now }
{
    body.mode == 0
        && body.uid == 0
        && body.gid == 0
        && body.links == 0
        && is_plain(body.layout)
        && body.index <= 15
}

impl Body {
    /// The root directory, which is its own parent, with mode 0o755.
    pub(crate) fn root() -> Body
        ensures { result ≡ root_body }
    {
        Body {
            kind: ObjectKind::Directory,
            mode: 0o755,
            uid: 0,
            gid: 0,
            links: 2,
            layout: Layout {
                count: 0,
                start: 0,
                generation: 0,
            },
            fid: Fid::ROOT,
            index: 0,
        }
    }

    /// Whether an object may have this body.
    #[tactic(auto, unfolding(crate::specs::Bodies::is_allowed))]
    pub fn is_allowed(&self) -> bool
        ensures { result ≡ is_allowed self.now }
    {
        match self.kind {
            ObjectKind::File => may_be_file(self),
            ObjectKind::Directory => may_be_directory(self),
            ObjectKind::Stripe => may_be_stripe(self),
        }
    }
}
