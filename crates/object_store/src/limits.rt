ghost use Rattle.std.specs.Prelude.{◌≡◌};
ghost use Rattle.object_store.specs.ImageReading.{limits_of};

use crate::body::ObjectKind;

/// What the numbers of a body are at most, and its links at least.
#[derive(Clone, Copy)]
pub(crate) struct Limits {
    /// The mode.
    pub mode: u32,
    /// The owner and the group.
    pub owner: u32,
    /// The least links.
    pub least_links: u32,
    /// The links.
    pub links: u32,
    /// The count of stripes.
    pub stripes: u8,
    /// The generation of the layout.
    pub generation: u32,
    /// The sequence of the FID.
    pub seq: u64,
    /// The object id and the version of the FID.
    pub number: u32,
    /// The number of a stripe.
    pub index: u32,
}

/// The limits of a kind.
pub(crate) fn limits_of(kind: ObjectKind) -> Limits
    ensures { result ≡ limits_of kind }
{
    match kind {
        ObjectKind::File => Limits {
            mode: 0o7777,
            owner: u32::MAX,
            least_links: 1,
            links: 65_000,
            stripes: 0,
            generation: 0,
            seq: 0,
            number: 0,
            index: 0,
        },
        ObjectKind::Directory => Limits {
            mode: 0o7777,
            owner: u32::MAX,
            least_links: 2,
            links: 2,
            stripes: 16,
            generation: 0x0fff_fffe,
            seq: u64::MAX,
            number: u32::MAX,
            index: 0,
        },
        ObjectKind::Stripe => Limits {
            mode: 0,
            owner: 0,
            least_links: 0,
            links: 0,
            stripes: 0,
            generation: 0,
            seq: u64::MAX,
            number: u32::MAX,
            index: 15,
        },
    }
}
