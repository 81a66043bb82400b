ghost use Rattle.std.specs.Prelude.{◌≡◌};
ghost use Rattle.object_store.specs.declared.fault.ImageFault.TheVariants.{Memory};

use std::alloc::AllocError;

/// Why bytes are no image.
#[derive(Clone, Copy, Debug, PartialEq, Eq)]
pub enum ImageFault {
    /// The place of the first field that can't stand, in bytes from the image's start: of a padding or a
    /// name its first bad byte, of a FID or a name out of order its first byte, of any other field its
    /// start. Where bytes are missing it is the length of the input.
    BadImage(usize),
    /// Memory ran out.
    Memory,
}

impl From<AllocError> for ImageFault {
    ghost from_gives = { λ _ e. e ≡ Memory };

    fn from(_e: AllocError) -> ImageFault {
        ImageFault::Memory
    }
}
