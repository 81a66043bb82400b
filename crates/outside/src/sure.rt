// A disk in memory that takes its bytes at once and never fails.
ghost use Rattle.outside.specs.Disk.{FitsWhole};

mod calls;

/// A disk in memory that takes all its bytes when it is made. No call of it fails, each write is settled at
/// once, and it can't be told to fail.
#[derive(Drop)]
pub struct SureDisk {
    content: Vec<u8>,
    ghost fits: { FitsWhole content.items },
}
