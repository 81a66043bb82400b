// A disk in memory, in pages that are made where they are first written.
ghost use Rattle.outside.specs.Pages.{FitsPages};

mod calls;

use crate::page::Page;
use crate::tally::Tally;
use std::alloc::Global;

/// A disk in memory that fails at the calls with the listed numbers, counted from 1 over `read_at`,
/// `write_at`, `sync` and `power_cycle` together, where its fuse has run down, where there is no memory for a
/// page, and after a fault until `power_cycle`. A page is 65,536 bytes; it is made by the first `write_at`
/// that meets it.
#[derive(Drop)]
pub struct MemoryDisk {
    alloc: Global,
    pages: Vec<Option<Page>>,
    tally: Tally,
    ghost fits: { FitsPages pages.items },
}
