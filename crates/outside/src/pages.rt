// The pages of a disk in memory, by their cells.
ghost use Rattle.std.specs.Prelude.{◌≡◌, ◌+◌, ◌*◌, ◌/◌, ◌<◌, ◌≤◌, ℕ, length, slice_set, slice_index, slice_index_or, IfOk, OnOk, OnErr, IsSome, None, IsTrue, is_some, true, false};
ghost use Rattle.std.specs.Prelude.{map, ◌%◌};
ghost use Rattle.outside.specs.Disk.{part};
ghost use Rattle.outside.specs.Cells.{page_len, content_of};
ghost use Rattle.outside.specs.Pages.{cells, HasPages};
ghost use Rattle.outside.specs.Cells.{Overwrites};

use crate::page::{PAGE_LEN, Page};
use std::alloc::{AllocError as Memory, Global};

/// Reads bytes that lie in one page.
pub fn read_piece(pages: &Vec<Option<Page>>, at: usize, into: &mut [u8])
    requires within { at < length pages.now.items * page_len }
    requires one { at % page_len + length into.old ≤ page_len }
    ensures { into.new ≡ part at (length into.old) (map content_of (cells pages.now.items)) }
{
    let start = at % PAGE_LEN;
    match &pages[at / PAGE_LEN] {
        None => into.fill(0),
        Some(page) => into.copy_from_slice(&page.content[start..start + into.len()]),
    }
}

/// Writes bytes that lie in one page, which is there.
pub fn put_piece(pages: &mut Vec<Option<Page>>, at: usize, from: &[u8])
    requires within { at < length pages.old.items * page_len }
    requires one { at % page_len + length from.now ≤ page_len }
    requires there { is_some (slice_index_or pages.old.items (at / page_len) None) ≡ true }
    ensures cells { Overwrites at from.now (cells pages.old.items) (cells pages.new.items) }
    ensures same { (p : ℕ) → is_some (slice_index_or pages.new.items p None) ≡ is_some (slice_index_or pages.old.items p None) }
    ensures count { length pages.new.items ≡ length pages.old.items }
{
    match &mut pages[at / PAGE_LEN] {
        None => unreachable!(),
        Some(page) => page.put(at % PAGE_LEN, from),
    }
}

/// Makes a page where none is. The cells stay.
pub fn make_page(alloc: Global, pages: &mut Vec<Option<Page>>, p: usize) -> Result<(), Memory>
    requires { p < length pages.old.items }
    ensures cells { cells pages.new.items ≡ cells pages.old.items }
    ensures same { HasPages pages.old.items pages.new.items }
    ensures below { (q : ℕ) → q < p → is_some (slice_index_or pages.new.items q None) ≡ is_some (slice_index_or pages.old.items q None) }
    ensures above { (q : ℕ) → p < q → is_some (slice_index_or pages.new.items q None) ≡ is_some (slice_index_or pages.old.items q None) }
    ensures there { OnOk result (is_some (slice_index_or pages.new.items p None) ≡ true) }
    ensures missing { OnErr result (is_some (slice_index_or pages.old.items p None) ≡ false) }
{
    if pages[p].is_none() {
        let page = Page::new(alloc)?;
        pages[p] = Some(page);
    }
    Ok(())
}
