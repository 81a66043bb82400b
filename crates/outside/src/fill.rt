// Bytes written over the cells of pages.
ghost use Rattle.std.specs.Prelude.{◌≡◌, ◌+◌, ◌*◌, ◌-◌, ◌/◌, ◌<◌, ◌≤◌, ℕ, length, slice_set, slice_index, slice_index_or, IfOk, OnOk, OnErr, IsSome, None, IsTrue, is_some, true, map};
ghost use Rattle.outside.specs.Disk.{ChangesOnly, disk_len, part};
ghost use Rattle.outside.specs.Cells.{page_len, blank, written, settle_cell, content_of, Cycled};
ghost use Rattle.outside.specs.Pages.{cells, page_cells, HasPages, HasRange, MakesOnly};
ghost use Rattle.outside.specs.Cells.{Overwrites};

use crate::page::{PAGE_LEN, Page};
use crate::pages::{make_page, put_piece, read_piece};
use std::alloc::{AllocError as Memory, Global};

/// Makes the pages of a range.
pub fn make_range(
    alloc: Global,
    pages: &mut Vec<Option<Page>>,
    at: usize,
    n: usize,
) -> Result<(), Memory>
    requires within { at + n ≤ disk_len }
    requires pages { length pages.old.items ≡ 1024 }
    ensures cells { cells pages.new.items ≡ cells pages.old.items }
    ensures count { length pages.new.items ≡ length pages.old.items }
    ensures kept { HasPages pages.old.items pages.new.items }
    ensures only { MakesOnly at n pages.old.items pages.new.items }
    ensures there { OnOk result (HasRange pages.new.items at n) }
    ensures missing { OnErr result (HasRange pages.old.items at n → ⊥) }
{
    if n == 0 {
        return Ok(());
    }
    for p in at / PAGE_LEN..(at + n - 1) / PAGE_LEN + 1 {
        make_page(alloc, pages, p)?;
    }
    Ok(())
}

/// Writes bytes over cells whose pages are there.
pub fn put_range(pages: &mut Vec<Option<Page>>, at: usize, from: &[u8])
    requires within { at + length from.now ≤ disk_len }
    requires pages { length pages.old.items ≡ 1024 }
    requires there { HasRange pages.old.items at (length from.now) }
    ensures cells { Overwrites at from.now (cells pages.old.items) (cells pages.new.items) }
    ensures count { length pages.new.items ≡ length pages.old.items }
    ensures same { (p : ℕ) → is_some (slice_index_or pages.new.items p None) ≡ is_some (slice_index_or pages.old.items p None) }
{
    let mut done = 0;
    while done < from.len() {
        let n = (PAGE_LEN - (at + done) % PAGE_LEN).min(from.len() - done);
        put_piece(pages, at + done, &from[done..done + n]);
        done += n;
    }
}

/// Settles each cell of each page.
pub fn settle_pages(pages: &mut Vec<Option<Page>>)
    ensures cells { cells pages.new.items ≡ map settle_cell (cells pages.old.items) }
    ensures count { length pages.new.items ≡ length pages.old.items }
    ensures same { (p : ℕ) → is_some (slice_index_or pages.new.items p None) ≡ is_some (slice_index_or pages.old.items p None) }
{
    for p in 0..pages.len() {
        settle_page(&mut pages[p]);
    }
}

fn settle_page(page: &mut Option<Page>)
    ensures cells { page_cells page.new ≡ map settle_cell (page_cells page.old) }
    ensures same { is_some page.new ≡ is_some page.old }
{
    match page {
        None => {}
        Some(page) => page.settle(),
    }
}

/// Settles each cell of each page at the byte that a power cycle leaves.
pub fn cycle_pages(pages: &mut Vec<Option<Page>>, choice: u8)
    requires { length pages.old.items ≡ 1024 }
    ensures cells { Cycled choice (cells pages.old.items) (cells pages.new.items) }
    ensures count { length pages.new.items ≡ length pages.old.items }
    ensures same { (p : ℕ) → is_some (slice_index_or pages.new.items p None) ≡ is_some (slice_index_or pages.old.items p None) }
{
    for p in 0..pages.len() {
        cycle_page(&mut pages[p], choice);
    }
}

fn cycle_page(page: &mut Option<Page>, choice: u8)
    ensures cells { Cycled choice (page_cells page.old) (page_cells page.new) }
    ensures same { is_some page.new ≡ is_some page.old }
{
    match page {
        None => {}
        Some(page) => page.cycle(choice),
    }
}

/// Reads the content of the cells of a range.
pub fn read_range(pages: &Vec<Option<Page>>, at: usize, into: &mut [u8])
    requires within { at + length into.old ≤ disk_len }
    requires pages { length pages.now.items ≡ 1024 }
    ensures { into.new ≡ part at (length into.old) (map content_of (cells pages.now.items)) }
{
    let mut done = 0;
    while done < into.len() {
        let n = (PAGE_LEN - (at + done) % PAGE_LEN).min(into.len() - done);
        read_piece(pages, at + done, &mut into[done..done + n]);
        done += n;
    }
}

/// As many pages as are asked for, none of which was written.
pub fn no_pages(alloc: Global, count: usize) -> Result<Vec<Option<Page>>, Memory>
    ensures count { IfOk result (λ v. length v.items ≡ count) }
    ensures none { IfOk result (λ v. (p : ℕ) → slice_index_or v.items p None ≡ None) }
{
    let mut pages = Vec::new(alloc);
    for _p in 0..count {
        pages.push(None)?;
    }
    Ok(pages)
}
