//! A commit, in pieces.
ghost use Rattle.std.specs.Prelude.{◌≡◌, ◌≤◌, ◌<◌, ◌+◌, ◌-◌, ◌*◌, ◌++◌, ℕ, List, length, take, replicate, min, IsTrue, IsSome, OnOk, OnErr, is_err, ◌==◌, None, false, true};
ghost use Rattle.outside.specs.Causes.{HasCause};
ghost use Rattle.outside.specs.Disk.{Stays, Writes};
ghost use Rattle.chain_blocks.specs.Chains.{block_len};
ghost use Rattle.chain_blocks.specs.Stored.{IsCount, place};
ghost use Rattle.target_disk.specs.Tables.{data_at, image_most};
ghost use Rattle.target_disk.specs.Draft.{joins, put_len};
ghost use Rattle.target_disk.specs.Consistent.{Fits, Knows, begun_of, draft_chain};
ghost use Rattle.target_disk.specs.Reads.{Keeps};
ghost use Rattle.target_disk.specs.Steps.{Closes, Extends, KeepsImage, Pours, PoursRest};

use crate::book::{Book, Draft};
use crate::calls::{ask, put_settled, settle_home};
use crate::places::{BLOCK, DATA, GATE, JOURNAL};
use outside::{Disk, DiskFault};

/// Writes the block that is full, and begins another.
fn write_full<D: Disk>(disk: &mut D, book: &mut Book) -> Result<(), DiskFault>
    requires fits { Fits 4096 book.old }
    requires begun { IsSome book.old.draft }
    requires some { block_len * length (draft_chain book.old) < put_len (begun_of book.old) }
    ensures stays { Stays (D.shown disk.old) (D.shown disk.new) }
    ensures cause { HasCause (D.shown disk.old).faults (D.shown disk.new).faults result }
    ensures flag { IsTrue (D.shown disk.old).honest → (D.shown disk.new).failed ≡ is_err result }
    ensures stopped { IsTrue (D.shown disk.old).honest → IsTrue (D.shown disk.old).failed → IsTrue (is_err result) }
    ensures writes { (block : ℕ) × Extends book.old book.new block × (IsTrue (D.shown disk.old).honest → Writes (place data_at block) book.old.block.items result (D.shown disk.old) (D.shown disk.new)) }
{
    let block = book.extend();
    disk.write_at(DATA + BLOCK as u64 * block as u64, &book.block)
}

/// Copies the front of a piece behind the bytes that stand in the block, as much as fits, and answers how
/// many bytes these are.
fn fill_block(book: &mut Book, piece: &[u8]) -> usize
    requires fits { Fits 4095 book.old }
    requires begun { IsSome book.old.draft }
    requires room { put_len (begun_of book.old) + length piece.now ≤ image_most }
    requires some { 0 < length piece.now }
    ensures fits { Fits 4096 book.new }
    ensures keeps { KeepsImage book.old book.new }
    ensures chain { draft_chain book.new ≡ draft_chain book.old }
    ensures some { (0 < result) × (result ≤ length piece.now) }
    ensures full { result < length piece.now → put_len (begun_of book.new) ≡ block_len * length (draft_chain book.old) + block_len }
    ensures put { (begun_of book.new) ≡ joins (begun_of book.old) (take result piece.now) }
{
    let Some(draft) = book.draft else {
        unreachable!();
    };
    let n = (BLOCK - draft.fill).min(piece.len());
    book.block[draft.fill..draft.fill + n].copy_from_slice(&piece[..n]);
    book.draft = Some(Draft {
        fill: draft.fill + n,
        ..draft
    });
    n
}

/// Whether a block is full.
fn is_full(book: &Book) -> bool
    requires { Fits 4096 book.now }
    ensures { result ≡ (put_len (begun_of book.now) == block_len * length (draft_chain book.now) + block_len) }
{
    match book.draft {
        Some(draft) => draft.fill == BLOCK,
        None => false,
    }
}

/// Puts a piece behind those that were put, and writes each block that is full.
pub fn pour<D: Disk>(disk: &mut D, book: &mut Book, piece: &[u8]) -> Result<(), DiskFault>
    requires fits { Fits 4095 book.old }
    requires begun { IsSome book.old.draft }
    requires room { put_len (begun_of book.old) + length piece.now ≤ image_most }
    ensures stays { Stays (D.shown disk.old) (D.shown disk.new) }
    ensures cause { HasCause (D.shown disk.old).faults (D.shown disk.new).faults result }
    ensures flag { IsTrue (D.shown disk.old).honest → (D.shown disk.old).failed ≡ false → (D.shown disk.new).failed ≡ is_err result }
    ensures failed { IsTrue (D.shown disk.old).honest → OnErr result ((D.shown disk.new).failed ≡ true) }
    ensures still { IsTrue (D.shown disk.old).honest → IsTrue (D.shown disk.old).failed → IsTrue (D.shown disk.new).failed }
    ensures fits { Fits 4095 book.new }
    ensures keeps { KeepsImage book.old book.new }
    ensures begun { OnOk result (IsSome book.new.draft) }
    ensures grows { OnOk result (put_len (begun_of book.new) ≡ put_len (begun_of book.old) + length piece.now) }
    ensures pours { IsTrue (D.shown disk.old).honest → Pours piece.now result book.old book.new (D.shown disk.old) (D.shown disk.new) }
{
    let mut at = 0;
    while at < piece.len() {
        at += fill_block(book, &piece[at..]);
        if is_full(book) {
            write_full(disk, book)?;
        }
    }
    Ok(())
}

/// Pours a piece, where the disk works: one that failed is asked first, and is left as it is.
pub fn pour_asked<D: Disk>(
    disk: &mut D,
    book: &mut Book,
    failed: bool,
    piece: &[u8],
) -> Result<(), DiskFault>
    requires fits { Fits 4095 book.old }
    requires begun { IsSome book.old.draft }
    requires room { put_len (begun_of book.old) + length piece.now ≤ image_most }
    requires known { IsTrue (D.shown disk.old).honest → (D.shown disk.old).failed ≡ failed }
    ensures stays { Stays (D.shown disk.old) (D.shown disk.new) }
    ensures cause { HasCause (D.shown disk.old).faults (D.shown disk.new).faults result }
    ensures flag { IsTrue (D.shown disk.old).honest → (D.shown disk.new).failed ≡ is_err result }
    ensures fails { IsTrue (D.shown disk.old).honest → IsTrue (D.shown disk.old).failed → IsTrue (is_err result) }
    ensures held { IsTrue (D.shown disk.old).honest → IsTrue (D.shown disk.old).failed → Keeps (D.shown disk.old) (D.shown disk.new) }
    ensures fits { Fits 4095 book.new }
    ensures keeps { KeepsImage book.old book.new }
    ensures begun { OnOk result (IsSome book.new.draft) }
    ensures grows { OnOk result (put_len (begun_of book.new) ≡ put_len (begun_of book.old) + length piece.now) }
    ensures pours { IsTrue (D.shown disk.old).honest → (D.shown disk.old).failed ≡ false → Pours piece.now result book.old book.new (D.shown disk.old) (D.shown disk.new) }
{
    ask(disk, failed)?;
    pour(disk, book, piece)
}

/// Puts zeros behind so many bytes of the block.
fn pad(book: &mut Book, fill: usize)
    requires block { length book.old.block.items ≡ block_len }
    requires inside { fill ≤ block_len }
    ensures bytes { book.new.block.items ≡ take fill book.old.block.items ++ replicate (block_len - fill) 0 }
    ensures others { (book.new.blocks ≡ book.old.blocks) × (book.new.head ≡ book.old.head) × (book.new.generation ≡ book.old.generation) × (book.new.table ≡ book.old.table) × (book.new.draft ≡ book.old.draft) }
{
    book.block[fill..].fill(0);
}

/// Writes the bytes that stand in the block, with zeros behind them.
fn write_rest<D: Disk>(disk: &mut D, book: &mut Book) -> Result<(), DiskFault>
    requires fits { Fits 4095 book.old }
    requires some { 0 < put_len (begun_of book.old) }
    ensures stays { Stays (D.shown disk.old) (D.shown disk.new) }
    ensures cause { HasCause (D.shown disk.old).faults (D.shown disk.new).faults result }
    ensures flag { IsTrue (D.shown disk.old).honest → (D.shown disk.old).failed ≡ false → (D.shown disk.new).failed ≡ is_err result }
    ensures failed { IsTrue (D.shown disk.old).honest → OnErr result ((D.shown disk.new).failed ≡ true) }
    ensures still { IsTrue (D.shown disk.old).honest → IsTrue (D.shown disk.old).failed → IsTrue (D.shown disk.new).failed }
    ensures fits { Fits 4095 book.new }
    ensures keeps { KeepsImage book.old book.new }
    ensures whole { OnOk result (put_len (begun_of book.new) ≡ block_len * length (draft_chain book.new)) }
    ensures ends { OnOk result (IsCount (length (draft_chain book.new)) (put_len (begun_of book.old))) }
    ensures pours { IsTrue (D.shown disk.old).honest → PoursRest result book.old book.new (D.shown disk.old) (D.shown disk.new) }
{
    let Some(draft) = book.draft else {
        unreachable!();
    };
    if draft.fill == 0 {
        return Ok(());
    }
    pad(book, draft.fill);
    write_full(disk, book)
}

/// Writes the rest, the journal table, the gate and the home table, each of them settled before the next.
/// The image has so many bytes.
pub fn close<D: Disk>(disk: &mut D, book: &mut Book, len: u64) -> Result<(), DiskFault>
    requires fits { Fits 4095 book.old }
    requires some { 0 < put_len (begun_of book.old) }
    requires size { len ≡ put_len (begun_of book.old) }
    ensures stays { Stays (D.shown disk.old) (D.shown disk.new) }
    ensures cause { HasCause (D.shown disk.old).faults (D.shown disk.new).faults result }
    ensures flag { IsTrue (D.shown disk.old).honest → (D.shown disk.new).failed ≡ is_err result }
    ensures stopped { IsTrue (D.shown disk.old).honest → IsTrue (D.shown disk.old).failed → IsTrue (is_err result) }
    ensures fits { Fits 4095 book.new }
    ensures none { OnOk result (book.new.draft ≡ None) }
    ensures closes { IsTrue (D.shown disk.old).honest → (D.shown disk.old).failed ≡ false → Knows book.old (D.shown disk.old).content → Closes result book.old book.new (D.shown disk.old) (D.shown disk.new) }
{
    write_rest(disk, book)?;
    disk.sync()?;
    book.turn(len);
    put_settled(disk, JOURNAL, &book.table)?;
    put_settled(disk, GATE, &[1])?;
    settle_home(disk, &book.table)
}
