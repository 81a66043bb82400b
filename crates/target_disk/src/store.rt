//! A store of one image on a disk, in chains of blocks under two tables and a gate.
ghost use Rattle.std.specs.Prelude.{◌≡◌, ◌+◌, ◌-◌, ◌^◌, ◌<◌, ◌≤◌, ◌++◌, [], ℕ, List, length, IsTrue, IsSome, OnOk, OnErr, OnSome, IfErr, IfOk, Some, None, false, is_err};
ghost use Rattle.outside.specs.Causes.{HasCause};
ghost use Rattle.outside.specs.Disk.{Fuse, Shown, Stays};
ghost use Rattle.target_disk.specs.Consistent.{Fits};
ghost use Rattle.target_disk.specs.Steps.{IsBlank, TakesImage, HoldsImage, Fills};
ghost use Rattle.target_disk.specs.Draft.{put_len};
ghost use Rattle.target_disk.specs.Calls.{Redoes};
ghost use Rattle.target_disk.specs.Tables.{image_most, table_len, Saved};
ghost use Rattle.target_disk.specs.Store.{Stored, IsSettled, Stands, OpensAs, OpensAsEither, HasPut, next, CommitCauses, CommitFlags, PutLeaves, FinishCauses};
ghost use Rattle.target_disk.specs.Reads.{Keeps};
ghost use Rattle.target_disk.specs.Open.{Opens, StaysSettled, FailsToOpen, Formats, FailsToFormat};

use crate::book::{Book, Draft, Verdict, blank, judge};
use crate::calls::{put_settled, settle_home};
use crate::places::{DATA, GATE, HOME, IMAGE_MOST, TABLE};
use crate::pour::{close, pour_asked};
use crate::read::{ReadFault, look, read_image};
use crate::table::room;
use chain_blocks::ChainWriteFault;
use fid_space::Bytes;
use outside::{Disk, DiskFault, Plant};
use std::alloc::Global;
use std::marker::Model;

/// Why a disk wasn't made a store. Each gives the disk back.
#[derive(Drop)]
pub enum FormatFault<D> {
    /// A call of the disk failed. What the disk holds is unknown.
    Disk(D),
    /// The image, of so many bytes, is longer than a store takes. Nothing was written.
    Full(D, u64),
    /// There was no memory for what the store keeps of the disk. Nothing was written.
    Memory(D),
}

/// Why a disk wasn't opened as a store. Each gives the disk back.
#[derive(Drop)]
pub enum OpenStoreFault<D> {
    /// A call of the disk failed. The disk opens as before.
    Disk(D),
    /// The table that the gate names isn't readable: with 1 the journal table under an open gate, with 0
    /// the home table. Nothing was written.
    Damaged(D, u8),
    /// There was no memory. Nothing was written.
    Memory(D),
}

/// Why an image wasn't committed.
#[derive(Clone, Copy, Debug, PartialEq, Eq)]
pub enum CommitFault {
    /// A call of the disk failed. The disk opens as the state before or as the state after.
    Disk,
    /// The image, of so many bytes, is longer than a store takes. The disk opens as before.
    Full(u64),
}

/// One image on a disk, in a chain of blocks.
#[derive(Drop)]
pub struct Store<D: Disk> {
    disk: D,
    book: Book,
    /// Whether a call of a commit failed.
    failed: bool,
}

impl<D: Disk> Model for Store<D> {
    ghost use Rattle.target_disk.specs.Store.{Stored};
    ghost use Rattle.target_disk.specs.Consistent.{Fits, IsConsistent, Minds, begun_of};

    ghost Value = { Stored D };

    ghost view = { λ s. record { disk = s.disk; draft = begun_of s.book } };

    ghost invariant = { λ s. Fits 4095 s.book × IsConsistent s.book (D.shown s.disk) × Minds s.failed s.book (D.shown s.disk) };
}

impl<D: Disk> Store<D> {
    /// Makes a disk a store of this image, of generation 1.
    pub fn format(alloc: Global, disk: D, image: &[u8]) -> Result<Store<D>, FormatFault<D>>
        requires { 0 < length image.now }
        ensures ok { IfOk result (λ store. Formats (D.shown disk) (D.shown store.disk) image.now) }
        ensures begun { IfOk result (λ store. store.draft ≡ None) }
        ensures err { IfErr result (λ e. FailsToFormat D.shown disk (length image.now) e) }
    {
        let mut disk = disk;
        let len = image.len() as u64;
        if len > IMAGE_MOST {
            return Err(FormatFault::Full(disk, len));
        }
        let mut book = match blank(alloc) {
            Ok(book) => book,
            Err(_) => return Err(FormatFault::Memory(disk)),
        };
        let failed = false;
        match fill(&mut disk, &mut book, image) {
            Ok(()) => Ok(Store { disk, book, failed }),
            Err(_) => Err(FormatFault::Disk(disk)),
        }
    }

    /// Opens the image of the journal table where the gate is open, and of the home table where it isn't.
    /// Under an open gate the journal table is then put over the home table, and the gate is shut. The
    /// image is read block by block, and copied once.
    pub fn open(alloc: Global, disk: D) -> Result<(Store<D>, Bytes), OpenStoreFault<D>>
        ensures ok { IfOk result (λ p. Opens (D.shown disk) (D.shown p.0.disk) p.1) }
        ensures begun { IfOk result (λ p. p.0.draft ≡ None) }
        ensures fits { IfOk result (λ p. length p.1 ≤ image_most) }
        ensures settled { IfOk result (λ p. StaysSettled (D.shown disk) (D.shown p.0.disk)) }
        ensures err { IfErr result (λ e. FailsToOpen D.shown (D.shown disk) e) }
    {
        let mut disk = disk;
        let mut table = match room(alloc, TABLE) {
            Ok(table) => table,
            Err(_) => return Err(OpenStoreFault::Memory(disk)),
        };
        let is_open = match look(&mut disk, &mut table) {
            Ok(is_open) => is_open,
            Err(_) => return Err(OpenStoreFault::Disk(disk)),
        };
        let (book, len) = match judge(alloc, table) {
            Ok(Verdict::Readable(book, len)) => (book, len),
            Ok(Verdict::Unreadable) => {
                return Err(OpenStoreFault::Damaged(disk, if is_open { 1 } else { 0 }));
            }
            Err(_) => return Err(OpenStoreFault::Memory(disk)),
        };
        let image = match read_image(alloc, &mut disk, &book.blocks, book.head, len) {
            Ok(image) => image,
            Err(ReadFault::Disk) => return Err(OpenStoreFault::Disk(disk)),
            Err(ReadFault::Memory) => return Err(OpenStoreFault::Memory(disk)),
        };
        let failed = false;
        match redo(&mut disk, is_open, &book.table) {
            Ok(()) => Ok((Store { disk, book, failed }, image)),
            Err(_) => Err(OpenStoreFault::Disk(disk)),
        }
    }

    /// Gives the disk back.
    pub fn into_disk(self) -> D
        ensures { result ≡ self.disk }
    {
        self.disk
    }

    /// Begins a commit. What was put since an earlier one was begun is given up.
    pub fn begin(&mut self)
        ensures disk { self.new.disk ≡ self.old.disk }
        ensures begun { IsSome self.new.draft }
        ensures empty { put_len self.new.draft ≡ 0 }
        ensures none { HasPut (D.shown self.new.disk) self.new.draft [] }
    {
        self.book.give_up();
        self.book.draft = Some(Draft::new());
    }

    /// Puts a piece of the image behind those that were put since `begin`, and writes each block that is
    /// full. It takes no memory. After a fault no commit is begun, and a disk that failed is left as it is:
    /// the first call of the next commit is a sync.
    pub fn put(&mut self, piece: &[u8]) -> Result<(), CommitFault>
        requires begun { IsSome self.old.draft }
        ensures stays { Stays (D.shown self.old.disk) (D.shown self.new.disk) }
        ensures later { (D.shown self.old.disk).faults ≤ (D.shown self.new.disk).faults }
        ensures causes { CommitCauses (D.shown self.old.disk).faults (D.shown self.new.disk).faults (put_len self.old.draft + length piece.now) result }
        ensures flags { IsTrue (D.shown self.old.disk).honest → CommitFlags (D.shown self.old.disk).failed (D.shown self.new.disk).failed result }
        ensures held { IsTrue (D.shown self.old.disk).honest → IsTrue (D.shown self.old.disk).failed → Keeps (D.shown self.old.disk) (D.shown self.new.disk) }
        ensures full { image_most < put_len self.old.draft + length piece.now → self.new.disk ≡ self.old.disk }
        ensures draft { PutLeaves result self.new.draft }
        ensures grows { OnOk result (put_len self.new.draft ≡ put_len self.old.draft + length piece.now) }
        ensures any_moment { (s : Saved) → Stands (D.shown self.old.disk) s → OpensAs (D.shown self.new.disk) s }
        ensures stands { (s : Saved) → Stands (D.shown self.old.disk) s → OnOk result (Stands (D.shown self.new.disk) s) }
        ensures puts { (bytes : List ℕ) → IsTrue (D.shown self.old.disk).honest → HasPut (D.shown self.old.disk) self.old.draft bytes → OnOk result (HasPut (D.shown self.new.disk) self.new.draft (bytes ++ piece.now)) }
    {
        let Some(draft) = self.book.draft else {
            unreachable!();
        };
        let len = draft.len() + piece.len() as u64;
        if len > IMAGE_MOST {
            self.book.give_up();
            return Err(CommitFault::Full(len));
        }
        if pour_asked(&mut self.disk, &mut self.book, self.failed, piece).is_err() {
            self.book.give_up();
            self.failed = true;
            return Err(CommitFault::Disk);
        }
        self.failed = false;
        Ok(())
    }

    /// Writes the rest of the image, and makes it the one that the disk opens as. The generation is one
    /// more, and the same one at its last value. It takes no memory. No commit is begun after it.
    pub fn finish(&mut self) -> Result<(), CommitFault>
        requires begun { IsSome self.old.draft }
        requires some { 0 < put_len self.old.draft }
        ensures stays { Stays (D.shown self.old.disk) (D.shown self.new.disk) }
        ensures later { (D.shown self.old.disk).faults ≤ (D.shown self.new.disk).faults }
        ensures causes { FinishCauses (D.shown self.old.disk).faults (D.shown self.new.disk).faults result }
        ensures held { IsTrue (D.shown self.old.disk).honest → IsTrue (D.shown self.old.disk).failed → Keeps (D.shown self.old.disk) (D.shown self.new.disk) }
        ensures flags { IsTrue (D.shown self.old.disk).honest → CommitFlags (D.shown self.old.disk).failed (D.shown self.new.disk).failed result }
        ensures draft { self.new.draft ≡ None }
        ensures any_moment { (s : Saved) → (bytes : List ℕ) → Stands (D.shown self.old.disk) s → HasPut (D.shown self.old.disk) self.old.draft bytes → OpensAsEither (D.shown self.new.disk) s (next s bytes) }
        ensures done { (s : Saved) → (bytes : List ℕ) → Stands (D.shown self.old.disk) s → HasPut (D.shown self.old.disk) self.old.draft bytes → OnOk result (IsSettled (D.shown self.new.disk) (next s bytes)) }
        ensures each { (s : Saved) → (bytes : List ℕ) → Stands (D.shown self.old.disk) s → HasPut (D.shown self.old.disk) self.old.draft bytes → OnOk result (OpensAs (D.shown self.new.disk) (next s bytes)) }
    {
        let Some(draft) = self.book.draft else {
            unreachable!();
        };
        if close(&mut self.disk, &mut self.book, draft.len()).is_err() {
            self.book.give_up();
            self.failed = true;
            return Err(CommitFault::Disk);
        }
        Ok(())
    }

    /// Puts an image in the place of the one that is there: `begin`, `put` and `finish` in turn.
    pub fn commit(&mut self, image: &[u8]) -> Result<(), CommitFault>
        requires { 0 < length image.now }
        ensures stays { Stays (D.shown self.old.disk) (D.shown self.new.disk) }
        ensures later { (D.shown self.old.disk).faults ≤ (D.shown self.new.disk).faults }
        ensures causes { CommitCauses (D.shown self.old.disk).faults (D.shown self.new.disk).faults (length image.now) result }
        ensures flags { IsTrue (D.shown self.old.disk).honest → CommitFlags (D.shown self.old.disk).failed (D.shown self.new.disk).failed result }
        ensures held { IsTrue (D.shown self.old.disk).honest → IsTrue (D.shown self.old.disk).failed → Keeps (D.shown self.old.disk) (D.shown self.new.disk) }
        ensures full { image_most < length image.now → self.new.disk ≡ self.old.disk }
        ensures draft { self.new.draft ≡ None }
        ensures any_moment { (s : Saved) → Stands (D.shown self.old.disk) s → OpensAsEither (D.shown self.new.disk) s (next s image.now) }
        ensures done { (s : Saved) → Stands (D.shown self.old.disk) s → OnOk result (IsSettled (D.shown self.new.disk) (next s image.now)) }
        ensures each { (s : Saved) → Stands (D.shown self.old.disk) s → OnOk result (OpensAs (D.shown self.new.disk) (next s image.now)) }
    {
        self.begin();
        match self.put(image) {
            Ok(()) => self.finish(),
            Err(fault) => Err(fault),
        }
    }
}

/// Puts the bytes of the journal table over the home table and shuts the gate, where it is open.
fn redo<D: Disk>(disk: &mut D, is_open: bool, table: &[u8]) -> Result<(), DiskFault>
    requires { length table.now ≡ table_len }
    ensures stays { Stays (D.shown disk.old) (D.shown disk.new) }
    ensures cause { HasCause (D.shown disk.old).faults (D.shown disk.new).faults result }
    ensures flag { IsTrue (D.shown disk.old).honest → (D.shown disk.old).failed ≡ false → (D.shown disk.new).failed ≡ is_err result }
    ensures redoes { IsTrue (D.shown disk.old).honest → Redoes is_open table.now result (D.shown disk.old) (D.shown disk.new) }
{
    if !is_open {
        return Ok(());
    }
    settle_home(disk, table)
}

/// Shuts the gate, and writes the blocks of an image and the home table.
fn fill<D: Disk>(disk: &mut D, book: &mut Book, image: &[u8]) -> Result<(), DiskFault>
    requires blank { IsBlank book.old }
    requires some { 0 < length image.now }
    requires most { length image.now ≤ image_most }
    ensures stays { Stays (D.shown disk.old) (D.shown disk.new) }
    ensures cause { HasCause (D.shown disk.old).faults (D.shown disk.new).faults result }
    ensures flag { IsTrue (D.shown disk.old).honest → (D.shown disk.new).failed ≡ is_err result }
    ensures fits { OnOk result (Fits 4095 book.new) }
    ensures draft { OnOk result (book.new.draft ≡ None) }
    ensures fills { IsTrue (D.shown disk.old).honest → OnOk result (Fills image.now book.new (D.shown disk.new)) }
{
    fill_blocks(disk, book, image)?;
    book.put_table(image.len() as u64);
    put_settled(disk, HOME, &book.table)
}

/// Shuts the gate, and writes the blocks of an image.
fn fill_blocks<D: Disk>(disk: &mut D, book: &mut Book, image: &[u8]) -> Result<(), DiskFault>
    requires blank { IsBlank book.old }
    requires some { 0 < length image.now }
    requires most { length image.now ≤ image_most }
    ensures stays { Stays (D.shown disk.old) (D.shown disk.new) }
    ensures cause { HasCause (D.shown disk.old).faults (D.shown disk.new).faults result }
    ensures flag { IsTrue (D.shown disk.old).honest → (D.shown disk.new).failed ≡ is_err result }
    ensures takes { OnOk result (TakesImage (length image.now) book.old book.new) }
    ensures holds { IsTrue (D.shown disk.old).honest → OnOk result (HoldsImage image.now book.new (D.shown disk.new).content) }
{
    disk.write_at(GATE, &[0])?;
    match book.blocks.write_chain(disk, DATA, image) {
        Ok(head) => {
            book.head = head;
            Ok(())
        }
        Err(ChainWriteFault::Disk) => Err(DiskFault::Failed),
        Err(ChainWriteFault::Full(_)) => unreachable!(),
    }
}

impl<D: Plant> Store<D> {
    /// Arms the disk, as [`Plant::arm`] does, and changes nothing else.
    pub fn arm(&mut self, after: u32, choice: u8)
        ensures shown { D.shown self.new.disk ≡ D.shown self.old.disk }
        ensures draft { self.new.draft ≡ self.old.draft }
        ensures armed { D.armed after choice (D.shown self.old.disk) }
        ensures set { OnSome (D.fuse self.old.disk) (D.fuse self.new.disk ≡ Some (record { left = Some after; choice = choice })) }
        ensures none { D.fuse self.old.disk ≡ None → D.fuse self.new.disk ≡ None }
    {
        self.disk.arm(after, choice);
    }
}
