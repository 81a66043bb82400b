//! A target: it serves, or was opened, or is down. Each step takes it and gives what it has become.
ghost use Rattle.std.specs.Prelude.{◌≡◌, ◌≤◌, ◌+◌, [], length, false, true, IfOk, IfErr, OnSome, Some, None, is_some};
ghost use Rattle.outside.specs.Disk.{Fuse};
ghost use Rattle.dne_cli.specs.Image.{image_of};
ghost use Rattle.dne_cli.specs.Disks.{Cycled, Formatted, StaysOff, calls_of};
ghost use Rattle.dne_cli.specs.Kept.{all_stable, Committed, image_bytes, Reformatted, Reopened, standing_of, Torn};
ghost use Rattle.dne_cli.specs.Restart.{FailsToMake, FailsToRemake, FailsToReopen, fuse_of, held_of};

use crate::image::{ImageFault, read_numbers};
use crate::ledger::Ledger;
use fid_space::Numbers;
use outside::Plant;
use scenario_text::Standing;
use std::alloc::Global;
use target_disk::{CommitFault, FormatFault, OpenStoreFault, Store, a_settled_disk_stands};

/// A target that serves: its store, and what it keeps in memory.
#[derive(Drop)]
pub struct Served<D: Plant> {
    pub store: Store<D>,
    pub ledger: Ledger,
}

/// A target that is down: its disk, and whether that was formatted.
#[derive(Drop)]
pub struct Halted<D: Plant> {
    pub disk: D,
    pub formatted: bool,
}

/// A target.
#[derive(Drop)]
pub enum Target<D: Plant> {
    /// It takes requests.
    Serving(Served<D>),
    /// It was started from its disk.
    Opened(Store<D>),
    /// It has stopped, or there is no cluster yet.
    Down(Halted<D>),
}

/// Why a disk wasn't started from. Each gives the disk back.
#[derive(Drop)]
pub enum ReopenFault<D> {
    /// A call of the disk failed.
    Disk(D),
    /// The table that the gate names isn't readable: 1 where the gate is open, else 0.
    Gates(D, u8),
    /// The bytes are no image from this one on.
    Image(D, u64),
    /// Memory ran out.
    Memory(D),
}

/// Why a disk wasn't formatted. Each gives the disk back.
#[derive(Drop)]
pub enum MakeFault<D> {
    /// A call of the disk failed.
    Disk(D),
    /// Memory ran out.
    Memory(D),
}

impl<D: Plant> Target<D> {
    /// What it does.
    pub fn standing(&self) -> Standing
        ensures { result ≡ standing_of (held_of D.shown self.now) }
    {
        match self {
            Target::Serving(_) => Standing::Serving,
            Target::Opened(_) => Standing::Opened,
            Target::Down(_) => Standing::Down,
        }
    }

    /// Arms the disk, where it has a fuse, and changes nothing else.
    pub fn arm(&mut self, after: u32, choice: u8)
        ensures held { held_of D.shown self.new ≡ held_of D.shown self.old }
        ensures armed { D.armed after choice (held_of D.shown self.old).disk }
        ensures set { OnSome (fuse_of D.fuse self.old) (fuse_of D.fuse self.new ≡ Some (record { left = Some after; choice = choice })) }
        ensures none { fuse_of D.fuse self.old ≡ None → fuse_of D.fuse self.new ≡ None }
    {
        match self {
            Target::Serving(served) => served.store.arm(after, choice),
            Target::Opened(store) => store.arm(after, choice),
            Target::Down(halted) => halted.disk.arm(after, choice),
        }
    }

    /// Gives the disk back.
    pub fn into_disk(self) -> D
        ensures { D.shown result ≡ (held_of D.shown self).disk }
    {
        match self {
            Target::Serving(served) => served.store.into_disk(),
            Target::Opened(store) => store.into_disk(),
            Target::Down(halted) => halted.disk,
        }
    }
}

/// Makes a disk the store of an image of nothing.
pub fn format_disk<D: Plant>(alloc: Global, disk: D, image: &[u8]) -> Result<Store<D>, MakeFault<D>>
    requires { image.now ≡ image_of [] }
    ensures ok { IfOk result (λ s. Formatted (D.shown disk) (D.shown s.disk)) }
    ensures err { IfErr result (λ e. FailsToMake D.shown (D.shown disk) e) }
{
    match Store::format(alloc, disk, image) {
        Ok(store) => Ok(store),
        Err(FormatFault::Disk(disk)) => Err(MakeFault::Disk(disk)),
        Err(FormatFault::Full(_, _)) => unreachable!(),
        Err(FormatFault::Memory(disk)) => Err(MakeFault::Memory(disk)),
    }
}

/// Commits what a target keeps in memory. It gives the numbers that are stable since then, or, after a
/// fault, the disk alone.
pub fn commit<D: Plant>(served: Served<D>) -> Result<(Served<D>, Numbers), D>
    requires { served.ledger.count ≤ 65537 }
    ensures ok { IfOk result (λ p. Committed (image_bytes served.ledger) (D.shown served.store.disk) (D.shown p.0.store.disk)) }
    ensures ledger { IfOk result (λ p. p.0.ledger ≡ all_stable served.ledger) }
    ensures numbers { IfOk result (λ p. p.1 ≡ served.ledger.pend) }
    ensures err { IfErr result (λ d. Torn (image_bytes served.ledger) (D.shown served.store.disk) (D.shown d)) }
{
    a_settled_disk_stands();
    let mut store = served.store;
    let mut ledger = served.ledger;
    match store.commit(ledger.image()) {
        Ok(()) => {
            let numbers = ledger.take_pending();
            Ok((Served { store, ledger }, numbers))
        }
        Err(CommitFault::Disk) => Err(store.into_disk()),
        Err(CommitFault::Full(_)) => unreachable!(),
    }
}

/// Stops a disk and starts it again. After a fault it is given back as it is.
fn cycle<D: Plant>(disk: D) -> Result<D, D>
    ensures ok { IfOk result (λ d. Cycled (calls_of D.cycled D.armed) (D.shown disk) (D.shown d)) }
    ensures err { IfErr result (λ d. StaysOff (calls_of D.cycled D.armed) (D.shown disk) (D.shown d)) }
{
    let mut disk = disk;
    match disk.power_cycle() {
        Ok(()) => Ok(disk),
        Err(_) => Err(disk),
    }
}

/// Starts from a disk that was formatted: stops what it was doing, opens it, and reads the numbers that
/// its image holds.
pub fn reopen<D: Plant>(alloc: Global, disk: D) -> Result<(Store<D>, Numbers), ReopenFault<D>>
    ensures ok { IfOk result (λ p. Reopened (calls_of D.cycled D.armed) (D.shown disk) (D.shown p.0.disk) (length p.1) p.1) }
    ensures err { IfErr result (λ e. FailsToReopen (calls_of D.cycled D.armed) D.shown (D.shown disk) e) }
{
    let disk = match cycle(disk) {
        Ok(disk) => disk,
        Err(disk) => return Err(ReopenFault::Disk(disk)),
    };
    match Store::open(alloc, disk) {
        Ok((store, image)) => match read_numbers(alloc, image.bytes()) {
            Ok(numbers) => Ok((store, numbers)),
            Err(ImageFault::BadImage(place)) => Err(ReopenFault::Image(store.into_disk(), place)),
            Err(ImageFault::Memory) => Err(ReopenFault::Memory(store.into_disk())),
        },
        Err(OpenStoreFault::Disk(disk)) => Err(ReopenFault::Disk(disk)),
        Err(OpenStoreFault::Damaged(disk, gates)) => Err(ReopenFault::Gates(disk, gates)),
        Err(OpenStoreFault::Memory(disk)) => Err(ReopenFault::Memory(disk)),
    }
}

/// Formats again a disk whose formatting failed: it stops what it was doing first.
pub fn reformat<D: Plant>(alloc: Global, disk: D, image: &[u8]) -> Result<Store<D>, MakeFault<D>>
    requires { image.now ≡ image_of [] }
    ensures ok { IfOk result (λ s. Reformatted (calls_of D.cycled D.armed) (D.shown disk) (D.shown s.disk)) }
    ensures err { IfErr result (λ e. FailsToRemake (calls_of D.cycled D.armed) D.shown (D.shown disk) e) }
{
    match cycle(disk) {
        Ok(disk) => format_disk(alloc, disk, image),
        Err(disk) => Err(MakeFault::Disk(disk)),
    }
}
