//! What each command that touches a disk does to the target. Each takes the target, and gives what it has
//! become, also where the lines couldn't be printed for want of memory.
ghost use Rattle.std.specs.Prelude.{◌≡◌, ◌≤◌, ◌++◌, ◌∷◌, [], List, OnOk};
ghost use Rattle.scenario_text.specs.LineText.{texts};
ghost use Rattle.scenario_text.specs.declared.line.Line.{Line};
ghost use Rattle.dne_cli.specs.Image.{image_of};
ghost use Rattle.dne_cli.specs.Disks.{Touches, calls_of};
ghost use Rattle.dne_cli.specs.Kept.{Commits, Crashes, Ends, Founds, image_bytes, Reformats, Restarts, standing_of, Starts, stopped, empty_ledger};
ghost use Rattle.dne_cli.specs.Restart.{held_of};
ghost use Rattle.dne_cli.specs.Session.{count_of};

use crate::image::Image;
use crate::ledger::Ledger;
use crate::target::{
    Halted, MakeFault, ReopenFault, Served, Target, commit, format_disk, reformat, reopen,
};
use fid_space::{Bytes, Numbers};
use outside::Plant;
use scenario_text::{
    Line, Standing, print_damaged_gates, print_damaged_image, print_down, print_end_unclean,
    print_stable, print_state, print_up,
};
use std::alloc::{AllocError as Memory, Global};

/// Makes a cluster's target of a disk.
pub fn found_target<D: Plant>(
    alloc: Global,
    target: Target<D>,
    ledger: Ledger,
    out: &mut Bytes,
) -> (Target<D>, Result<(), Memory>)
    requires { ledger ≡ empty_ledger ledger.tree.targets }
    ensures lines { OnOk result.1 ((ls : List Line) × Founds (held_of D.shown target).disk ledger.tree.targets (held_of D.shown result.0) ls × (out.new ≡ out.old ++ texts ls)) }
    ensures touches { Touches (held_of D.shown target).disk (held_of D.shown result.0).disk }
    ensures count { count_of (held_of D.shown result.0) ≡ 0 }
{
    match format_disk(alloc, target.into_disk(), ledger.image()) {
        Ok(store) => (Target::Serving(Served { store, ledger }), Ok(())),
        Err(MakeFault::Disk(disk)) => (halted(disk, false), print_down(0, out)),
        Err(MakeFault::Memory(disk)) => (halted(disk, false), Err(Memory)),
    }
}

/// Commits a target that serves. After a fault it is down.
pub fn commit_target<D: Plant>(
    number: u8,
    target: Target<D>,
    out: &mut Bytes,
) -> (Target<D>, Result<(), Memory>)
    requires { count_of (held_of D.shown target) ≤ 65537 }
    ensures lines { OnOk result.1 ((ls : List Line) × Commits (held_of D.shown target).ledger number (held_of D.shown target) (held_of D.shown result.0) ls × (out.new ≡ out.old ++ texts ls)) }
    ensures touches { Touches (held_of D.shown target).disk (held_of D.shown result.0).disk }
    ensures count { count_of (held_of D.shown result.0) ≤ count_of (held_of D.shown target) }
{
    match target {
        Target::Serving(served) => match commit(served) {
            Ok((served, numbers)) => (Target::Serving(served), print_stable(number, &numbers, out)),
            Err(disk) => (halted(disk, true), print_down(number, out)),
        },
        other => {
            let standing = other.standing();
            (other, print_state(number, standing, out))
        }
    }
}

/// Commits a target that serves, as the last thing.
pub fn end_target<D: Plant>(target: Target<D>, out: &mut Bytes) -> (Target<D>, Result<(), Memory>)
    requires { count_of (held_of D.shown target) ≤ 65537 }
    ensures lines { OnOk result.1 ((ls : List Line) × Ends (held_of D.shown target).ledger (held_of D.shown target) (held_of D.shown result.0) ls × (out.new ≡ out.old ++ texts ls)) }
    ensures touches { Touches (held_of D.shown target).disk (held_of D.shown result.0).disk }
    ensures count { count_of (held_of D.shown result.0) ≤ count_of (held_of D.shown target) }
{
    match target {
        Target::Serving(served) => match commit(served) {
            Ok((served, numbers)) => (Target::Serving(served), print_clean(&numbers, out)),
            Err(disk) => (halted(disk, true), print_unclean(out)),
        },
        other => (other, print_end_unclean(0, out)),
    }
}

/// Stops a target that isn't down.
pub fn crash_target<D: Plant>(
    number: u8,
    target: Target<D>,
    out: &mut Bytes,
) -> (Target<D>, Result<(), Memory>)
    ensures lines { OnOk result.1 ((ls : List Line) × Crashes (standing_of (held_of D.shown target)) number (held_of D.shown target) (held_of D.shown result.0) ls × (out.new ≡ out.old ++ texts ls)) }
    ensures touches { Touches (held_of D.shown target).disk (held_of D.shown result.0).disk }
    ensures count { count_of (held_of D.shown result.0) ≡ 0 }
{
    match target {
        Target::Down(down) => (Target::Down(down), print_state(number, Standing::Down, out)),
        other => (halted(other.into_disk(), true), print_down(number, out)),
    }
}

/// Starts a target that is down: from its disk, or, where its formatting failed, by formatting it again.
pub fn restart_target<D: Plant>(
    alloc: Global,
    number: u8,
    target: Target<D>,
    out: &mut Bytes,
) -> (Target<D>, Result<(), Memory>)
    ensures lines { OnOk result.1 ((ls : List Line) × Restarts (calls_of D.cycled D.armed) (standing_of (held_of D.shown target)) (held_of D.shown target).formatted number (held_of D.shown target) (held_of D.shown result.0) ls × (out.new ≡ out.old ++ texts ls)) }
    ensures touches { Touches (held_of D.shown target).disk (held_of D.shown result.0).disk }
    ensures count { count_of (held_of D.shown result.0) ≤ count_of (held_of D.shown target) }
{
    match target {
        Target::Down(down) => {
            if down.formatted {
                return start(alloc, number, down.disk, out);
            }
            restore(alloc, number, down.disk, out)
        }
        other => {
            let standing = other.standing();
            (other, print_state(number, standing, out))
        }
    }
}

/// Starts a target from a disk that was formatted.
fn start<D: Plant>(
    alloc: Global,
    number: u8,
    disk: D,
    out: &mut Bytes,
) -> (Target<D>, Result<(), Memory>)
    ensures lines { OnOk result.1 ((ls : List Line) × Starts (calls_of D.cycled D.armed) (D.shown disk) number (held_of D.shown result.0) ls × (out.new ≡ out.old ++ texts ls)) }
    ensures touches { Touches (D.shown disk) (held_of D.shown result.0).disk }
    ensures count { count_of (held_of D.shown result.0) ≡ 0 }
{
    match reopen(alloc, disk) {
        Ok((store, numbers)) => {
            let transno = numbers.len() as u64;
            (
                Target::Opened(store),
                print_up(number, transno, &numbers, out),
            )
        }
        Err(ReopenFault::Disk(disk)) => (halted(disk, true), print_down(number, out)),
        Err(ReopenFault::Gates(disk, gates)) => (
            halted(disk, true),
            print_damaged_gates(number, gates, out),
        ),
        Err(ReopenFault::Image(disk, place)) => (
            halted(disk, true),
            print_damaged_image(number, place, out),
        ),
        Err(ReopenFault::Memory(disk)) => (halted(disk, true), Err(Memory)),
    }
}

/// Starts a target from a disk whose formatting failed.
fn restore<D: Plant>(
    alloc: Global,
    number: u8,
    disk: D,
    out: &mut Bytes,
) -> (Target<D>, Result<(), Memory>)
    ensures lines { OnOk result.1 ((ls : List Line) × Reformats (calls_of D.cycled D.armed) (D.shown disk) number (held_of D.shown result.0) ls × (out.new ≡ out.old ++ texts ls)) }
    ensures touches { Touches (D.shown disk) (held_of D.shown result.0).disk }
    ensures count { count_of (held_of D.shown result.0) ≡ 0 }
{
    let image = match Image::new(alloc) {
        Ok(image) => image,
        Err(_) => return (halted(disk, false), Err(Memory)),
    };
    match reformat(alloc, disk, image.bytes()) {
        Ok(store) => (
            Target::Opened(store),
            print_up(number, 0, &Numbers::new(alloc), out),
        ),
        Err(MakeFault::Disk(disk)) => (halted(disk, false), print_down(number, out)),
        Err(MakeFault::Memory(disk)) => (halted(disk, false), Err(Memory)),
    }
}

/// A target that is down.
fn halted<D: Plant>(disk: D, formatted: bool) -> Target<D>
    ensures { held_of D.shown result ≡ stopped formatted (D.shown disk) }
{
    Target::Down(Halted { disk, formatted })
}

/// Adds the lines of an end at which the target committed.
fn print_clean(numbers: &Numbers, out: &mut Bytes) -> Result<(), Memory>
    ensures { OnOk result (out.new ≡ out.old ++ texts (Line.Stable 0 numbers.now ∷ Line.EndClean ∷ [])) }
{
    print_stable(0, numbers, out)?;
    Line::EndClean.print(out)
}

/// Adds the lines of an end at which the target's disk failed.
fn print_unclean(out: &mut Bytes) -> Result<(), Memory>
    ensures { OnOk result (out.new ≡ out.old ++ texts (Line.Down 0 ∷ Line.EndUnclean 0 ∷ [])) }
{
    print_down(0, out)?;
    print_end_unclean(0, out)
}
