//! Putting the image of a state on a disk, piece by piece. It takes no memory.

ghost use Rattle.std.specs.Prelude.{◌≡◌, ◌≤◌, ◌<◌, ◌+◌, ◌++◌, ℕ, List, length, IsTrue, IsSome, OnOk, Ok};
ghost use Rattle.outside.specs.Disk.{Shown, Stays};
ghost use Rattle.outside.specs.Causes.{HasCause};
ghost use Rattle.llog_store.specs.Log.{log_text};
ghost use Rattle.llog_store.specs.Chunked.{chunk_at, chunk_count, joined_to};
ghost use Rattle.object_store.specs.ImageText.{image_text};
ghost use Rattle.state_image.specs.StateText.{log_part};
ghost use Rattle.state_image.specs.FrontText.{front_text};
ghost use Rattle.target_disk.specs.Tables.{Saved, image_most};
ghost use Rattle.target_disk.specs.Draft.{put_len};
ghost use Rattle.target_disk.specs.Store.{Stands, IsSettled, OpensAsEither, next};
ghost use Rattle.target_state.specs.Image.{front_of, state_text};
ghost use Rattle.target_node.specs.Putting.{Pours};

use llog_store::Llog;
use object_store::Objects;
use outside::{Disk, DiskFault};
use target_disk::{CommitFault, Store};
use target_state::State;

/// Puts a piece that there is room for.
fn put<D: Disk>(store: &mut Store<D>, piece: &[u8]) -> Result<(), DiskFault>
    requires begun { IsSome store.old.draft }
    requires room { put_len store.old.draft + length piece.now ≤ image_most }
    ensures { Pours result piece.now (D.shown store.old.disk) (D.shown store.new.disk) store.old.draft store.new.draft }
{
    match store.put(piece) {
        Ok(()) => Ok(()),
        Err(CommitFault::Disk) => Err(DiskFault::Failed),
        Err(CommitFault::Full(_)) => unreachable!(),
    }
}

/// Puts the image of objects.
fn put_objects<D: Disk>(store: &mut Store<D>, objects: &Objects) -> Result<(), DiskFault>
    requires begun { IsSome store.old.draft }
    requires room { put_len store.old.draft + length (image_text objects.now) ≤ image_most }
    ensures { Pours result (image_text objects.now) (D.shown store.old.disk) (D.shown store.new.disk) store.old.draft store.new.draft }
{
    let size = objects.size();
    let mut pieces = objects.pieces();
    let mut buffer = [0u8; 4096];
    let mut at = 0;
    while at < size {
        let n = pieces.copy_next(&mut buffer);
        put(store, &buffer[..n])?;
        at += n as u64;
    }
    Ok(())
}

/// Puts a chunk of a log.
fn put_chunk<D: Disk>(store: &mut Store<D>, log: &Llog, i: u32) -> Result<(), DiskFault>
    requires begun { IsSome store.old.draft }
    requires there { i < chunk_count (log_text log.now) }
    requires room { put_len store.old.draft + length (chunk_at (log_text log.now) i) ≤ image_most }
    ensures { Pours result (chunk_at (log_text log.now) i) (D.shown store.old.disk) (D.shown store.new.disk) store.old.draft store.new.draft }
{
    match log.chunk(i) {
        Some(chunk) => put(store, chunk),
        None => unreachable!(),
    }
}

/// Puts the bytes of a log.
fn put_chunks<D: Disk>(store: &mut Store<D>, log: &Llog) -> Result<(), DiskFault>
    requires begun { IsSome store.old.draft }
    requires room { put_len store.old.draft + length (log_text log.now) ≤ image_most }
    ensures { Pours result (log_text log.now) (D.shown store.old.disk) (D.shown store.new.disk) store.old.draft store.new.draft }
{
    for i in 0..log.chunks() {
        put_chunk(store, log, i)?;
    }
    Ok(())
}

/// Puts a log behind its length.
fn put_log<D: Disk>(store: &mut Store<D>, state: &State) -> Result<(), DiskFault>
    requires begun { IsSome store.old.draft }
    requires room { put_len store.old.draft + length (log_part state.now.log) ≤ image_most }
    ensures { Pours result (log_part state.now.log) (D.shown store.old.disk) (D.shown store.new.disk) store.old.draft store.new.draft }
{
    put(store, &state.log_head())?;
    put_chunks(store, state.log())
}

/// Puts a front, the objects and the log.
fn put_parts<D: Disk>(store: &mut Store<D>, front: &[u8], state: &State) -> Result<(), DiskFault>
    requires begun { IsSome store.old.draft }
    requires front { front.now ≡ front_text (front_of state.now) }
    requires room { put_len store.old.draft + length (state_text state.now) ≤ image_most }
    ensures { Pours result (state_text state.now) (D.shown store.old.disk) (D.shown store.new.disk) store.old.draft store.new.draft }
{
    put(store, front)?;
    put_objects(store, state.objects())?;
    put_log(store, state)
}

/// Commits the image of a state, whose front is given.
pub(crate) fn put_image<D: Disk>(
    store: &mut Store<D>,
    front: &[u8],
    state: &State,
) -> Result<(), DiskFault>
    requires front { front.now ≡ front_text (front_of state.now) }
    requires room { length (state_text state.now) ≤ image_most }
    ensures stays { Stays (D.shown store.old.disk) (D.shown store.new.disk) }
    ensures cause { HasCause (D.shown store.old.disk).faults (D.shown store.new.disk).faults result }
    ensures any_moment { (s : Saved) → Stands (D.shown store.old.disk) s → OpensAsEither (D.shown store.new.disk) s (next s (state_text state.now)) }
    ensures done { (s : Saved) → Stands (D.shown store.old.disk) s → OnOk result (IsSettled (D.shown store.new.disk) (next s (state_text state.now))) }
{
    store.begin();
    put_parts(store, front, state)?;
    match store.finish() {
        Ok(()) => Ok(()),
        Err(CommitFault::Disk) => Err(DiskFault::Failed),
        Err(CommitFault::Full(_)) => unreachable!(),
    }
}
