//! Judging the payloads of the live records of a log.

ghost use Rattle.std.specs.Prelude.{◌≡◌, Some};
ghost use Rattle.llog_store.specs.Changes.{live_place, live_payload};
ghost use Rattle.object_store.specs.ImageReading.{Gives};
ghost use Rattle.update_record.specs.Spelling.{has_target};
ghost use Rattle.state_image.specs.StateText.{all_below, is_own};
ghost use Rattle.state_image.specs.StateReading.{record_in, payload_at, maybe_payload, payloads_at};

use crate::moving::{moved, record_fault};
use fid_space::Cluster;
use llog_store::Llog;
use object_store::ImageFault;
use out_update::UpdateRequest;
use std::alloc::Global;
use update_record::{Record, a_record_is_read_back};

/// Whether a target takes part.
fn has_target(target: u8, parts: &[(u8, UpdateRequest)]) -> bool
    ensures { result ≡ has_target target parts.now }
{
    for part in parts {
        if part.0 == target {
            return true;
        }
    }
    false
}

/// Whether each target that takes part is one of so many.
fn all_below(targets: u8, parts: &[(u8, UpdateRequest)]) -> bool
    ensures { result ≡ all_below targets parts.now }
{
    for part in parts {
        if targets <= part.0 {
            return false;
        }
    }
    true
}

/// Whether the record of an operation names this target, and none that there isn't.
fn is_own(cluster: Cluster, index: u8, operation: &Record) -> bool
    ensures { result ≡ is_own cluster index operation.now }
{
    let parts = operation.parts.items();
    has_target(index, parts) && all_below(cluster.targets(), parts)
}

/// The record that a payload is.
#[tactic(auto, unfolding(crate::specs::StateReading::record_in))]
fn record_in(alloc: Global, payload: &[u8]) -> Result<Record, ImageFault>
    ensures { Gives (λ r. Some r) result (record_in payload.now) }
{
    match Record::decode(alloc, payload) {
        Ok((record, end)) => {
            a_record_is_read_back();
            if end == payload.len() {
                Ok(record)
            } else {
                Err(ImageFault::BadImage(payload.len()))
            }
        }
        Err(fault) => Err(record_fault(fault)),
    }
}

/// Judges a payload that begins at a place.
#[tactic(auto, using(crate::proofs::Shifted::then_moves), unfolding(crate::specs::StateReading::payload_at))]
fn payload(
    alloc: Global,
    cluster: Cluster,
    index: u8,
    place: usize,
    bytes: &[u8],
) -> Result<(), ImageFault>
    ensures { Gives (λ x. x) result (payload_at cluster index place bytes.now) }
{
    match record_in(alloc, bytes) {
        Ok(record) => {
            if is_own(cluster, index, &record) {
                Ok(())
            } else {
                Err(ImageFault::BadImage(place))
            }
        }
        Err(fault) => Err(moved(place, fault)),
    }
}

/// Judges the payload of the live record with an index, where there is one.
fn maybe_payload(
    alloc: Global,
    cluster: Cluster,
    index: u8,
    log: &Llog,
    record_index: u32,
) -> Result<(), ImageFault>
    ensures { Gives (λ x. x) result (maybe_payload cluster index (live_place 32768 record_index log.now.entries) (live_payload record_index log.now.entries)) }
{
    match (log.place(record_index), log.payload(record_index)) {
        (Some(place), Some(bytes)) => payload(alloc, cluster, index, place as usize, bytes),
        _ => Ok(()),
    }
}

/// Judges the payloads of the live records of a log, by their rising indexes. A fault is placed from the
/// log's start.
pub(crate) fn payloads(
    alloc: Global,
    cluster: Cluster,
    index: u8,
    log: &Llog,
) -> Result<(), ImageFault>
    ensures { Gives (λ x. x) result (payloads_at cluster index log.now.entries 0 log.now.next) }
{
    for record_index in 0..log.next() {
        maybe_payload(alloc, cluster, index, log, record_index)?;
    }
    Ok(())
}
