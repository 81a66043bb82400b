//! Reading a state image from left to right.

ghost use Rattle.std.specs.Prelude.{◌≡◌};
ghost use Rattle.llog_store.specs.Reading.{log_at};
ghost use Rattle.object_store.specs.ImageReading.{Gives};
ghost use Rattle.state_image.specs.StateReading.{of_log, objects_in, own_log, log_in, image_in};

use crate::fields::{at, field, four_zeros, number_32};
use crate::front::Front;
use crate::image::Image;
use crate::moving::{log_fault, moved};
use crate::payloads::payloads;
use fid_space::Cluster;
use llog_store::Llog;
use object_store::{ImageFault, Objects};
use std::alloc::Global;

/// The objects, and what is left behind them.
#[tactic(auto, using(crate::proofs::Shifted::then_moves), unfolding(crate::specs::StateReading::objects_in))]
fn objects(alloc: Global, len: usize, rest: &[u8]) -> Result<(Objects, &[u8]), ImageFault>
    ensures { Gives (λ x. (x.0, x.1.now)) result (objects_in len rest.now) }
{
    match Objects::decode(alloc, rest) {
        Ok((objects, size)) => Ok((objects, &rest[size..])),
        Err(fault) => Err(moved(at(len, rest), fault)),
    }
}

/// The log that the bytes are.
fn log_of(alloc: Global, bytes: &[u8]) -> Result<Llog, ImageFault>
    ensures { Gives (λ l. l) result (of_log (log_at bytes.now)) }
{
    match Llog::read(alloc, bytes) {
        Ok(log) => Ok(log),
        Err(fault) => Err(log_fault(fault)),
    }
}

/// The log that the bytes are, with the payloads of its live records judged.
#[tactic(auto, unfolding(crate::specs::StateReading::own_log))]
fn own_log(alloc: Global, cluster: Cluster, index: u8, bytes: &[u8]) -> Result<Llog, ImageFault>
    ensures { Gives (λ l. l) result (own_log cluster index bytes.now) }
{
    let log = log_of(alloc, bytes)?;
    payloads(alloc, cluster, index, &log)?;
    Ok(log)
}

/// The log behind its length, and what is left behind it.
#[tactic(auto, using(crate::proofs::Shifted::then_moves), unfolding(crate::specs::StateReading::log_in))]
fn log(
    alloc: Global,
    cluster: Cluster,
    index: u8,
    len: usize,
    rest: &[u8],
) -> Result<(Llog, &[u8]), ImageFault>
    ensures { Gives (λ x. (x.0, x.1.now)) result (log_in cluster index len rest.now) }
{
    let (size, rest) = number_32(0, u32::MAX, len, rest)?;
    let rest = four_zeros(len, rest)?;
    let (bytes, after) = field(len, size as usize, rest)?;
    match own_log(alloc, cluster, index, bytes) {
        Ok(log) => Ok((log, after)),
        Err(fault) => Err(moved(at(len, rest), fault)),
    }
}

impl Image {
    /// What a target of the cluster committed with these bytes. A fault names the first field that isn't as
    /// stated by its place in bytes, and the length of the bytes where they end inside, or where some are left.
    /// The payloads of the live records are judged behind the log: each is a record that names this target,
    /// and none that the cluster has not.
    #[tactic(auto, unfolding(crate::specs::StateReading::image_in))]
    pub fn read(
        alloc: Global,
        cluster: Cluster,
        index: u8,
        bytes: &[u8],
    ) -> Result<Image, ImageFault>
        ensures { Gives (λ image. image) result (image_in cluster index bytes.now) }
    {
        let len = bytes.len();
        let (front, rest) = Front::read(cluster, index, bytes)?;
        let (objects, rest) = objects(alloc, len, rest)?;
        let (log, rest) = log(alloc, cluster, index, len, rest)?;
        if rest.is_empty() {
            Ok(Image {
                front,
                objects,
                log,
            })
        } else {
            Err(ImageFault::BadImage(len))
        }
    }
}
