//! Reading a front from left to right.

ghost use Rattle.std.specs.Prelude.{◌≡◌, ◌≤◌, ◌<◌, true, length, IfOk};
ghost use Rattle.reply_cache.specs.Seats.{no_seats, is_answer};
ghost use Rattle.object_store.specs.ImageReading.{Sees};
ghost use Rattle.state_image.specs.FrontReading.{names_at, reply_at, seat_at, taken_at, seats_at, front_in};

use crate::fields::{at, four_zeros, number_32, number_64};
use crate::front::Front;
use fid_space::Cluster;
use object_store::ImageFault;
use reply_cache::Seats;
use tree_model::Reply;
use update_record::answer_with;

/// The seat of a client, which has answered a request.
#[derive(Drop)]
pub(crate) struct Taken {
    /// The client, 0 to 63.
    pub client: u8,
    /// The number of the request, 1 to 65,536.
    pub number: u32,
    /// Its reply.
    pub reply: Reply,
}

/// The most that a transaction number, a clock, a batch or a mark is.
const MOST: u64 = 1 << 62;

/// The epoch, behind magic and format and before which target it is.
#[tactic(auto, unfolding(crate::specs::FrontReading::names_at))]
fn names(cluster: Cluster, index: u8, len: usize, rest: &[u8]) -> Result<(u32, &[u8]), ImageFault>
    ensures { Sees (λ x. (x.0, x.1.now)) result (names_at cluster index len rest.now) }
{
    let (_magic, rest) = number_32(0x444e_4531, 0x444e_4531, len, rest)?;
    let (_format, rest) = number_32(1, 1, len, rest)?;
    let (epoch, rest) = number_32(1, 1_895_048_192, len, rest)?;
    let (_target, rest) = number_32(u32::from(index), u32::from(index), len, rest)?;
    let targets = u32::from(cluster.targets());
    let (_targets, rest) = number_32(targets, targets, len, rest)?;
    let rest = four_zeros(len, rest)?;
    Ok((epoch, rest))
}

/// An answer by its code.
#[tactic(auto, unfolding(crate::specs::FrontReading::reply_at))]
fn reply(len: usize, rest: &[u8]) -> Result<(Reply, &[u8]), ImageFault>
    ensures value { Sees (λ x. (x.0, x.1.now)) result (reply_at len rest.now) }
    ensures answer { IfOk result (λ x. is_answer x.0 ≡ true) }
{
    let place = at(len, rest);
    let (code, rest) = number_32(0, u32::MAX, len, rest)?;
    match answer_with(code) {
        None => Err(ImageFault::BadImage(place)),
        Some(reply) => Ok((reply, rest)),
    }
}

/// The seat of a client that isn't below the least.
#[tactic(auto, unfolding(crate::specs::FrontReading::seat_at))]
fn seat(len: usize, least: u8, rest: &[u8]) -> Result<(Taken, &[u8]), ImageFault>
    ensures value { Sees (λ x. (x.0, x.1.now)) result (seat_at len least rest.now) }
    ensures client { IfOk result (λ x. x.0.client ≤ 63) }
    ensures answer { IfOk result (λ x. is_answer x.0.reply ≡ true) }
{
    let (client, rest) = number_32(u32::from(least), 63, len, rest)?;
    let (number, rest) = number_32(1, 65_536, len, rest)?;
    let (reply, rest) = reply(len, rest)?;
    let rest = four_zeros(len, rest)?;
    let taken = Taken {
        client: client as u8,
        number,
        reply,
    };
    Ok((taken, rest))
}

/// So many seats, by rising clients.
fn read_taken(len: usize, count: u32, bytes: &[u8]) -> Result<(Seats, &[u8]), ImageFault>
    ensures { Sees (λ x. (x.0, x.1.now)) result (taken_at len count 0 no_seats bytes.now) }
{
    let mut seats = Seats::new();
    let mut least = 0;
    let mut rest = bytes;
    for _done in 0..count {
        let (taken, after) = seat(len, least, rest)?;
        seats.put(taken.client, taken.number, &taken.reply);
        least = taken.client + 1;
        rest = after;
    }
    Ok((seats, rest))
}

/// The count of the seats, and the seats.
#[tactic(auto, unfolding(crate::specs::FrontReading::seats_at))]
fn read_seats(len: usize, rest: &[u8]) -> Result<(Seats, &[u8]), ImageFault>
    ensures { Sees (λ x. (x.0, x.1.now)) result (seats_at len rest.now) }
{
    let (count, rest) = number_32(0, u32::MAX, len, rest)?;
    let rest = four_zeros(len, rest)?;
    read_taken(len, count, rest)
}

impl Front {
    /// The front that the bytes begin with, and what is left behind it. It has to be of this target of this
    /// cluster. A fault names the first field that isn't as stated by its place, and the length of the bytes
    /// where they end inside. It takes no memory.
    #[tactic(auto, unfolding(crate::specs::FrontReading::front_in))]
    pub fn read(cluster: Cluster, index: u8, bytes: &[u8]) -> Result<(Front, &[u8]), ImageFault>
        ensures { Sees (λ x. (x.0, x.1.now)) result (front_in cluster index (length bytes.now) bytes.now) }
    {
        let len = bytes.len();
        let (epoch, rest) = names(cluster, index, len, bytes)?;
        let (transno, rest) = number_64(0, MOST, len, rest)?;
        let (clock, rest) = number_64(0, MOST, len, rest)?;
        let (next_batch, rest) = number_64(1, MOST, len, rest)?;
        let (mark, rest) = number_64(0, MOST, len, rest)?;
        let (seats, rest) = read_seats(len, rest)?;
        let front = Front {
            cluster,
            index,
            epoch,
            transno,
            clock,
            next_batch,
            mark,
            seats,
        };
        Ok((front, rest))
    }
}
