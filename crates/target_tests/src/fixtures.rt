ghost use Rattle.std.specs.Prelude.{◌≡◌};
ghost use Rattle.reply_cache.specs.Seats.{no_seats, put_seat};
ghost use Rattle.tree_model.specs.declared.errno.Errno.TheVariants as errnos;
ghost use Rattle.tree_model.specs.declared.reply.Reply.TheVariants as replies;

use fid_space::Cluster;
use reply_cache::Seats;
use state_image::Front;
use tree_model::{Errno, Reply};

/// A front of 80 bytes: target 1 of 2, with one seat.
pub fn sample(cluster: Cluster) -> Front
    ensures place { (result.cluster ≡ cluster) × (result.index ≡ 1) }
    ensures numbers { (result.epoch ≡ 6) × (result.transno ≡ 3) × (result.clock ≡ 4) }
    ensures batches { (result.next_batch ≡ 5) × (result.mark ≡ 2) }
    ensures seat { result.seats ≡ put_seat no_seats 7 9 (replies.Err errnos.EEXIST) }
{
    let mut seats = Seats::new();
    seats.put(7, 9, &Reply::Err(Errno::EEXIST));
    Front {
        cluster,
        index: 1,
        epoch: 6,
        transno: 3,
        clock: 4,
        next_batch: 5,
        mark: 2,
        seats,
    }
}
