ghost use Rattle.reply_cache.specs.SeatLaws.{SeatsHaveTheGreatest};

/// After any replies that were put, a client's seat has the greatest of its numbers, with the reply that
/// was put last under it, and is empty exactly where nothing was put for the client. The call does nothing:
/// its contract is a law.
#[tactic(auto, using(crate::proofs::Greatest::seats_have_the_greatest))]
pub fn a_seat_has_the_greatest_number()
    ensures { SeatsHaveTheGreatest }
{}
