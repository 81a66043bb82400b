ghost use Rattle.fid_space.specs.StripeLaws.{OneStripePerFid, NoClientFid, PlaceIsTarget};

/// A stripe's FID is that of no other stripe, whether another directory, target, index or generation; it is
/// no FID that a client makes; and its place is its target. The call does nothing: its contract is a law.
pub fn stripe_fids_are_their_own()
    ensures one { OneStripePerFid }
    ensures no_client { NoClientFid }
    ensures place { PlaceIsTarget }
{}
