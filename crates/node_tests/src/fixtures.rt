ghost use Rattle.std.specs.Prelude.{◌≡◌};

use update_record::Attempt;

/// An attempt of the first request, at target 0 in epoch 1.
pub fn attempt(attempt: u64) -> Attempt
    ensures { result ≡ record { epoch = 1; master = 0; attempt = attempt; number = 1 } }
{
    Attempt {
        epoch: 1,
        master: 0,
        attempt,
        number: 1,
    }
}
