ghost use Rattle.std.specs.Prelude.{◌≡◌, ◌≢◌};
ghost use Rattle.line_player.specs.Reached.{status_of};

use outside::Status;

/// Why a run stops before its end.
#[derive(Clone, Copy, Debug, PartialEq, Eq)]
pub enum Stop {
    Refused,
    Memory,
    Sink,
}

/// The status of a run that stopped.
pub fn status_of(stop: Stop) -> Status
    ensures value { result ≡ status_of stop }
    ensures never { result ≢ Status.Source }
    ensures undone { result ≢ Status.Done }
    ensures sink { result ≡ Status.Sink → stop ≡ Stop.Sink }
{
    match stop {
        Stop::Refused => Status::Refused,
        Stop::Memory => Status::Memory,
        Stop::Sink => Status::Sink,
    }
}
