ghost use Rattle.std.specs.Prelude.{◌≡◌, ◌≤◌, ◌↔◌, IsSome, IfSome};

use std::marker::Model;

/// How many metadata targets a cluster has: 1 to 16. Contracts see the number.
#[derive(Clone, Copy, Debug, PartialEq, Eq)]
pub struct Cluster {
    targets: u8,
}

impl Model for Cluster {
    ghost use Rattle.std.specs.Prelude.{ℕ, ◌≤◌};

    ghost Value = { ℕ };

    ghost view = { λ c. c.targets };

    ghost invariant = { λ c. (1 ≤ c.targets) × (c.targets ≤ 16) };

    ghost inverse = { λ n. record { targets = n } };
}

impl Cluster {
    /// The cluster of so many targets, or `None` outside 1 to 16.
    pub fn new(targets: u8) -> Option<Cluster>
        ensures some { IsSome result ↔ ((1 ≤ targets) × (targets ≤ 16)) }
        ensures value { IfSome result (λ c. c ≡ targets) }
    {
        if 1 <= targets && targets <= 16 {
            Some(Cluster { targets })
        } else {
            None
        }
    }

    /// How many targets there are.
    pub fn targets(&self) -> u8
        ensures count { result ≡ self.now }
        ensures some { 1 ≤ result }
        ensures most { result ≤ 16 }
    {
        self.targets
    }
}
