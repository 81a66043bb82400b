ghost use Rattle.std.specs.Prelude.{◌≡◌, ◌<◌, ◌↔◌, ◌⊎◌, ◌^◌, ◌==◌, ◌&&◌, ◌||◌, not, ℕ, true, false, IsTrue};
ghost use Rattle.fid_space.specs.Targets.{is_member, joined, covers, union, minus};

use std::marker::Model;

/// A set of targets 0 to 15. Contracts see a number whose bit t says whether target t is a member.
#[derive(Clone, Copy, Debug, PartialEq, Eq)]
pub struct Targets {
    bits: u16,
}

impl Model for Targets {
    ghost use Rattle.std.specs.Prelude.{ℕ};

    ghost Value = { ℕ };

    ghost view = { λ s. s.bits };

    ghost inverse = { λ n. record { bits = n } };
}

impl Targets {
    /// The empty set.
    pub fn none() -> Targets
        ensures { result ≡ 0 }
    {
        Targets { bits: 0 }
    }

    /// The set that a number says, by its bits.
    pub fn of_number(number: u16) -> Targets
        ensures { result ≡ number }
    {
        Targets { bits: number }
    }

    /// The number that says the set.
    pub fn number(self) -> u16
        ensures { result ≡ self }
    {
        self.bits
    }

    /// Whether the target is a member.
    pub fn has(self, target: u8) -> bool
        requires { target < 16 }
        ensures { result ≡ is_member self target }
    {
        self.bits >> target & 1 == 1
    }

    /// The set with the target as a member, which it may have been before.
    pub fn with(self, target: u8) -> Targets
        requires { target < 16 }
        ensures value { result ≡ joined self target }
        ensures members { (t : ℕ) → (is_member result t ≡ true) ↔ ((is_member self t ≡ true) ⊎ (t ≡ target)) }
    {
        Targets {
            bits: self.bits | 1 << target,
        }
    }

    /// Whether each member of the other set is one of this. A set covers itself, and the empty set.
    pub fn covers(self, other: Targets) -> bool
        ensures value { result ≡ covers self other }
        ensures members { IsTrue result ↔ ((t : ℕ) → is_member other t ≡ true → is_member self t ≡ true) }
    {
        self.bits & other.bits == other.bits
    }

    /// The set of the members of either.
    pub fn union(self, other: Targets) -> Targets
        ensures value { result ≡ union self other }
        ensures members { (t : ℕ) → is_member result t ≡ (is_member self t || is_member other t) }
    {
        Targets {
            bits: self.bits | other.bits,
        }
    }

    /// The set of the members of this that the other has not.
    pub fn minus(self, other: Targets) -> Targets
        ensures value { result ≡ minus self other }
        ensures members { (t : ℕ) → is_member result t ≡ (is_member self t && not (is_member other t)) }
    {
        Targets {
            bits: self.bits ^ (self.bits & other.bits),
        }
    }
}

/// Two sets with the same members are one. The call does nothing: its contract is a law.
pub fn targets_are_their_members()
    ensures all { (a b : ℕ) → ((t : ℕ) → is_member a t ≡ is_member b t) → a ≡ b }
    // Of sets of targets 0 to 15.
    ensures below { (a b : ℕ) → a < 2 ^ 16 → b < 2 ^ 16 → ((t : ℕ) → t < 16 → is_member a t ≡ is_member b t) → a ≡ b }
{}

/// The members of a set that is made of others, as tests. The call does nothing: its contract is a law.
pub fn members_by_parts()
    ensures none { (t : ℕ) → is_member 0 t ≡ false }
    ensures joined { (set target t : ℕ) → is_member (joined set target) t ≡ (is_member set t || (t == target)) }
    ensures union { (a b t : ℕ) → is_member (union a b) t ≡ (is_member a t || is_member b t) }
    ensures minus { (a b t : ℕ) → is_member (minus a b) t ≡ (is_member a t && not (is_member b t)) }
    ensures covers { (a b : ℕ) → (covers a b ≡ true) ↔ ((t : ℕ) → is_member b t ≡ true → is_member a t ≡ true) }
{}
