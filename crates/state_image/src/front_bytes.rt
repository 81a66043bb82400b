//! The bytes of a front, which take no memory.

ghost use Rattle.std.specs.Prelude.{◌≡◌, ◌≤◌, ◌+◌, ◌++◌, [], length};

use std::marker::Model;

/// The bytes of a front, at most 1,088.
#[derive(Drop)]
pub struct FrontBytes {
    bytes: [u8; 1088],
    len: usize,
}

impl Model for FrontBytes {
    ghost use Rattle.std.specs.Prelude.{List, ℕ, length, take, ◌≡◌, ◌≤◌};

    ghost Value = { List ℕ };

    ghost view = { λ f. take f.len f.bytes };

    ghost invariant = { λ f. (length f.bytes ≡ 1088) × (f.len ≤ 1088) };
}

impl FrontBytes {
    /// None.
    pub(crate) fn new() -> FrontBytes
        ensures { result ≡ [] }
    {
        FrontBytes {
            bytes: [0; 1088],
            len: 0,
        }
    }

    /// Adds a piece that there is room for.
    #[tactic(auto, using(crate::proofs::Pieces::put_behind, crate::proofs::Pieces::room_behind))]
    pub(crate) fn push(&mut self, piece: &[u8])
        requires { length self.old + length piece.now ≤ 1088 }
        ensures { self.new ≡ self.old ++ piece.now }
    {
        self.bytes[self.len..self.len + piece.len()].copy_from_slice(piece);
        self.len += piece.len();
    }

    /// Lends them.
    pub fn bytes(&self) -> &[u8]
        ensures { result.now ≡ self.now }
    {
        &self.bytes[..self.len]
    }
}
