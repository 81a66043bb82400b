//! The image in pieces.

ghost use Rattle.std.specs.Prelude.{◌≡◌, ◌++◌, ◌-◌, length, take, drop, min};
ghost use Rattle.object_store.specs.ImageText.{image_text};

use crate::objects::Objects;
use crate::rest::Rest;
use std::marker::Model;

/// An image that is given piece by piece from its start on. Contracts see the bytes that are left.
#[derive(Drop)]
pub struct ImagePieces<'a> {
    rest: Rest<'a>,
}

impl<'a> Model for ImagePieces<'a> {
    ghost use Rattle.std.specs.Prelude.{ℕ, List};
    ghost use Rattle.object_store.specs.Pieces.{left_text, RestFits};

    ghost Value = { List ℕ };

    ghost view = { λ p. left_text p.rest };

    ghost invariant = { λ p. RestFits p.rest };
}

impl ImagePieces<'_> {
    /// Copies the next bytes, as many as there are and as fit, and answers their number. It takes no memory;
    /// all pieces together cost as much as one walk over the objects.
    pub fn copy_next(&mut self, into: &mut [u8]) -> usize
        ensures count { result ≡ min (length into.old) (length self.old) }
        // They stand at the front, and behind them is what was there.
        ensures bytes { into.new ≡ take result self.old ++ drop result into.old }
        ensures left { self.new ≡ drop result self.old }
    {
        self.rest.copy(into)
    }
}

impl Objects {
    /// Their image, to be copied piece by piece from its start on.
    pub fn pieces(&self) -> ImagePieces<'_>
        ensures { result ≡ image_text self.now }
    {
        ImagePieces {
            rest: Rest::of(self, 0),
        }
    }

    /// Copies the bytes of their image from a place on, as many as there are and as fit, and answers their
    /// number. It takes no memory. The place is found by the sizes of the objects before it and of the entries
    /// and attributes before it in its own object; who wants piece after piece takes `pieces`, which goes on
    /// where it stopped.
    pub fn copy_from(&self, at: u64, into: &mut [u8]) -> usize
        ensures count { result ≡ min (length into.old) (length (image_text self.now) - at) }
        // They stand at the front, and behind them is what was there.
        ensures bytes { into.new ≡ take result (drop at (image_text self.now)) ++ drop result into.old }
    {
        let mut rest = Rest::of(self, at);
        rest.copy(into)
    }
}
