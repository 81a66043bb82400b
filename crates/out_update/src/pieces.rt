ghost use Rattle.std.specs.Prelude.{◌≡◌, ℕ, List};
ghost use Rattle.std.specs.List.{flat_map};
ghost use Rattle.out_update.specs.Pieces.{Reads};

use crate::decoder::Decoder;
use crate::fault::UpdateFault;
use crate::update::UpdateRequest;
use byte_grammar::Fed;
use fid_space::Bytes;
use std::alloc::Global;

/// Reads one request that comes in these pieces, in any cutting; `None` where they hold only a part of it.
/// Bytes behind the request are not looked at.
pub fn read_pieces(alloc: Global, pieces: &[Bytes]) -> Result<Option<UpdateRequest>, UpdateFault>
    ensures { Reads (flat_map (λ p. p) pieces.now) result }
{
    let mut decoder = Decoder::new(alloc);
    for piece in pieces {
        match decoder.feed(piece.bytes()) {
            Ok(Fed::More) => {}
            Ok(Fed::Done { value, .. }) => return Ok(Some(value)),
            Err(fault) => return Err(fault),
        }
    }
    Ok(None)
}
