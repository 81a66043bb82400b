ghost use Rattle.std.specs.Prelude.{◌≡◌, IsErrOf};
ghost use Rattle.std.specs.Int.{w16, w32, w64};
ghost use Rattle.byte_grammar.specs.Values.{Gives, part_at, number_at};

use crate::numbers::{number16, number32, number64};
use std::alloc::AllocError;

/// Why no value was built. Bytes that were judged are never short.
#[derive(Clone, Copy, Debug, PartialEq, Eq)]
pub enum BuildFault {
    /// Memory ran out.
    Memory,
    /// There are no such bytes.
    Short,
}

impl From<AllocError> for BuildFault {
    ghost use Rattle.std.specs.Prelude.{◌≡◌};
    ghost use Rattle.byte_grammar.specs.declared.values.BuildFault.TheVariants.{Memory};

    ghost from_gives = { λ _ e. e ≡ Memory };

    fn from(_e: AllocError) -> BuildFault {
        BuildFault::Memory
    }
}

/// The first so many bytes, and those behind them.
#[tactic(auto, unfolding(crate::specs::Values::part_at))]
pub fn part(len: usize, bytes: &[u8]) -> Result<(&[u8], &[u8]), BuildFault>
    ensures value { Gives (λ x. (x.0.now, x.1.now)) result (part_at len bytes.now) }
    ensures free { IsErrOf result BuildFault.Memory → ⊥ }
{
    if bytes.len() < len {
        return Err(BuildFault::Short);
    }
    Ok(bytes.split_at(len))
}

/// The number in the first two bytes, and the bytes behind them.
#[tactic(auto, unfolding(crate::specs::Values::part_at, crate::specs::Values::number_at))]
pub fn u16_at(bytes: &[u8]) -> Result<(u16, &[u8]), BuildFault>
    ensures value { Gives (λ x. (x.0, x.1.now)) result (number_at w16 bytes.now) }
    ensures free { IsErrOf result BuildFault.Memory → ⊥ }
{
    let (front, rest) = part(2, bytes)?;
    Ok((number16(front), rest))
}

/// The number in the first four bytes, and the bytes behind them.
#[tactic(auto, unfolding(crate::specs::Values::part_at, crate::specs::Values::number_at))]
pub fn u32_at(bytes: &[u8]) -> Result<(u32, &[u8]), BuildFault>
    ensures value { Gives (λ x. (x.0, x.1.now)) result (number_at w32 bytes.now) }
    ensures free { IsErrOf result BuildFault.Memory → ⊥ }
{
    let (front, rest) = part(4, bytes)?;
    Ok((number32(front), rest))
}

/// The number in the first eight bytes, and the bytes behind them.
#[tactic(auto, unfolding(crate::specs::Values::part_at, crate::specs::Values::number_at))]
pub fn u64_at(bytes: &[u8]) -> Result<(u64, &[u8]), BuildFault>
    ensures value { Gives (λ x. (x.0, x.1.now)) result (number_at w64 bytes.now) }
    ensures free { IsErrOf result BuildFault.Memory → ⊥ }
{
    let (front, rest) = part(8, bytes)?;
    Ok((number64(front), rest))
}
