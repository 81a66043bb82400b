ghost use Rattle.std.specs.Prelude.{◌≡◌, ◌≢◌, ◌==◌, ◌<◌, ◌^◌, ℕ, map, IfOk, IfSome, IfNone};
ghost use Rattle.std.specs.List.{slice_split};
ghost use Rattle.std.specs.Fmt.{decimal};

use std::alloc::{AllocError as Memory, Global};

/// The words of a line, which single spaces part: between two spaces stands an empty word, and an empty
/// line is one empty word.
pub fn words(alloc: Global, line: &[u8]) -> Result<Vec<&[u8]>, Memory>
    ensures { IfOk result (λ v. map (λ w. w.now) v.items ≡ slice_split (λ b. b == 32) line.now) }
{
    line.split(|b| *b == b' ').collect(alloc)
}

/// The number that a word spells: decimal digits without a sign or a leading zero. `Err` is want of
/// memory alone.
pub fn number(alloc: Global, word: &[u8]) -> Result<Option<u32>, Memory>
    ensures some { IfOk result (λ r. IfSome r (λ n. (n < 2 ^ 32) × (word.now ≡ decimal n))) }
    ensures none { IfOk result (λ r. IfNone r ((n : ℕ) → n < 2 ^ 32 → word.now ≢ decimal n)) }
{
    let text = match std::str::from_utf8(word) {
        Ok(text) => text,
        Err(_) => return Ok(None),
    };
    let number = match text.parse::<u32>() {
        Ok(number) => number,
        Err(_) => return Ok(None),
    };
    let again = number.to_string(alloc)?;
    if again.as_bytes() == word {
        Ok(Some(number))
    } else {
        Ok(None)
    }
}
