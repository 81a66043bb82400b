ghost use Rattle.std.specs.Prelude.{◌≡◌, ◌<◌, ℕ, get_or, Ok, IfOk, Option, None, Some};
ghost use Rattle.std.specs.Option.{option_map};
ghost use Rattle.striped_dir.specs.Layouts.{laid, FitsLayout, layout_text, bad_place, layout_in};

/// How a directory is striped, after the striped directories of DNE phase II. In a cluster of n targets
/// stripe i stands on target start + i modulo n.
#[derive(Clone, Copy, Debug, PartialEq, Eq)]
pub struct Layout {
    /// How many stripes: 0 to 16. With none the entries stand in the directory's own object.
    pub count: u8,
    /// The target of the first stripe: 0 to 15, and 0 where there is no stripe.
    pub start: u8,
    /// How often the directory was given another layout, at most 0x0ffffffe.
    pub generation: u32,
}

/// Bytes that spell no layout.
#[derive(Clone, Copy, Debug, PartialEq, Eq)]
pub struct BadValue {
    /// The place of the first byte that can't stand; for the generation that of its first byte.
    pub place: usize,
}

impl Layout {
    /// The layout's spelling: its count, its start, two zeros, and its generation, the lowest byte first.
    pub fn encode(&self) -> [u8; 8]
        ensures { result ≡ layout_text (laid self.now) }
    {
        let [a, b, c, d] = self.generation.to_le_bytes();
        [self.count, self.start, 0, 0, a, b, c, d]
    }

    /// The layout that the bytes spell.
    pub fn decode(bytes: [u8; 8]) -> Result<Layout, BadValue>
        // What is read may stand, and is spelled so.
        ensures found { IfOk result (λ l. FitsLayout (laid l) × (bytes ≡ layout_text (laid l))) }
        // What may stand and is spelled so is read.
        ensures only { (l : Layout) → FitsLayout (laid l) → bytes ≡ layout_text (laid l) → result ≡ Ok l }
        // The first byte that can't stand.
        ensures exact { result ≡ layout_in bytes }
    {
        read(bytes)
    }
}

#[tactic(auto, unfolding(crate::specs::Layouts::layout_in))]
fn read(bytes: [u8; 8]) -> Result<Layout, BadValue>
    ensures value { result ≡ layout_in bytes }
    ensures bytes { (i : ℕ) → get_or bytes i 0 < 256 }
{
    let [count, start, third, fourth, a, b, c, d] = bytes;
    let generation = u32::from_le_bytes([a, b, c, d]);
    match first_bad(count, start, third, fourth, generation) {
        None => Ok(Layout {
            count,
            start,
            generation,
        }),
        Some(place) => Err(BadValue { place }),
    }
}

/// The place of the first byte that can't stand.
fn first_bad(count: u8, start: u8, third: u8, fourth: u8, generation: u32) -> Option<usize>
    ensures { result ≡ bad_place count start third fourth generation }
{
    if count > 16 {
        Some(0)
    } else if start > 15 || (count == 0 && start != 0) {
        Some(1)
    } else if third != 0 {
        Some(2)
    } else if fourth != 0 {
        Some(3)
    } else if generation > 0x0fff_fffe {
        Some(4)
    } else {
        None
    }
}
