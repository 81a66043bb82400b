// Laws of chains, each the contract of a call that does nothing.
ghost use Rattle.std.specs.Prelude.{◌≡◌, ℕ, List, Option, Ok};
ghost use Rattle.outside.specs.Disk.{IsImage, settles};
ghost use Rattle.chain_blocks.specs.Chains.{Linked, Holds};
ghost use Rattle.chain_blocks.specs.Walk.{heads_of, judged};
ghost use Rattle.chain_blocks.specs.Stored.{stored};

/// The bytes of a chain stand on every image of a disk that has them settled: it reads back, whatever is
/// dirty elsewhere.
pub fn a_chain_reads_back()
    ensures { (settled : List (Option ℕ)) → (image bytes : List ℕ) → (at : ℕ) → (chain : List ℕ) → stored settled at chain ≡ settles bytes → IsImage settled image → stored image at chain ≡ bytes }
{}

/// The lists that blocks hold are those that a walk finds, which begins at their heads.
pub fn the_lists_are_those_found()
    ensures { (blocks : Linked) → (free : List ℕ) → (chains : List (List ℕ)) → Holds blocks free chains → judged blocks.links (heads_of chains) blocks.free ≡ Ok (record { free = free; chains = chains }) }
{}
