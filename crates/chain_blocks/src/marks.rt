// Marks of the blocks that a walk along links has met.
ghost use Rattle.std.specs.Prelude.{◌≡◌, ◌≢◌, ◌<◌, ◌≤◌, ◌+◌, ℕ, List, [], length, slice_index_or, IfOk, OnOk};
ghost use Rattle.chain_blocks.specs.Chains.{last_link, times};
ghost use Rattle.chain_blocks.specs.Marks.{Chains, Heads, Loses, Marked, Meets, unmarked};

use crate::blocks::{ChainFault, LAST};
use std::alloc::{AllocError as Memory, Global};

/// So many marks, none of them set.
pub fn no_marks(alloc: Global, len: usize) -> Result<Vec<usize>, Memory>
    ensures len { IfOk result (λ v. length v.items ≡ len) }
    ensures unset { IfOk result (λ v. (k : ℕ) → slice_index_or v.items k 0 ≡ 0) }
{
    vec![in alloc; 0; len]
}

/// Marks a block that is met first.
fn meet(marks: &mut Vec<usize>, mark: usize, block: u32) -> Result<(), ChainFault>
    requires { 1 ≤ mark }
    ensures len { length marks.new.items ≡ length marks.old.items }
    ensures fewer { OnOk result (unmarked marks.new.items + 1 ≡ unmarked marks.old.items) }
    ensures inside { OnOk result (block < length marks.old.items) }
    ensures meets { (seen : List ℕ) → (here : List ℕ) → Marked marks.old.items mark seen here → Meets marks.old.items marks.new.items mark block result seen here }
{
    let at = block as usize;
    if at >= marks.len() {
        return Err(ChainFault::OutOfRange(block));
    }
    let before = marks[at];
    if before == mark {
        return Err(ChainFault::Loop(block));
    }
    if before != 0 {
        return Err(ChainFault::Shared(block));
    }
    marks[at] = mark;
    Ok(())
}

/// Walks a chain, and answers how many blocks it has.
pub fn mark_chain(
    links: &[u32],
    marks: &mut Vec<usize>,
    mark: usize,
    head: u32,
) -> Result<u32, ChainFault>
    requires positive { 1 ≤ mark }
    requires same { length marks.old.items ≡ length links.now }
    requires few { length links.now ≤ last_link }
    ensures len { length marks.new.items ≡ length marks.old.items }
    ensures chains { (seen : List ℕ) → Marked marks.old.items mark seen [] → Chains links.now marks.new.items mark head result seen }
{
    let mut block = head;
    let mut count = 0;
    while block != LAST {
        match meet(marks, mark, block) {
            Ok(()) => {}
            Err(fault) => return Err(fault),
        }
        block = links[block as usize];
        count += 1;
    }
    Ok(count)
}

/// Walks the chains of the heads.
pub fn mark_heads(links: &[u32], marks: &mut Vec<usize>, heads: &[u32]) -> Result<(), ChainFault>
    requires same { length marks.old.items ≡ length links.now }
    requires few { length links.now ≤ last_link }
    requires unset { (k : ℕ) → slice_index_or marks.old.items k 0 ≡ 0 }
    ensures len { length marks.new.items ≡ length marks.old.items }
    ensures heads { Heads links.now heads.now marks.new.items result }
{
    for i in 0..heads.len() {
        if heads[i] == LAST {
            return Err(ChainFault::OutOfRange(LAST));
        }
        match mark_chain(links, marks, i + 1, heads[i]) {
            Ok(_) => {}
            Err(fault) => return Err(fault),
        }
    }
    Ok(())
}

/// Looks for the first block without a mark.
pub fn find_lost(marks: &Vec<usize>) -> Result<(), ChainFault>
    requires { length marks.now.items ≤ last_link }
    ensures { (blocks : List ℕ) → ((k : ℕ) → slice_index_or marks.now.items k 0 ≡ 0 → times k blocks ≡ 0) → ((k : ℕ) → slice_index_or marks.now.items k 0 ≢ 0 → times k blocks ≡ 1) → Loses marks.now.items result blocks }
{
    for block in 0..marks.len() {
        if marks[block] == 0 {
            return Err(ChainFault::Lost(block as u32));
        }
    }
    Ok(())
}
