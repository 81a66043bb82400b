ghost use Rattle.std.specs.Prelude.{◌≡◌, ◌<◌, [], length, IfOk, IfSome, IsErrOf};
ghost use Rattle.std.specs.Option.{option_map};
ghost use Rattle.byte_grammar.specs.Values.{Gives};
ghost use Rattle.out_update.specs.Names.{name_fault, first_bad};
ghost use Rattle.plan_base.specs.Listed.{is_name, entry_value, next_entry, entries_from, listed_in, rising, rise_to_end};

use crate::entry_list::EntryList;
use crate::parsing::fid_at;
use byte_grammar::{BuildFault, part, u16_at};
use fid_space::Fid;
use out_update::UpdateResult;
use std::alloc::{AllocError as Memory, Global};
use tree_model::{Name, NameFault};

/// The place of the first byte that a name can't have.
fn name_fault(bytes: &[u8]) -> Option<usize>
    ensures value { result ≡ name_fault bytes.now }
    ensures below { IfSome result (λ i. i < length bytes.now) }
{
    match bytes {
        [b'.'] | [b'.', b'.'] => Some(0),
        _ => first_bad(bytes),
    }
}

fn first_bad(bytes: &[u8]) -> Option<usize>
    ensures value { result ≡ first_bad bytes.now }
    ensures below { IfSome result (λ i. i < length bytes.now) }
{
    for (i, byte) in bytes.iter().enumerate() {
        if *byte == 0 || *byte == b'/' {
            return Some(i);
        }
    }
    None
}

/// Whether bytes may be a name.
fn is_name(bytes: &[u8]) -> bool
    ensures { result ≡ is_name bytes.now }
{
    1 <= bytes.len() && bytes.len() <= 255 && name_fault(bytes).is_none()
}

/// The length of a name, so many bytes, and a FID; and the bytes behind them.
#[tactic(auto, unfolding(crate::specs::Listed::entry_value))]
fn entry_at(bytes: &[u8]) -> Result<((&[u8], Fid), &[u8]), BuildFault>
    ensures value { Gives (λ x. ((x.0.0.now, x.0.1), x.1.now)) result (entry_value bytes.now) }
    ensures free { IsErrOf result BuildFault.Memory → ⊥ }
{
    let (size, rest) = u16_at(bytes)?;
    let (name, rest) = part(usize::from(size), rest)?;
    let (fid, rest) = fid_at(rest)?;
    Ok(((name, fid), rest))
}

/// The entry in the first bytes, and those behind it.
#[tactic(auto, unfolding(crate::specs::Listed::next_entry))]
fn next_entry(bytes: &[u8]) -> Option<((&[u8], Fid), &[u8])>
    ensures { option_map (λ x. ((x.0.0.now, x.0.1), x.1.now)) result ≡ next_entry bytes.now }
{
    match entry_at(bytes) {
        Ok(((name, child), rest)) if is_name(name) => Some(((name, child), rest)),
        _ => None,
    }
}

/// The name with these bytes, which are one.
fn named(alloc: Global, bytes: &[u8]) -> Result<Name, Memory>
    ensures { IfOk result (λ n. n ≡ bytes.now) }
{
    match Name::new(alloc, bytes) {
        Ok(name) => Ok(name),
        Err(NameFault::BadName | NameFault::Memory) => Err(Memory),
    }
}

/// The first 33 entries.
fn entries_in(alloc: Global, bytes: &[u8]) -> Result<EntryList, Memory>
    ensures { IfOk result (λ l. l ≡ entries_from 33 bytes.now) }
{
    let mut entries = EntryList::new(alloc);
    let mut rest = bytes;
    for _read in 0..33_usize {
        let Some(((name, child), behind)) = next_entry(rest) else {
            return Ok(entries);
        };
        entries.push(named(alloc, name)?, child)?;
        rest = behind;
    }
    Ok(entries)
}

/// The entries of a part that a result tells of; an error tells of none.
pub(crate) fn listed_in(alloc: Global, fact: &UpdateResult) -> Result<EntryList, Memory>
    ensures { IfOk result (λ l. l ≡ listed_in fact.now) }
{
    if fact.code != 0 {
        return Ok(EntryList::new(alloc));
    }
    entries_in(alloc, fact.body.bytes())
}

/// The name of the entry in the first bytes, where it is above the last one, and the bytes behind it.
fn rising<'a>(last: &[u8], bytes: &'a [u8]) -> Option<(&'a [u8], &'a [u8])>
    ensures { option_map (λ x. (x.0.now, x.1.now)) result ≡ rising last.now (next_entry bytes.now) }
{
    match next_entry(bytes) {
        Some(((name, _), rest)) if last.cmp(name).is_lt() => Some((name, rest)),
        _ => None,
    }
}

/// Whether bytes are at most 33 entries by rising names.
pub(crate) fn rise_to_end(bytes: &[u8]) -> bool
    ensures { result ≡ rise_to_end 33 [] bytes.now }
{
    let mut last: &[u8] = b"".as_slice();
    let mut rest = bytes;
    for _read in 0..33_usize {
        if rest.len() == 0 {
            return true;
        }
        let Some((name, behind)) = rising(last, rest) else {
            return false;
        };
        last = name;
        rest = behind;
    }
    rest.len() == 0
}
