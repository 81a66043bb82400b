ghost use Rattle.std.specs.Prelude.{◌≡◌, ◌++◌, ◌∷◌, drop, OnOk, IfOk};
ghost use Rattle.std.specs.Fmt.{decimal};
ghost use Rattle.std.specs.List.{flat_map};
ghost use Rattle.scenario_text.specs.LineText.{after_comma, list_text, members, targets_text};

use fid_space::{Bytes, Numbers, Targets, print_number};
use std::alloc::{AllocError as Memory, Global};

/// Adds the numbers of a list with commas between them, or a dash where there is none.
pub fn print_numbers(numbers: &Numbers, out: &mut Bytes) -> Result<(), Memory>
    ensures { OnOk result (out.new ≡ out.old ++ list_text numbers.now) }
{
    match numbers.get(0) {
        None => out.append(b"-"),
        Some(first) => {
            print_number(u64::from(first), out)?;
            print_after(numbers, out)?;
            Ok(())
        }
    }
}

/// Adds all numbers but the first, each with a comma before it.
fn print_after(numbers: &Numbers, out: &mut Bytes) -> Result<(), Memory>
    ensures { OnOk result (out.new ≡ out.old ++ flat_map after_comma (drop 1 numbers.now)) }
{
    for i in 1..numbers.len() {
        match numbers.get(i) {
            Some(number) => print_next(number, out)?,
            None => return Ok(()),
        }
    }
    Ok(())
}

/// Adds a number with a comma before it.
fn print_next(number: u32, out: &mut Bytes) -> Result<(), Memory>
    ensures { OnOk result (out.new ≡ out.old ++ after_comma number) }
{
    out.push(b',')?;
    print_number(u64::from(number), out)?;
    Ok(())
}

/// Adds numbers with commas between them, or a dash where there is none.
pub fn print_list(numbers: &[u32], out: &mut Bytes) -> Result<(), Memory>
    ensures { OnOk result (out.new ≡ out.old ++ list_text numbers.now) }
{
    match numbers {
        [] => out.append(b"-"),
        [first, rest @ ..] => {
            print_number(u64::from(*first), out)?;
            print_rest(rest, out)?;
            Ok(())
        }
    }
}

fn print_rest(numbers: &[u32], out: &mut Bytes) -> Result<(), Memory>
    ensures { OnOk result (out.new ≡ out.old ++ flat_map after_comma numbers.now) }
{
    for number in numbers {
        print_next(*number, out)?;
    }
    Ok(())
}

/// Adds the members of a set, ascending.
pub fn print_targets(set: Targets, out: &mut Bytes) -> Result<(), Memory>
    ensures { OnOk result (out.new ≡ out.old ++ targets_text set) }
{
    let members = members(out.alloc(), set)?;
    print_list(members.as_slice(), out)
}

/// The members of a set, ascending.
fn members(alloc: Global, set: Targets) -> Result<Vec<u32>, Memory>
    ensures { IfOk result (λ v. v.items ≡ members set 16) }
{
    let mut members = Vec::new(alloc);
    for target in 0..16u8 {
        if set.has(target) {
            members.push(u32::from(target))?;
        }
    }
    Ok(members)
}
