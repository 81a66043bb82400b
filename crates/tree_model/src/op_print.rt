ghost use Rattle.std.specs.Prelude.{◌≡◌, ◌++◌, ◌∷◌, [], codes, List, ℕ, OnOk};
ghost use Rattle.std.specs.Fmt.{decimal};
ghost use Rattle.fid_space.specs.FidText.{fid_text};
ghost use Rattle.tree_model.specs.Names.{name_word};
ghost use Rattle.fid_space.specs.HexText.{hex_text};
ghost use Rattle.tree_model.specs.OpText.{op_text, stripes_words};

use crate::name::Name;
use crate::op::Op;
use crate::spelling::print_name;
use fid_space::{Bytes, Fid, print_hex, print_number};
use std::alloc::AllocError as Memory;

/// Adds the text of an operation, after want of memory some of it.
pub fn print_op(op: &Op, out: &mut Bytes) -> Result<(), Memory>
    ensures { OnOk result (out.new ≡ out.old ++ op_text op.now) }
{
    match op {
        Op::Create { parent, name, fid } => print_made(b"create ", *parent, name, *fid, out),
        Op::Mkdir {
            parent,
            name,
            fid,
            stripes,
        } => {
            print_made(b"mkdir ", *parent, name, *fid, out)?;
            match *stripes {
                Some((count, index)) => print_numbers(count, index, out),
                None => Ok(()),
            }
        }
        Op::Link { parent, name, fid } => print_made(b"link ", *parent, name, *fid, out),
        Op::Unlink { parent, name } => print_named(b"unlink ", *parent, name, out),
        Op::Rmdir { parent, name } => print_named(b"rmdir ", *parent, name, out),
        Op::Rename {
            parent,
            name,
            to_parent,
            to_name,
        } => {
            print_made(b"rename ", *parent, name, *to_parent, out)?;
            out.push(b' ')?;
            print_name(to_name.bytes(), out)?;
            Ok(())
        }
        Op::SetAttr {
            fid,
            mode,
            uid,
            gid,
        } => {
            print_fid(b"setattr ", *fid, out)?;
            print_spaced(u32::from(*mode), out)?;
            print_numbers(*uid, *gid, out)?;
            Ok(())
        }
        Op::SetXattr { fid, name, value } => {
            print_named(b"setxattr ", *fid, name, out)?;
            out.push(b' ')?;
            print_hex(value.bytes(), out)?;
            Ok(())
        }
        Op::DelXattr { fid, name } => print_named(b"delxattr ", *fid, name, out),
        Op::Migrate { dir, count, index } => {
            print_fid(b"migrate ", *dir, out)?;
            print_numbers(*count, *index, out)?;
            Ok(())
        }
        Op::Lookup { parent, name } => print_named(b"lookup ", *parent, name, out),
        Op::GetAttr { fid } => print_fid(b"getattr ", *fid, out),
        Op::GetXattr { fid, name } => print_named(b"getxattr ", *fid, name, out),
    }
}

/// Adds a word with its space and a FID.
fn print_fid(word: &[u8], fid: Fid, out: &mut Bytes) -> Result<(), Memory>
    ensures { OnOk result (out.new ≡ out.old ++ (word.now ++ fid_text fid)) }
{
    out.append(word)?;
    fid.print(out)?;
    Ok(())
}

/// Adds a word with its space, a FID and a name.
fn print_named(word: &[u8], fid: Fid, name: &Name, out: &mut Bytes) -> Result<(), Memory>
    ensures { OnOk result (out.new ≡ out.old ++ (word.now ++ (fid_text fid ++ (codes " " ++ name_word name.now)))) }
{
    out.append(word)?;
    fid.print(out)?;
    out.push(b' ')?;
    print_name(name.bytes(), out)?;
    Ok(())
}

/// Adds a word with its space, a FID, a name and another FID.
fn print_made(
    word: &[u8],
    parent: Fid,
    name: &Name,
    fid: Fid,
    out: &mut Bytes,
) -> Result<(), Memory>
    ensures { OnOk result (out.new ≡ out.old ++ (word.now ++ (fid_text parent ++ (codes " " ++ (name_word name.now ++ (codes " " ++ fid_text fid)))))) }
{
    print_named(word, parent, name, out)?;
    out.push(b' ')?;
    fid.print(out)?;
    Ok(())
}

/// Adds a space and a number.
fn print_spaced(number: u32, out: &mut Bytes) -> Result<(), Memory>
    ensures { OnOk result (out.new ≡ out.old ++ (codes " " ++ decimal number)) }
{
    out.push(b' ')?;
    print_number(u64::from(number), out)?;
    Ok(())
}

/// Adds two numbers, each with a space before it.
fn print_numbers(first: u32, second: u32, out: &mut Bytes) -> Result<(), Memory>
    ensures { OnOk result (out.new ≡ out.old ++ (codes " " ++ (decimal first ++ (codes " " ++ decimal second)))) }
{
    print_spaced(first, out)?;
    print_spaced(second, out)?;
    Ok(())
}
