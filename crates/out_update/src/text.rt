ghost use Rattle.std.specs.Prelude.{◌≡◌, ◌++◌, length, codes, Option, Some, None, OnOk, OnErr};
ghost use Rattle.std.specs.Option.{option_map};
ghost use Rattle.std.specs.Fmt.{decimal};
ghost use Rattle.std.specs.List.{flat_map};
ghost use Rattle.fid_space.specs.HexText.{hex_text};
ghost use Rattle.out_update.specs.Text.{kind_word, param_line, update_lines, decoded_text, told};

use crate::fault::UpdateFault;
use crate::update::{Kind, Update, UpdateRequest};
use fid_space::{Bytes, print_hex, print_number};
use std::alloc::AllocError as Memory;

impl Kind {
    /// The name of the update type.
    pub fn word(self) -> &'static str
        ensures { result.now ≡ kind_word self }
    {
        match self {
            Kind::Create => "create",
            Kind::Destroy => "destroy",
            Kind::RefAdd => "ref_add",
            Kind::RefDel => "ref_del",
            Kind::AttrSet => "attr_set",
            Kind::AttrGet => "attr_get",
            Kind::XattrSet => "xattr_set",
            Kind::XattrGet => "xattr_get",
            Kind::Lookup => "lookup",
            Kind::Insert => "insert",
            Kind::Delete => "delete",
            Kind::XattrDel => "xattr_del",
            Kind::LayoutSet => "layout_set",
            Kind::ParentSet => "parent_set",
            Kind::Names => "names",
            Kind::Count => "count",
        }
    }
}

impl UpdateFault {
    /// The place of the refused field and the fault's name, or `None` where memory ran out.
    pub fn told(self) -> Option<(usize, &'static str)>
        ensures { option_map (λ x. (x.0, x.1.now)) result ≡ told self }
    {
        match self {
            UpdateFault::Memory => None,
            UpdateFault::BadMagic(place) => Some((place, "BadMagic")),
            UpdateFault::BadType(place) => Some((place, "BadType")),
            UpdateFault::BadCount(place) => Some((place, "BadCount")),
            UpdateFault::BadLength(place) => Some((place, "BadLength")),
            UpdateFault::BadPadding(place) => Some((place, "BadPadding")),
            UpdateFault::BadValue(place) => Some((place, "BadValue")),
            UpdateFault::TooLong(place) => Some((place, "TooLong")),
        }
    }
}

fn print_param(param: &Bytes, out: &mut Bytes) -> Result<(), Memory>
    ensures { OnOk result (out.new ≡ out.old ++ param_line param.now) }
{
    out.append(b"param ")?;
    print_hex(param.bytes(), out)?;
    out.push(b'\n')?;
    Ok(())
}

fn print_params(params: &[Bytes], out: &mut Bytes) -> Result<(), Memory>
    ensures { OnOk result (out.new ≡ out.old ++ flat_map param_line params.now) }
{
    for param in params {
        print_param(param, out)?;
    }
    Ok(())
}

fn print_update(update: &Update, out: &mut Bytes) -> Result<(), Memory>
    ensures { OnOk result (out.new ≡ out.old ++ update_lines update.now) }
{
    out.append(b"update ")?;
    out.append(update.kind.word().as_bytes())?;
    out.push(b' ')?;
    update.fid.print(out)?;
    out.append(b" batch ")?;
    print_number(update.batch, out)?;
    out.push(b'\n')?;
    print_params(update.params.inner.as_slice(), out)?;
    Ok(())
}

fn print_updates(updates: &[Update], out: &mut Bytes) -> Result<(), Memory>
    ensures { OnOk result (out.new ≡ out.old ++ flat_map update_lines updates.now) }
{
    for update in updates {
        print_update(update, out)?;
    }
    Ok(())
}

impl UpdateRequest {
    /// Adds the decoded text at the end: a line with the count, and for each update its line and those of
    /// its parameters. Want of memory adds nothing.
    #[tactic(auto, unfolding(crate::specs::Text::decoded_text))]
    pub fn print(&self, out: &mut Bytes) -> Result<(), Memory>
        ensures ok { OnOk result (out.new ≡ out.old ++ decoded_text self.now) }
        ensures err { OnErr result (out.new ≡ out.old) }
    {
        let mut text = Bytes::new(out.alloc());
        text.append(b"request ")?;
        print_number(self.inner.len() as u64, &mut text)?;
        text.push(b'\n')?;
        print_updates(self.inner.as_slice(), &mut text)?;
        out.append(text.bytes())
    }
}
