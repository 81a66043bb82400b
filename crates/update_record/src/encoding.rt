ghost use Rattle.std.specs.Prelude.{◌≡◌, ◌++◌, OnOk, OnErr, All};
ghost use Rattle.out_update.specs.Spelling.{FitsRequest};
ghost use Rattle.update_record.specs.Spelling.{front_text, middle_text, part_text, parts_text, record_text, FitsRecord};

use crate::codes::code_of_answer;
use crate::operation::Record;
use byte_grammar::{put_zeros, put32, put64};
use fid_space::Bytes;
use out_update::UpdateRequest;
use std::alloc::{AllocError as Memory, Global};

fn put_part(out: &mut Vec<u8>, alloc: Global, part: &(u8, UpdateRequest)) -> Result<(), Memory>
    requires { FitsRequest part.now.1 }
    ensures { OnOk result (out.new.items ≡ out.old.items ++ part_text part.now) }
{
    let mut request = Bytes::new(alloc);
    part.1.encode(&mut request)?;
    put32(out, part.0 as u32)?;
    put32(out, request.len() as u32)?;
    out.extend_from_slice(request.bytes())?;
    Ok(())
}

#[tactic(auto, unfolding(crate::specs::Spelling::parts_text))]
fn put_parts(out: &mut Vec<u8>, alloc: Global, parts: &[(u8, UpdateRequest)]) -> Result<(), Memory>
    requires { All (λ part. FitsRequest part.1) parts.now }
    ensures { OnOk result (out.new.items ≡ out.old.items ++ parts_text parts.now) }
{
    for part in parts {
        put_part(out, alloc, part)?;
    }
    Ok(())
}

fn put_front(out: &mut Vec<u8>, entry: &Record) -> Result<(), Memory>
    ensures { OnOk result (out.new.items ≡ out.old.items ++ front_text entry.now) }
{
    put32(out, 0x3144_5055)?;
    put32(out, entry.id.epoch)?;
    put32(out, entry.id.master as u32)?;
    put32(out, entry.number)?;
    put64(out, entry.id.batch)?;
    Ok(())
}

fn put_middle(out: &mut Vec<u8>, entry: &Record) -> Result<(), Memory>
    requires { FitsRecord entry.now }
    ensures { OnOk result (out.new.items ≡ out.old.items ++ middle_text entry.now) }
{
    put64(out, entry.stamp)?;
    put32(out, entry.client as u32)?;
    put32(out, code_of_answer(&entry.reply))?;
    put32(out, entry.parts.len() as u32)?;
    put_zeros(out, 4)?;
    Ok(())
}

impl Record {
    /// Adds the record's spelling at the end. Want of memory adds nothing.
    pub fn encode(&self, out: &mut Bytes) -> Result<(), Memory>
        requires { FitsRecord self.now }
        ensures ok { OnOk result (out.new ≡ out.old ++ record_text self.now) }
        ensures err { OnErr result (out.new ≡ out.old) }
    {
        let alloc = out.alloc();
        let mut text = Vec::new(alloc);
        put_front(&mut text, self)?;
        put_middle(&mut text, self)?;
        put_parts(&mut text, alloc, self.parts.items())?;
        out.append(&text)
    }
}
