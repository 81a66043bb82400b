//! What the bytes of a record tell, without reading it whole.

ghost use Rattle.std.specs.Prelude.{◌≡◌, Some};
ghost use Rattle.update_record.specs.declared.operation.Record.{Record};
ghost use Rattle.update_record.specs.Spelling.{FitsRecord, record_text};
ghost use Rattle.target_state.specs.Marking.{id_in};

use byte_grammar::{number32, number64};

/// The target that accepted the record which these bytes spell, and its batch there. It takes no memory.
#[tactic(auto, unfolding(crate::specs::Marking::id_in))]
pub(crate) fn id_in(payload: &[u8]) -> Option<(u32, u64)>
    ensures { result ≡ id_in payload.now }
{
    if payload.len() < 24 {
        return None;
    }
    Some((number32(&payload[8..12]), number64(&payload[16..24])))
}

/// The bytes of a record tell its master and its batch. The call does nothing: its contract is a law.
#[tactic(auto, using(crate::proofs::Ids::id_of_record))]
pub fn a_record_tells_its_master_and_batch()
    ensures { (r : Record) → FitsRecord r → id_in (record_text r) ≡ Some (r.id.master, r.id.batch) }
{}
