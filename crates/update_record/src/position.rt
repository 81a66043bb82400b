ghost use Rattle.std.specs.Prelude.{◌≡◌, ◌≤◌, ◌<◌, ◌+◌, Some, length, IfOk, IsTrue};
ghost use Rattle.byte_grammar.specs.Steps.{width_at, next_at, StepsTo};
ghost use Rattle.out_update.specs.Positions.{at_position, rank_of};
ghost use Rattle.update_record.specs.Reading.{length_was};
ghost use Rattle.update_record.specs.Positions.{at_record, record_rank, parts_behind, is_front, is_long, is_back};

use crate::codes::is_answer_code;
use byte_grammar::{Reason, Refusal, number32, number64, set_byte, unless};
use out_update::request::{self, RequestPosition};

/// The parts that are still to come, and what they hang on.
#[derive(Clone, Copy, Debug)]
pub struct Behind {
    /// The record's master.
    pub master: u32,
    /// The record's batch.
    pub batch: u64,
    /// How many parts come.
    pub left: u32,
    /// The least target that may come.
    pub least: u32,
    /// Whether one of the parts before was the master's.
    pub found: bool,
}

/// The next field of a record.
#[derive(Clone, Copy, Debug)]
pub enum RecordPosition {
    /// The magic.
    Magic,
    /// The epoch.
    Epoch,
    /// The master.
    Master,
    /// The number of the request.
    Number {
        master: u32,
    },
    /// The batch.
    Batch {
        master: u32,
    },
    /// The stamp.
    Stamp {
        master: u32,
        batch: u64,
    },
    /// The client.
    Client {
        master: u32,
        batch: u64,
    },
    /// The code of the reply.
    Code {
        master: u32,
        batch: u64,
    },
    /// The count of parts.
    Count {
        master: u32,
        batch: u64,
    },
    /// Four zeros.
    Reserved {
        behind: Behind,
    },
    /// The target of a part, or behind the last the check of the master.
    Parts {
        behind: Behind,
    },
    /// The length of a part's request.
    Length {
        behind: Behind,
    },
    /// A field of the request, or behind it the check of its length.
    Request {
        field: u32,
        length: u32,
        behind: Behind,
        request: RequestPosition,
    },
    /// Nothing.
    End,
}

/// The width of the next field of a record, or `None` at its end.
#[tactic(auto, using(crate::proofs::Reader::inner_width), unfolding(crate::specs::Reading::whole_record, crate::specs::Reading::at_epoch, crate::specs::Reading::at_master, crate::specs::Reading::at_number, crate::specs::Reading::at_batch, crate::specs::Reading::at_stamp, crate::specs::Reading::at_client, crate::specs::Reading::at_code, crate::specs::Reading::at_count, crate::specs::Reading::at_parts, crate::specs::Reading::at_end, crate::specs::Reading::at_length))]
pub fn width(position: RecordPosition) -> Option<usize>
    ensures { result ≡ width_at (at_record position) }
{
    match position {
        RecordPosition::Batch { .. } | RecordPosition::Stamp { .. } => Some(8),
        RecordPosition::Parts { behind } if behind.left == 0 => Some(0),
        RecordPosition::Request { request, .. } => match request::width(request) {
            None => Some(0),
            Some(width) => Some(width),
        },
        RecordPosition::End => None,
        _ => Some(4),
    }
}

/// Reads the magic, the epoch, the master or the number.
#[tactic(auto, unfolding(crate::specs::Reading::whole_record, crate::specs::Reading::at_epoch, crate::specs::Reading::at_master, crate::specs::Reading::at_number))]
fn read_front(
    position: RecordPosition,
    place: usize,
    bytes: &[u8],
) -> Result<RecordPosition, Refusal>
    requires width { length bytes.now ≡ 4 }
    requires front { IsTrue (is_front position) }
    ensures steps { StepsTo at_record result (next_at (at_record position) place bytes.now) }
    ensures small { IfOk result (λ p. record_rank p ≡ 0) }
{
    let number = number32(bytes);
    let reason = Reason::BadValue;
    match position {
        RecordPosition::Magic => {
            if number != 0x3144_5055 {
                let reason = Reason::BadMagic;
                return Err(Refusal { place, reason });
            }
            Ok(RecordPosition::Epoch)
        }
        RecordPosition::Epoch => {
            if number == 0 {
                return Err(Refusal { place, reason });
            }
            Ok(RecordPosition::Master)
        }
        RecordPosition::Master => {
            if number > 15 {
                return Err(Refusal { place, reason });
            }
            Ok(RecordPosition::Number { master: number })
        }
        RecordPosition::Number { master } => {
            if number == 0 || number > 65_536 {
                return Err(Refusal { place, reason });
            }
            Ok(RecordPosition::Batch { master })
        }
        _ => unreachable!(),
    }
}

/// Reads the batch or the stamp.
#[tactic(auto, unfolding(crate::specs::Reading::at_batch, crate::specs::Reading::at_stamp))]
fn read_long(
    position: RecordPosition,
    place: usize,
    bytes: &[u8],
) -> Result<RecordPosition, Refusal>
    requires width { length bytes.now ≡ 8 }
    requires long { IsTrue (is_long position) }
    ensures steps { StepsTo at_record result (next_at (at_record position) place bytes.now) }
    ensures small { IfOk result (λ p. record_rank p ≡ 0) }
{
    let number = number64(bytes);
    if number == 0 {
        let reason = Reason::BadValue;
        return Err(Refusal { place, reason });
    }
    match position {
        RecordPosition::Batch { master } => Ok(RecordPosition::Stamp {
            master,
            batch: number,
        }),
        RecordPosition::Stamp { master, batch } => Ok(RecordPosition::Client { master, batch }),
        _ => unreachable!(),
    }
}

/// Reads the client, the code or the count of parts.
#[tactic(auto, unfolding(crate::specs::Reading::at_client, crate::specs::Reading::at_code, crate::specs::Reading::at_count))]
fn read_back(
    position: RecordPosition,
    place: usize,
    bytes: &[u8],
) -> Result<RecordPosition, Refusal>
    requires width { length bytes.now ≡ 4 }
    requires back { IsTrue (is_back position) }
    ensures steps { StepsTo at_record result (next_at (at_record position) place bytes.now) }
    ensures small { IfOk result (λ p. record_rank p ≡ 0) }
{
    let number = number32(bytes);
    match position {
        RecordPosition::Client { master, batch } => {
            if number > 63 {
                let reason = Reason::BadValue;
                return Err(Refusal { place, reason });
            }
            Ok(RecordPosition::Code { master, batch })
        }
        RecordPosition::Code { master, batch } => {
            if !is_answer_code(number) {
                let reason = Reason::BadValue;
                return Err(Refusal { place, reason });
            }
            Ok(RecordPosition::Count { master, batch })
        }
        RecordPosition::Count { master, batch } => {
            if number == 0 || number > 16 {
                let reason = Reason::BadCount;
                return Err(Refusal { place, reason });
            }
            Ok(RecordPosition::Reserved {
                behind: Behind {
                    master,
                    batch,
                    left: number,
                    least: 0,
                    found: false,
                },
            })
        }
        _ => unreachable!(),
    }
}

/// Reads the target of a part, or behind the last judges the master.
#[tactic(auto, unfolding(crate::specs::Reading::at_parts, crate::specs::Reading::at_end))]
fn read_target(behind: Behind, place: usize, bytes: &[u8]) -> Result<RecordPosition, Refusal>
    requires width { width_at (parts_behind behind) ≡ Some (length bytes.now) }
    ensures steps { StepsTo at_record result (next_at (parts_behind behind) place bytes.now) }
    ensures small { IfOk result (λ p. record_rank p ≡ 0) }
{
    if behind.left == 0 {
        if !behind.found {
            let (place, reason) = (8, Reason::BadValue);
            return Err(Refusal { place, reason });
        }
        return Ok(RecordPosition::End);
    }
    let target = number32(bytes);
    if target < behind.least || target > 15 {
        let reason = Reason::BadValue;
        return Err(Refusal { place, reason });
    }
    Ok(RecordPosition::Length {
        behind: Behind {
            master: behind.master,
            batch: behind.batch,
            left: behind.left - 1,
            least: target + 1,
            found: behind.found || target == behind.master,
        },
    })
}

/// Reads a field of a part's request, or behind it judges its length.
#[tactic(auto, using(crate::proofs::Reader::inner_width), unfolding(crate::specs::Reading::length_was))]
fn read_request(
    field: u32,
    len: u32,
    behind: Behind,
    request: RequestPosition,
    place: usize,
    bytes: &[u8],
) -> Result<RecordPosition, Refusal>
    requires width { width_at (at_position (Some behind.batch) (length_was field len (parts_behind behind)) request) ≡ Some (length bytes.now) }
    requires place { place ≤ 24576 }
    ensures steps { StepsTo at_record result (next_at (at_position (Some behind.batch) (length_was field len (parts_behind behind)) request) place bytes.now) }
    ensures rank { IfOk result (λ p. length bytes.now ≡ 0 → record_rank p < 2 + rank_of request) }
    ensures small { IfOk result (λ p. record_rank p ≤ 4) }
{
    match request {
        RequestPosition::End => {
            if place != field as usize + 4 + len as usize {
                let (place, reason) = (field as usize, Reason::BadLength);
                return Err(Refusal { place, reason });
            }
            Ok(RecordPosition::Parts { behind })
        }
        _ => {
            let request = request::read(Some(behind.batch), request, place, bytes)?;
            Ok(RecordPosition::Request {
                field,
                length: len,
                behind,
                request,
            })
        }
    }
}

/// Reads the next field of a record.
#[tactic(auto, unfolding(crate::specs::Reading::at_length, crate::specs::Reading::whole_record, crate::specs::Reading::at_epoch, crate::specs::Reading::at_master, crate::specs::Reading::at_number, crate::specs::Reading::at_batch, crate::specs::Reading::at_stamp, crate::specs::Reading::at_client, crate::specs::Reading::at_code, crate::specs::Reading::at_count))]
pub fn read(position: RecordPosition, place: usize, bytes: &[u8]) -> Result<RecordPosition, Refusal>
    requires width { width_at (at_record position) ≡ Some (length bytes.now) }
    requires place { place ≤ 24576 }
    ensures steps { StepsTo at_record result (next_at (at_record position) place bytes.now) }
    ensures rank { IfOk result (λ p. length bytes.now ≡ 0 → record_rank p < record_rank position) }
    ensures small { IfOk result (λ p. record_rank p ≤ 4) }
{
    match position {
        RecordPosition::Magic
        | RecordPosition::Epoch
        | RecordPosition::Master
        | RecordPosition::Number { .. } => read_front(position, place, bytes),
        RecordPosition::Batch { .. } | RecordPosition::Stamp { .. } => {
            read_long(position, place, bytes)
        }
        RecordPosition::Client { .. }
        | RecordPosition::Code { .. }
        | RecordPosition::Count { .. } => read_back(position, place, bytes),
        RecordPosition::Reserved { behind } => unless(
            set_byte(bytes),
            place,
            Reason::BadPadding,
            RecordPosition::Parts { behind },
        ),
        RecordPosition::Parts { behind } => read_target(behind, place, bytes),
        RecordPosition::Length { behind } => Ok(RecordPosition::Request {
            field: place as u32,
            length: number32(bytes),
            behind,
            request: RequestPosition::Magic,
        }),
        RecordPosition::Request {
            field,
            length,
            behind,
            request,
        } => read_request(field, length, behind, request, place, bytes),
        RecordPosition::End => unreachable!(),
    }
}
