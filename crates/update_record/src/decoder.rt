ghost use Rattle.std.specs.Prelude.{◌≡◌, ℕ, true, take};
ghost use Rattle.byte_grammar.specs.Grammar.{judge};
ghost use Rattle.out_update.specs.Decoding.{is_update_reason};
ghost use Rattle.update_record.specs.Decoding.{judge_record, IsFault, Decodes};
ghost use Rattle.update_record.specs.Spelling.{spells_record};

use crate::fault::RecordFault;
use crate::operation::Record;
use crate::position::{self, RecordPosition};
use crate::value::record_of;
use byte_grammar::{BuildFault, Position, Reached, Reason, Refusal, Verdict, scan};
use std::alloc::{AllocError as Memory, Global};

impl Position for RecordPosition {
    ghost use Rattle.update_record.specs.Spelling.{spells_record};
    ghost use Rattle.update_record.specs.Reading.{whole_record};
    ghost use Rattle.update_record.specs.Positions.{at_record, record_rank};
    ghost use Rattle.update_record.specs.Begins.{record_begins};

    type Value = Record;

    const LIMIT: usize = 24_576;

    ghost LIMIT = { 24576 };

    ghost grammar = { at_record };

    ghost whole = { whole_record };

    ghost spells = { spells_record };

    ghost rank = { record_rank };

    fn start() -> RecordPosition {
        RecordPosition::Magic
    }

    fn width(self) -> Option<usize> {
        position::width(self)
    }

    fn read(self, place: usize, bytes: &[u8]) -> Result<RecordPosition, Refusal> {
        position::read(self, place, bytes)
    }

    fn build(alloc: Global, bytes: &[u8]) -> Result<Record, Memory> {
        match record_of(alloc, bytes) {
            Ok((value, _)) => Ok(value),
            Err(BuildFault::Memory) => Err(Memory),
            Err(BuildFault::Short) => unreachable!(),
        }
    }

    ghost begins = { record_begins };
}

/// At most so many bytes.
fn front_of(bytes: &[u8], most: usize) -> &[u8]
    ensures { result.now ≡ take most bytes.now }
{
    if bytes.len() < most {
        bytes
    } else {
        &bytes[..most]
    }
}

/// The verdict on the bytes of a value, of which at most so many as the format allows are looked at.
pub fn verdict_on<P: Position>(bytes: &[u8]) -> Verdict
    ensures { result ≡ judge P.LIMIT P.whole 0 bytes.now }
{
    let front = front_of(bytes, P::LIMIT);
    let start = Reached {
        place: 0,
        position: P::start(),
    };
    let (_, verdict) = scan(front, start);
    verdict
}

/// The fault that a refusal is.
pub fn fault_of(refusal: Refusal) -> RecordFault
    requires { is_update_reason refusal.reason ≡ true }
    ensures { (n : ℕ) → IsFault result n (Verdict.Refused refusal) }
{
    let place = refusal.place;
    match refusal.reason {
        Reason::BadMagic => RecordFault::BadMagic(place),
        Reason::BadType => RecordFault::BadType(place),
        Reason::BadCount => RecordFault::BadCount(place),
        Reason::BadLength => RecordFault::BadLength(place),
        Reason::BadPadding => RecordFault::BadPadding(place),
        Reason::BadValue => RecordFault::BadValue(place),
        Reason::TooLong => RecordFault::TooLong(place),
        Reason::BadIndex | Reason::BadTail | Reason::BadBitmap => unreachable!(),
    }
}

impl Record {
    /// Reads the record that the bytes begin with, and how many of them it has: at most 24,576. Bytes behind
    /// it are not looked at. A fault is the first field from the left that can't stand; the length of a part
    /// is judged behind its request, and the master behind all parts.
    pub fn decode(alloc: Global, bytes: &[u8]) -> Result<(Record, usize), RecordFault>
        ensures { Decodes spells_record (judge_record bytes.now) bytes.now result }
    {
        match verdict_on::<RecordPosition>(bytes) {
            Verdict::Done(end) => match RecordPosition::build(alloc, &bytes[..end]) {
                Ok(record) => Ok((record, end)),
                Err(_) => Err(RecordFault::Memory),
            },
            Verdict::More => Err(RecordFault::Truncated(bytes.len())),
            Verdict::Refused(refusal) => Err(fault_of(refusal)),
        }
    }
}
