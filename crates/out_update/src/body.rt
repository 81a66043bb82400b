ghost use Rattle.std.specs.Prelude.{◌≡◌, ◌∷◌, [], length, Some, None};
ghost use Rattle.std.specs.Int.{byte_len};
ghost use Rattle.byte_grammar.specs.Numbers.{worth};
ghost use Rattle.out_update.specs.Bodies.{width_of, may_be, kind_after, count_after};
ghost use Rattle.out_update.specs.Positions.{fields_from};

use crate::shape::BodyField;
use byte_grammar::{number8, number16, number32, number64};

/// How many bytes a number of a body has.
pub fn width_of_field(field: BodyField) -> usize
    ensures { result ≡ byte_len (width_of field) }
{
    match field {
        BodyField::Count | BodyField::Start => 1,
        BodyField::Zero => 2,
        BodyField::Seq => 8,
        _ => 4,
    }
}

/// The number in these bytes.
pub fn number_of(field: BodyField, bytes: &[u8]) -> u64
    requires { length bytes.now ≡ byte_len (width_of field) }
    ensures { result ≡ worth (width_of field) bytes.now }
{
    match field {
        BodyField::Count | BodyField::Start => number8(bytes) as u64,
        BodyField::Zero => number16(bytes) as u64,
        BodyField::Seq => number64(bytes),
        _ => number32(bytes) as u64,
    }
}

/// The number that comes behind.
pub fn next_field(field: BodyField) -> Option<BodyField>
    ensures some { (f : _) → result ≡ Some f → fields_from field ≡ field ∷ fields_from f }
    ensures none { result ≡ None → fields_from field ≡ field ∷ [] }
{
    match field {
        BodyField::Kind => Some(BodyField::Mode),
        BodyField::Mode => Some(BodyField::Uid),
        BodyField::Uid => Some(BodyField::Gid),
        BodyField::Gid => Some(BodyField::Links),
        BodyField::Links => Some(BodyField::Count),
        BodyField::Count => Some(BodyField::Start),
        BodyField::Start => Some(BodyField::Zero),
        BodyField::Zero => Some(BodyField::Generation),
        BodyField::Generation => Some(BodyField::Seq),
        BodyField::Seq => Some(BodyField::Oid),
        BodyField::Oid => Some(BodyField::Ver),
        BodyField::Ver => Some(BodyField::Index),
        BodyField::Index => None,
    }
}

/// Whether a created body of this kind, whose layout has this count, may have this number.
pub fn allows_number(kind: u64, count: u64, field: BodyField, number: u64) -> bool
    ensures { result ≡ may_be kind count field number }
{
    match field {
        BodyField::Kind => 1 <= number && number <= 3,
        BodyField::Mode => {
            if kind == 3 {
                number == 0
            } else {
                number <= 0o7777
            }
        }
        BodyField::Uid | BodyField::Gid => kind != 3 || number == 0,
        BodyField::Links => {
            if kind == 1 {
                number == 1
            } else if kind == 2 {
                number == 2
            } else {
                number == 0
            }
        }
        BodyField::Count => { if kind == 2 { number <= 16 } else { number == 0 } }
        BodyField::Start => {
            if count == 0 {
                number == 0
            } else {
                number <= 15
            }
        }
        BodyField::Zero => number == 0,
        BodyField::Generation => {
            if kind == 2 {
                number <= 0x0fff_fffe
            } else {
                number == 0
            }
        }
        BodyField::Seq | BodyField::Oid | BodyField::Ver => kind != 1 || number == 0,
        BodyField::Index => { if kind == 3 { number <= 15 } else { number == 0 } }
    }
}

/// The kind of the body, as it is known behind a number.
pub fn kind_after_field(kind: u64, field: BodyField, number: u64) -> u64
    ensures { result ≡ kind_after kind field number }
{
    match field {
        BodyField::Kind => number,
        _ => kind,
    }
}

/// The count of its layout, as it is known behind a number.
pub fn count_after_field(count: u64, field: BodyField, number: u64) -> u64
    ensures { result ≡ count_after count field number }
{
    match field {
        BodyField::Count => number,
        _ => count,
    }
}
