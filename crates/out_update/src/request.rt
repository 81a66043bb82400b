ghost use Rattle.std.specs.Prelude.{◌≡◌, ℕ, ◌≤◌, ◌<◌, ◌^◌, Option, Some, length, IfOk, IsTrue};
ghost use Rattle.std.specs.Int.{byte_len};
ghost use Rattle.byte_grammar.specs.Grammar.{Grammar};
ghost use Rattle.byte_grammar.specs.Grammar.Grammar.{Ends};
ghost use Rattle.byte_grammar.specs.Steps.{width_at, next_at, StepsTo};
ghost use Rattle.out_update.specs.Types.{shapes};
ghost use Rattle.out_update.specs.Bodies.{width_of};
ghost use Rattle.out_update.specs.Reading.{at_updates, at_params, at_content, at_body};
ghost use Rattle.out_update.specs.Positions.{at_position, rank_of, after, padded, fields_from, is_head, is_update_head};

use crate::body::{
    allows_number, count_after_field, kind_after_field, next_field, number_of, width_of_field,
};
use crate::kinds::{allows_batch, allows_length, kind_of, parameters_of, shapes_of, stands};
use crate::names::name_byte;
use crate::shape::{BodyField, Shape};
use crate::update::Kind;
use byte_grammar::{Reason, Refusal, number16, number32, number64, padding_of, set_byte, unless};

/// What follows a parameter: maybe a second one, and so many updates.
#[derive(Clone, Copy, Debug)]
pub struct After {
    /// The second parameter of the update, if it is still to come.
    pub second: Option<Shape>,
    /// How many updates come behind.
    pub left: u16,
}

/// The next field of a request, or of the part of a record.
#[derive(Clone, Copy, Debug)]
pub enum RequestPosition {
    /// The magic.
    Magic,
    /// The count of updates.
    Count,
    /// Two zeros.
    Reserved {
        count: u16,
    },
    /// The type of an update.
    Type {
        left: u16,
    },
    /// The count of its parameters.
    Parameters {
        kind: Kind,
        left: u16,
    },
    /// Its flags.
    Flags {
        kind: Kind,
        left: u16,
    },
    /// Its batch.
    Batch {
        kind: Kind,
        left: u16,
    },
    /// Its object.
    Fid {
        kind: Kind,
        left: u16,
    },
    /// The length of a parameter.
    Length {
        shape: Shape,
        after: After,
    },
    /// Two zeros behind it.
    ZeroTwo {
        shape: Shape,
        length: u16,
        after: After,
    },
    /// Four zeros behind them.
    ZeroFour {
        shape: Shape,
        length: u16,
        after: After,
    },
    /// A number of a body.
    Body {
        kind: u64,
        count: u64,
        field: BodyField,
        length: u16,
        after: After,
    },
    /// The bytes of a name.
    Name {
        length: u16,
        after: After,
    },
    /// Bytes of which each may stand.
    Plain {
        length: u16,
        after: After,
    },
    /// Zeros behind a parameter.
    Padding {
        length: u16,
        after: After,
    },
    /// Nothing.
    End,
}

#[tactic(auto, unfolding(crate::specs::Reading::at_updates))]
fn updates(left: u16) -> RequestPosition
    ensures grammar { (owner : Option ℕ) (next : Grammar) → at_position owner next result ≡ at_updates owner left next }
    ensures rank { rank_of result ≡ 0 }
{
    if left == 0 {
        RequestPosition::End
    } else {
        RequestPosition::Type { left: left - 1 }
    }
}

#[tactic(auto, unfolding(crate::specs::Reading::at_params))]
fn behind(a: After) -> RequestPosition
    ensures grammar { (owner : Option ℕ) (next : Grammar) → at_position owner next result ≡ after owner next a }
    ensures rank { rank_of result ≡ 0 }
{
    match a.second {
        None => updates(a.left),
        Some(shape) => RequestPosition::Length {
            shape,
            after: After {
                second: None,
                left: a.left,
            },
        },
    }
}

#[tactic(auto, using(crate::proofs::Reader::body_width), unfolding(crate::specs::Reading::request_then, crate::specs::Reading::at_count, crate::specs::Reading::at_update, crate::specs::Reading::at_head, crate::specs::Reading::at_flags, crate::specs::Reading::at_batch, crate::specs::Reading::at_fid, crate::specs::Reading::at_param, crate::specs::Reading::at_body))]
/// The width of the next field of a request alone, or `None` at its end.
pub fn width(position: RequestPosition) -> Option<usize>
    ensures { (owner : Option ℕ) → result ≡ width_at (at_position owner Ends position) }
{
    match position {
        RequestPosition::Magic => Some(4),
        RequestPosition::Count => Some(2),
        RequestPosition::Reserved { .. } => Some(2),
        RequestPosition::Type { .. } => Some(2),
        RequestPosition::Parameters { .. } => Some(2),
        RequestPosition::Flags { .. } => Some(4),
        RequestPosition::Batch { .. } => Some(8),
        RequestPosition::Fid { .. } => Some(16),
        RequestPosition::Length { .. } => Some(2),
        RequestPosition::ZeroTwo { .. } => Some(2),
        RequestPosition::ZeroFour { .. } => Some(4),
        RequestPosition::Body { field, .. } => Some(width_of_field(field)),
        RequestPosition::Name { length, .. } => Some(length as usize),
        RequestPosition::Plain { length, .. } => Some(length as usize),
        RequestPosition::Padding { length, .. } => Some(padding_of(length as u32)),
        RequestPosition::End => None,
    }
}

/// Before the first parameter.
#[tactic(auto, unfolding(crate::specs::Reading::at_params))]
fn first_parameter(kind: Kind, left: u16) -> RequestPosition
    ensures grammar { (owner : Option ℕ) (next : Grammar) → at_position owner next result ≡ at_params (shapes kind) (at_updates owner left next) }
    ensures rank { rank_of result ≡ 0 }
{
    match shapes_of(kind) {
        (None, _) => updates(left),
        (Some(shape), second) => RequestPosition::Length {
            shape,
            after: After { second, left },
        },
    }
}

/// Before the bytes of a parameter.
#[tactic(auto, unfolding(crate::specs::Reading::at_content))]
fn content(shape: Shape, length: u16, a: After) -> RequestPosition
    ensures grammar { (owner : Option ℕ) (next : Grammar) → at_position owner next result ≡ at_content shape length (padded owner next length a) }
    ensures rank { rank_of result ≤ 2 }
{
    match shape {
        Shape::Body => RequestPosition::Body {
            kind: 0,
            count: 0,
            field: BodyField::Kind,
            length,
            after: a,
        },
        Shape::Name => RequestPosition::Name { length, after: a },
        _ => RequestPosition::Plain { length, after: a },
    }
}

/// Reads a number of a body.
#[tactic(auto, unfolding(crate::specs::Reading::at_body))]
fn read_number(
    kind: u64,
    count: u64,
    field: BodyField,
    len: u16,
    a: After,
    place: usize,
    bytes: &[u8],
) -> Result<RequestPosition, Refusal>
    requires { length bytes.now ≡ byte_len (width_of field) }
    ensures steps { (owner : Option ℕ) (next : Grammar) → StepsTo (at_position owner next) result (next_at (at_body kind count (fields_from field) (padded owner next len a)) place bytes.now) }
    ensures small { IfOk result (λ p. rank_of p ≤ 1) }
{
    let number = number_of(field, bytes);
    if !allows_number(kind, count, field, number) {
        let reason = Reason::BadValue;
        return Err(Refusal { place, reason });
    }
    match next_field(field) {
        None => Ok(RequestPosition::Padding {
            length: len,
            after: a,
        }),
        Some(next) => Ok(RequestPosition::Body {
            kind: kind_after_field(kind, field, number),
            count: count_after_field(count, field, number),
            field: next,
            length: len,
            after: a,
        }),
    }
}

#[tactic(auto, unfolding(crate::specs::Reading::at_update, crate::specs::Reading::at_head, crate::specs::Reading::at_flags, crate::specs::Reading::at_batch, crate::specs::Reading::at_fid, crate::specs::Reading::at_param))]
/// Reads a field of an update in front of its parameters.
fn read_update_head(
    owner: Option<u64>,
    position: RequestPosition,
    place: usize,
    bytes: &[u8],
) -> Result<RequestPosition, Refusal>
    requires width { width_at (at_position owner Ends position) ≡ Some (length bytes.now) }
    requires head { IsTrue (is_update_head position) }
    ensures steps { (next : Grammar) → StepsTo (at_position owner next) result (next_at (at_position owner next position) place bytes.now) }
    ensures small { IfOk result (λ p. rank_of p ≡ 0) }
{
    match position {
        RequestPosition::Type { left } => match kind_of(number16(bytes)) {
            None => {
                let reason = Reason::BadType;
                Err(Refusal { place, reason })
            }
            Some(kind) => {
                if !stands(owner, kind) {
                    let reason = Reason::BadValue;
                    return Err(Refusal { place, reason });
                }
                Ok(RequestPosition::Parameters { kind, left })
            }
        },
        RequestPosition::Parameters { kind, left } => {
            if number16(bytes) != parameters_of(kind) {
                let reason = Reason::BadCount;
                return Err(Refusal { place, reason });
            }
            Ok(RequestPosition::Flags { kind, left })
        }
        RequestPosition::Flags { kind, left } => {
            if number32(bytes) != 0 {
                let reason = Reason::BadValue;
                return Err(Refusal { place, reason });
            }
            Ok(RequestPosition::Batch { kind, left })
        }
        RequestPosition::Batch { kind, left } => {
            if !allows_batch(owner, kind, number64(bytes)) {
                let reason = Reason::BadValue;
                return Err(Refusal { place, reason });
            }
            Ok(RequestPosition::Fid { kind, left })
        }
        RequestPosition::Fid { kind, left } => Ok(first_parameter(kind, left)),
        _ => unreachable!(),
    }
}

#[tactic(auto, unfolding(crate::specs::Reading::request_then, crate::specs::Reading::at_count, crate::specs::Reading::at_update, crate::specs::Reading::at_head, crate::specs::Reading::at_flags, crate::specs::Reading::at_batch, crate::specs::Reading::at_fid, crate::specs::Reading::at_param))]
/// Reads a field of a request in front of the parameters of an update, or the length of a parameter.
fn read_head(
    owner: Option<u64>,
    position: RequestPosition,
    place: usize,
    bytes: &[u8],
) -> Result<RequestPosition, Refusal>
    requires width { width_at (at_position owner Ends position) ≡ Some (length bytes.now) }
    requires head { IsTrue (is_head position) }
    ensures steps { (next : Grammar) → StepsTo (at_position owner next) result (next_at (at_position owner next position) place bytes.now) }
    ensures small { IfOk result (λ p. rank_of p ≡ 0) }
{
    match position {
        RequestPosition::Magic => {
            if number32(bytes) != 0xbdde_0001 {
                let reason = Reason::BadMagic;
                return Err(Refusal { place, reason });
            }
            Ok(RequestPosition::Count)
        }
        RequestPosition::Count => {
            let count = number16(bytes);
            if count > 128 {
                let reason = Reason::BadCount;
                return Err(Refusal { place, reason });
            }
            Ok(RequestPosition::Reserved { count })
        }
        RequestPosition::Length { shape, after } => {
            let length = number16(bytes);
            if !allows_length(shape, length) {
                let reason = Reason::BadLength;
                return Err(Refusal { place, reason });
            }
            Ok(RequestPosition::ZeroTwo {
                shape,
                length,
                after,
            })
        }
        _ => read_update_head(owner, position, place, bytes),
    }
}

#[tactic(auto, using(crate::proofs::Reader::body_width), unfolding(crate::specs::Reading::request_then, crate::specs::Reading::at_count, crate::specs::Reading::at_update, crate::specs::Reading::at_head, crate::specs::Reading::at_flags, crate::specs::Reading::at_batch, crate::specs::Reading::at_fid, crate::specs::Reading::at_param))]
/// Reads the next field of a request.
pub fn read(
    owner: Option<u64>,
    position: RequestPosition,
    place: usize,
    bytes: &[u8],
) -> Result<RequestPosition, Refusal>
    requires width { width_at (at_position owner Ends position) ≡ Some (length bytes.now) }
    requires place { place < 2 ^ 63 }
    ensures steps { (next : Grammar) → StepsTo (at_position owner next) result (next_at (at_position owner next position) place bytes.now) }
    ensures rank { IfOk result (λ p. length bytes.now ≡ 0 → rank_of p < rank_of position) }
    ensures small { IfOk result (λ p. rank_of p ≤ 2) }
{
    match position {
        RequestPosition::Reserved { count } => {
            unless(set_byte(bytes), place, Reason::BadPadding, updates(count))
        }
        RequestPosition::ZeroTwo {
            shape,
            length,
            after,
        } => unless(
            set_byte(bytes),
            place,
            Reason::BadPadding,
            RequestPosition::ZeroFour {
                shape,
                length,
                after,
            },
        ),
        RequestPosition::ZeroFour {
            shape,
            length,
            after,
        } => unless(
            set_byte(bytes),
            place,
            Reason::BadPadding,
            content(shape, length, after),
        ),
        RequestPosition::Body {
            kind,
            count,
            field,
            length,
            after,
        } => read_number(kind, count, field, length, after, place, bytes),
        RequestPosition::Name { length, after } => unless(
            name_byte(bytes),
            place,
            Reason::BadValue,
            RequestPosition::Padding { length, after },
        ),
        RequestPosition::Plain { length, after } => Ok(RequestPosition::Padding { length, after }),
        RequestPosition::Padding { after, .. } => {
            unless(set_byte(bytes), place, Reason::BadPadding, behind(after))
        }
        RequestPosition::End => unreachable!(),
        _ => read_head(owner, position, place, bytes),
    }
}
