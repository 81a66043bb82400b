ghost use Rattle.std.specs.Prelude.{◌≡◌, ◌∷◌, [], length, Option, Some, None};
ghost use Rattle.out_update.specs.Types.{code_of, kind_at, shapes, allows, may_stand, batch_fits};
ghost use Rattle.out_update.specs.Positions.{as_list};

use crate::shape::Shape;
use crate::update::Kind;

/// The update type with a number.
#[tactic(auto, unfolding(crate::specs::Types::kind_at))]
pub fn kind_of(number: u16) -> Option<Kind>
    ensures { result ≡ kind_at number }
{
    match number {
        1 => Some(Kind::Create),
        2 => Some(Kind::Destroy),
        3 => Some(Kind::RefAdd),
        4 => Some(Kind::RefDel),
        5 => Some(Kind::AttrSet),
        6 => Some(Kind::AttrGet),
        7 => Some(Kind::XattrSet),
        8 => Some(Kind::XattrGet),
        9 => Some(Kind::Lookup),
        10 => Some(Kind::Insert),
        11 => Some(Kind::Delete),
        13 => Some(Kind::XattrDel),
        32 => Some(Kind::LayoutSet),
        33 => Some(Kind::ParentSet),
        34 => Some(Kind::Names),
        35 => Some(Kind::Count),
        _ => None,
    }
}

/// The number of an update type.
pub fn number_of_kind(kind: Kind) -> u16
    ensures { result ≡ code_of kind }
{
    match kind {
        Kind::Create => 1,
        Kind::Destroy => 2,
        Kind::RefAdd => 3,
        Kind::RefDel => 4,
        Kind::AttrSet => 5,
        Kind::AttrGet => 6,
        Kind::XattrSet => 7,
        Kind::XattrGet => 8,
        Kind::Lookup => 9,
        Kind::Insert => 10,
        Kind::Delete => 11,
        Kind::XattrDel => 13,
        Kind::LayoutSet => 32,
        Kind::ParentSet => 33,
        Kind::Names => 34,
        Kind::Count => 35,
    }
}

/// The first parameter of an update type, and the second.
pub fn shapes_of(kind: Kind) -> (Option<Shape>, Option<Shape>)
    ensures first { result.0 ≡ None → shapes kind ≡ [] }
    ensures all { (s : _) → result.0 ≡ Some s → shapes kind ≡ s ∷ as_list result.1 }
{
    match kind {
        Kind::Create => (Some(Shape::Body), None),
        Kind::AttrSet => (Some(Shape::Attributes), None),
        Kind::XattrSet => (Some(Shape::Name), Some(Shape::Value)),
        Kind::Insert => (Some(Shape::Name), Some(Shape::Fid)),
        Kind::XattrGet | Kind::Lookup | Kind::Delete | Kind::XattrDel => (Some(Shape::Name), None),
        Kind::LayoutSet => (Some(Shape::Layout), None),
        Kind::ParentSet => (Some(Shape::Fid), None),
        Kind::Destroy | Kind::RefAdd | Kind::RefDel | Kind::AttrGet | Kind::Names | Kind::Count => (
            None, None,
        ),
    }
}

/// How many parameters an update type has.
pub fn parameters_of(kind: Kind) -> u16
    ensures { result ≡ length (shapes kind) }
{
    match shapes_of(kind) {
        (None, _) => 0,
        (Some(_), None) => 1,
        (Some(_), Some(_)) => 2,
    }
}

/// Whether a parameter may be so long.
pub fn allows_length(shape: Shape, length: u16) -> bool
    ensures { result ≡ allows shape length }
{
    match shape {
        Shape::Body => length == 48,
        Shape::Attributes => length == 12,
        Shape::Name => 1 <= length && length <= 255,
        Shape::Value => length <= 4096,
        Shape::Fid => length == 16,
        Shape::Layout => length == 8,
    }
}

/// Whether an update of this type may stand in a request, or in a part of the record with this batch.
pub fn stands(owner: Option<u64>, kind: Kind) -> bool
    ensures { result ≡ may_stand owner kind }
{
    match owner {
        None => true,
        Some(_) => !kind.is_read(),
    }
}

/// Whether an update of this type may have this batch there.
pub fn allows_batch(owner: Option<u64>, kind: Kind, batch: u64) -> bool
    ensures { result ≡ batch_fits owner kind batch }
{
    match owner {
        None if kind.is_read() => batch == 0,
        None => 1 <= batch,
        Some(expected) => batch == expected,
    }
}
