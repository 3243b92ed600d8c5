// The shape of each operand that the boxes of section 5 show.
ghost use Rattle.std.specs.Prelude.{◌≡◌};
ghost use Rattle.line_operand.specs.Shapes.{shape, shape_of};

use crate::{Kind, Place, Shape};

fn shape(kind: Kind, place: Place, low: u8) -> Shape
    ensures { result ≡ shape kind place low }
{
    Shape { kind, place, low }
}

// The shape of an operand by its number.
#[tactic(auto, unfolding(crate::specs::Shapes::shapes, crate::specs::Shapes::shape_of))]
pub fn shape_of(operand: u64) -> Shape
    ensures { result ≡ shape_of operand }
{
    match operand {
        1 => shape(Kind::Register, Place::Upper, 0),
        2 => shape(Kind::Register, Place::Lower, 0),
        3 => shape(Kind::Register, Place::Base, 12),
        4 => shape(Kind::Index, Place::Lower, 0),
        5 => shape(Kind::Number, Place::Upper, 0),
        6 => shape(Kind::Number, Place::Upper, 1),
        7 => shape(Kind::Number, Place::Lower, 0),
        8 => shape(Kind::Number, Place::Lower, 1),
        9 => shape(Kind::Number, Place::Byte, 0),
        10 => shape(Kind::Label, Place::Byte, 0),
        11 => shape(Kind::Word, Place::Second, 0),
        12 => shape(Kind::Unread, Place::Upper, 0),
        13 => shape(Kind::Unread, Place::Lower, 0),
        _ => shape(Kind::Unread, Place::Nowhere, 0),
    }
}
