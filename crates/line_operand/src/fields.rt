// Fields at their places, and which operands are left out.
ghost use Rattle.std.specs.Prelude.{◌≡◌, ◌<◌, ◌≤◌};
ghost use Rattle.line_operand.specs.Shapes.{unit_of, count_of, field_of, meets};
ghost use Rattle.line_operand.specs.Operands.{omitted};

use crate::{Kind, Place};

// What one is worth at a place.
pub fn unit(p: Place) -> u64
    ensures value { result ≡ unit_of p }
    ensures some { 0 < result }
    ensures small { result ≤ 65536 }
{
    match p {
        Place::Nowhere | Place::Lower | Place::Byte => 1,
        Place::Upper => 16,
        Place::Base => 256,
        Place::Top => 1024,
        Place::Second => 65536,
    }
}

// How many numbers fit at a place.
pub fn count(p: Place) -> u64
    ensures value { result ≡ count_of p }
    ensures some { 0 < result }
    ensures small { result ≤ 65536 }
{
    match p {
        Place::Nowhere => 1,
        Place::Lower | Place::Upper => 16,
        Place::Byte => 256,
        Place::Base => 4,
        Place::Top => 64,
        Place::Second => 65536,
    }
}

// The number at a place.
#[tactic(auto, unfolding(crate::specs::Shapes::field_of))]
pub(crate) fn field(p: Place, n: u64) -> u16
    ensures { result ≡ field_of p n }
{
    (n / unit(p) % count(p)) as u16
}

// Whether a place is in the second word.
#[tactic(auto, unfolding(crate::specs::Shapes::meets))]
pub fn in_second(p: Place) -> bool
    ensures { result ≡ meets p Place.Second }
{
    p == Place::Second
}

// Whether an operand with the field f is left out.
#[tactic(auto, unfolding(crate::specs::Operands::omitted))]
pub(crate) fn omitted(k: Kind, f: u16) -> bool
    ensures { result ≡ omitted k f }
{
    match k {
        Kind::Index => f == 0,
        Kind::Unread => true,
        _ => false,
    }
}
