// The shapes of an entry's operands, and whether one of them is in the second word.
ghost use Rattle.std.specs.Prelude.{◌≡◌};
ghost use Rattle.line_operand.specs.Shapes.{covers};
ghost use Rattle.line_table.specs.Entries.{shapes_in};

use crate::Entry;
use line_operand::fields::in_second;
use line_operand::shapes::shape_of;
use line_operand::{Place, Shape};

// The shapes of the operands; one that there is not has a shape that no text shows.
#[tactic(auto, unfolding(crate::specs::Entries::shapes_in))]
pub fn shapes(entry: Entry) -> [Shape; 3]
    ensures { result ≡ shapes_in entry }
{
    let [first, second, third] = entry.operands;
    [
        shape_of(first as u64),
        shape_of(second as u64),
        shape_of(third as u64),
    ]
}

// Whether one of some operands is in the second word.
pub fn two_words(shapes: &[Shape]) -> bool
    ensures { result ≡ covers shapes.now Place.Second }
{
    shapes.iter().any(|s| in_second(s.place))
}
