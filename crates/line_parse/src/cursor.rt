// Operands taken from a line one after the other.
ghost use Rattle.std.specs.Prelude.{◌≡◌, ◌+◌, ◌≤◌};
ghost use Rattle.line_operand.specs.Operands.{hidden, optional, sum_after, rest_after};
ghost use Rattle.line_parse.specs.Scans.{amount};

use crate::number::cut;
use crate::operand::{join, place, take};
use line_operand::fields::count;
use line_operand::{Kind, OperandError, Shape};

// What was read so far, and the rest of the line, which is empty or starts with a separator.
#[derive(Clone, Copy)]
pub struct Cursor<'a> {
    pub sum: Result<u64, OperandError>,
    pub rest: &'a [u8],
}

#[tactic(auto, unfolding(line_operand::specs::Operands::hidden))]
fn hidden(k: Kind) -> bool
    ensures { result ≡ hidden k }
{
    k == Kind::Unread
}

#[tactic(auto, unfolding(line_operand::specs::Operands::optional))]
fn optional(k: Kind) -> bool
    ensures { result ≡ optional k }
{
    matches!(k, Kind::Index | Kind::Unread)
}

// The next operand.
#[tactic(auto, unfolding(line_operand::specs::Operands::sum_after, line_operand::specs::Operands::rest_after, line_operand::specs::Operands::taken))]
pub fn step<'a>(c: Cursor<'a>, s: Shape) -> Cursor<'a>
    requires { amount c.sum ≤ 100000000000 }
    ensures sum { result.sum ≡ sum_after s c.entry.sum c.entry.rest.now }
    ensures rest { result.rest.now ≡ rest_after s.kind c.entry.rest.now }
    ensures small { amount result.sum ≤ amount c.entry.sum + 6553600000 }
{
    match c.rest {
        [] if optional(s.kind) => c,
        [] => Cursor {
            sum: Err(OperandError::Malformed),
            rest: c.rest,
        },
        _ if hidden(s.kind) => c,
        [_, after @ ..] => {
            let (operand, rest) = cut(after, b',');
            let o = take(operand, s.kind, s.low, count(s.place));
            Cursor {
                sum: join(c.sum, place(s.place, o)),
                rest,
            }
        }
    }
}
