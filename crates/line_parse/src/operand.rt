// One operand of each kind, and operands put together.
ghost use Rattle.std.specs.Prelude.{◌≡◌, ◌+◌, ◌≤◌};
ghost use Rattle.line_operand.specs.Operands.{marked, nonzero, negated, labelled, taken_as, placed, joined};
ghost use Rattle.line_parse.specs.Scans.{amount};

use crate::number::{number, word};
use line_operand::fields::unit;
use line_operand::{Kind, OperandError, Place};

// A number after "R".
#[tactic(auto, unfolding(line_operand::specs::Operands::marked))]
fn marked(text: &[u8], low: u64, count: u64) -> Result<u64, OperandError>
    requires { low + count ≤ 100000 }
    ensures value { result ≡ marked low count text.now }
    ensures small { amount result ≤ 100000 }
{
    match text {
        [b'R', rest @ ..] => number(rest, low, count),
        _ => Err(OperandError::Malformed),
    }
}

// The field of an index register, which is not 0.
#[tactic(auto, unfolding(line_operand::specs::Operands::nonzero))]
fn nonzero(o: Result<u64, OperandError>) -> Result<u64, OperandError>
    ensures value { result ≡ nonzero o }
    ensures small { amount result ≤ amount o }
{
    let index = o?;
    if index == 0 {
        return Err(OperandError::Malformed);
    }
    Ok(index)
}

// A number after a minus sign, in eight bits.
#[tactic(auto, unfolding(line_operand::specs::Operands::negated))]
fn negated(o: Result<u64, OperandError>) -> Result<u64, OperandError>
    ensures value { result ≡ negated o }
    ensures small { amount result ≤ 256 }
{
    let f = o?;
    if f == 0 {
        return Err(OperandError::Malformed);
    }
    Ok(256u64.saturating_sub(f))
}

// A displacement.
#[tactic(auto, unfolding(line_operand::specs::Operands::labelled))]
fn label(text: &[u8]) -> Result<u64, OperandError>
    ensures value { result ≡ labelled text.now }
    ensures small { amount result ≤ 100000 }
{
    match text {
        [b'-', rest @ ..] => negated(number(rest, 0, 129)),
        _ => number(text, 0, 128),
    }
}

// An operand of a kind, whose numbers start with low and are so many.
#[tactic(auto, unfolding(line_operand::specs::Operands::taken_as))]
pub(crate) fn take(text: &[u8], k: Kind, low: u8, count: u64) -> Result<u64, OperandError>
    requires { count ≤ 65536 }
    ensures value { result ≡ taken_as k low count text.now }
    ensures small { amount result ≤ 100000 }
{
    let from = low as u64;
    match k {
        Kind::Register => marked(text, from, count),
        Kind::Number => number(text, from, count),
        Kind::Label => label(text),
        Kind::Word => word(text),
        Kind::Index => nonzero(marked(text, from, count)),
        Kind::Unread => Err(OperandError::Malformed),
    }
}

// A field at its place.
#[tactic(auto, unfolding(line_operand::specs::Operands::placed))]
pub(crate) fn place(p: Place, o: Result<u64, OperandError>) -> Result<u64, OperandError>
    requires { amount o ≤ 100000 }
    ensures value { result ≡ placed p o }
    ensures small { amount result ≤ 6553600000 }
{
    Ok(unit(p) * o?)
}

// Two operands put together. Every caller's numbers are small.
#[tactic(auto, unfolding(line_operand::specs::Operands::joined))]
pub(crate) fn join(
    a: Result<u64, OperandError>,
    b: Result<u64, OperandError>,
) -> Result<u64, OperandError>
    requires { amount a + amount b ≤ 1000000000000 }
    ensures value { result ≡ joined a b }
    ensures small { amount result ≤ amount a + amount b }
{
    match (a, b) {
        (Ok(x), Ok(y)) => Ok(x + y),
        (Err(OperandError::Outside), Ok(_)) => Err(OperandError::Outside),
        (Ok(_), Err(OperandError::Outside)) => Err(OperandError::Outside),
        (Err(OperandError::Outside), Err(OperandError::Outside)) => Err(OperandError::Outside),
        _ => Err(OperandError::Malformed),
    }
}
