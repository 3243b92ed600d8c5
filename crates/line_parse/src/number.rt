// Decimal and hexadecimal numbers, and a text cut at a byte.
ghost use Rattle.std.specs.Prelude.{◌≡◌, ◌+◌, ◌≤◌, ◌==◌};
ghost use Rattle.std.specs.List.{position};
ghost use Rattle.line_operand.specs.Numerals.{plain, before, onward};
ghost use Rattle.line_operand.specs.Operands.{ranged, worded};
ghost use Rattle.line_parse.specs.Scans.{capped, scanned, amount};

use line_operand::OperandError;

// The place of the first byte b of a text.
fn find(text: &[u8], b: u8) -> Option<usize>
    ensures { result ≡ position (λ x. x == b) text.now }
{
    text.iter().position(|x| *x == b)
}

// A text cut before the first byte b, at its end where there is none.
pub fn cut(text: &[u8], b: u8) -> (&[u8], &[u8])
    ensures head { result.0.now ≡ before b text.now }
    ensures rest { result.1.now ≡ onward b text.now }
{
    text.split_at(find(text, b).unwrap_or(text.len()))
}

#[tactic(auto, unfolding(crate::specs::Scans::capped))]
fn cap(v: u64) -> u64
    ensures value { result ≡ capped v }
    ensures small { result ≤ 100000 }
{
    v.min(100000)
}

// The number of a text of digits, of any length; none where a byte is no digit.
fn scan(text: &[u8]) -> Option<u64>
    ensures { result ≡ scanned text.now }
{
    let mut v = 0;
    for b in text {
        if !b.is_ascii_digit() {
            return None;
        }
        v = cap(10 * v + (*b - b'0') as u64);
    }
    Some(v)
}

// Whether a text is neither empty nor starts with a needless zero.
#[tactic(auto, unfolding(line_operand::specs::Numerals::plain))]
fn plain(text: &[u8]) -> bool
    ensures { result ≡ plain text.now }
{
    match text {
        [] => false,
        [b'0', rest @ ..] => rest.is_empty(),
        _ => true,
    }
}

// A number from low on, of count numbers, less low. Every caller's range ends below 100,000.
pub(crate) fn number(text: &[u8], low: u64, count: u64) -> Result<u64, OperandError>
    requires { low + count ≤ 100000 }
    ensures value { result ≡ ranged low count text.now }
    ensures small { amount result ≤ 100000 }
{
    if !plain(text) {
        return Err(OperandError::Malformed);
    }
    let v = scan(text).ok_or(OperandError::Malformed)?;
    if v < low || low + count <= v {
        return Err(OperandError::Outside);
    }
    Ok(v - low)
}

// A word of four hexadecimal digits.
#[tactic(auto, unfolding(line_operand::specs::Operands::worded, line_operand::specs::Operands::word_in))]
pub(crate) fn word(text: &[u8]) -> Result<u64, OperandError>
    ensures value { result ≡ worded text.now }
    ensures small { amount result ≤ 100000 }
{
    match text {
        [a, b, c, d] => match text::read::word(*a, *b, *c, *d) {
            Some(w) => Ok(w as u64),
            None => Err(OperandError::Malformed),
        },
        _ => Err(OperandError::Malformed),
    }
}
