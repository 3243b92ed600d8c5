// Mnemonic lines (change request 2): the words of an instruction as a line, and a line as words.
#![tactic(auto)]

ghost use Rattle.std.specs.Prelude.{◌≡◌};
ghost use Rattle.line.specs.Lines.{line_of, text_of, text_in, words_from, read_line, Shows};

use arrayvec::ArrayVec;
use line_operand::OperandError;
use line_operand::print::put_operand;
use line_parse::cursor::{Cursor, step};
use line_parse::number::cut;
use line_table::name::letters;
use line_table::parts::{shapes, two_words};
use line_table::{by_name, by_word};
use text::show;

// The words that a line is read as.
#[derive(Clone, Copy)]
pub enum Words {
    One(u16),
    Two(u16, u16),
}

// Why a line is refused.
#[derive(Clone, Copy, PartialEq, Eq)]
pub enum LineError {
    UnknownMnemonic,
    BadOperands,
    OutsideField,
}

impl From<OperandError> for LineError {
    ghost use Rattle.line.specs.Lines.{refusal_of};

    ghost from_gives = { λ e r. r ≡ refusal_of e };

    #[tactic(auto, unfolding(crate::specs::Lines::refusal_of))]
    fn from(e: OperandError) -> LineError {
        match e {
            OperandError::Malformed => LineError::BadOperands,
            OperandError::Outside => LineError::OutsideField,
        }
    }
}

// The line of an instruction; none where its first word begins no legal one.
pub fn line(first: u16, second: u16) -> Option<ArrayVec<u8, 40>>
    ensures { text_in result ≡ text_of (line_of first second) }
{
    let entry = by_word(first)?;
    let n = first as u64 + 65536 * (second as u64);
    let mut text = letters(entry);
    let mut sep = b' ';
    let shapes = shapes(entry);
    for shape in &shapes {
        sep = put_operand(&mut text, sep, *shape, n);
    }
    Some(text)
}

// The same at the start of `out`, whose other bytes stay; its length, which is at most 17. The array is the caller's: `twin1750_print` is lent it by C.
pub fn print(first: u16, second: u16, out: &mut [u8; 256]) -> Option<usize>
    ensures { Shows (line_of first second) out.old out.new result }
{
    let text = line(first, second)?;
    Some(show(&text, out))
}

// The words of the number that the operands came to.
#[tactic(auto, unfolding(crate::specs::Lines::words_from))]
fn words_from(two: bool, o: Result<u64, OperandError>) -> Result<Words, LineError>
    ensures { result ≡ words_from two o }
{
    let n = o?;
    let first = (n % 65536) as u16;
    if two {
        return Ok(Words::Two(first, (n / 65536 % 65536) as u16));
    }
    Ok(Words::One(first))
}

// The words of a line of any length.
pub fn read(line: &[u8]) -> Result<Words, LineError>
    ensures { result ≡ read_line line.now }
{
    let (name, operands) = cut(line, b' ');
    let entry = by_name(name).ok_or(LineError::UnknownMnemonic)?;
    let shapes = shapes(entry);
    let mut c = Cursor {
        sum: Ok(entry.base as u64),
        rest: operands,
    };
    for shape in &shapes {
        c = step(c, *shape);
    }
    if !c.rest.is_empty() {
        return Err(LineError::BadOperands);
    }
    words_from(two_words(&shapes), c.sum)
}
