// An input line read: a kind letter, a number and a word, both in four hexadecimal digits, with one blank before each.
ghost use Rattle.std.specs.Prelude.{◌≡◌, ◌≤◌};
ghost use Rattle.test_case_line.specs.Lines.{limit_of, line_of};

use crate::kind::{Kind, Lent};
use crate::{Entry, Malformed};
use text::read::word;

// The largest word of an entry: a length is at most the words that there are.
fn limit(kind: Kind, number: u16) -> u16
    ensures { result ≡ limit_of kind number }
{
    match kind {
        Kind::Length => Lent::of(number).words(),
        _ => 65535,
    }
}

// A line of which no more than twelve bytes are looked at: an entry, none for a remark, or the error.
#[tactic(auto, unfolding(crate::specs::Lines::line_of, crate::specs::Lines::entry_by, crate::specs::Lines::entry_of))]
pub fn read(line: &[u8]) -> Result<Option<Entry>, Malformed>
    ensures { result ≡ line_of line.now }
{
    if line.len() == 0 {
        return Err(Malformed);
    }
    if line[0] == b'#' {
        return Ok(None);
    }
    if line.len() != 11 {
        return Err(Malformed);
    }
    if line[1] != b' ' {
        return Err(Malformed);
    }
    if line[6] != b' ' {
        return Err(Malformed);
    }
    let kind = Kind::try_from(line[0])?;
    let Some(number) = word(line[2], line[3], line[4], line[5]) else {
        return Err(Malformed);
    };
    let Some(word) = word(line[7], line[8], line[9], line[10]) else {
        return Err(Malformed);
    };
    if kind.size() <= u32::from(number) {
        return Err(Malformed);
    }
    if limit(kind, number) < word {
        return Err(Malformed);
    }
    Ok(Some(Entry { kind, number, word }))
}
