// The lines of the program `test_cases` (docs/TEST-CASES.md): an input line, the words that it sets, and the lines of a case's text.
#![tactic(auto)]

pub mod kind;
pub mod lines;
pub mod output;
pub mod set;

use kind::Kind;

// An entry: its kind, number and word.
#[derive(Clone, Copy, Debug, PartialEq, Eq)]
pub struct Entry {
    pub kind: Kind,
    pub number: u16,
    pub word: u16,
}

// The error of a line that is neither a remark nor an entry.
#[derive(Clone, Copy, Debug, PartialEq, Eq)]
pub struct Malformed;
