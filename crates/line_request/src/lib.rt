// The requests of the program `lines` (docs/USING.md) and their answers: two words to print as a line, or a line to read as words.
#![tactic(auto)]

pub mod answer;
pub mod input;

// What a line of the input asks: two words to print, or a line to read behind its first two bytes.
#[derive(Clone, Copy)]
pub enum Request {
    Print(u16, u16),
    Read,
}
