// What the program `test_cases` does between its input and its output (docs/TEST-CASES.md): the input is read byte by byte, cases are made and run,
// and their text is made.
#![tactic(auto)]

mod case;
mod enter;
pub mod input;
mod output;

pub use case::{Case, Lengths};
