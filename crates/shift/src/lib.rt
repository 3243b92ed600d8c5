// Shifts of 16-bit words and of 32-bit pairs of words: by a number of places (5.10 to 5.17), and by a count in a register (5.18 to 5.23).
#![tactic(auto)]

pub mod counted;
pub mod places;

// Where the count in a register moves a word: to the left or to the right by some places, or nowhere, as it exceeds the width.
// Three cases, two of them with a number: an Option would need an enum of those two within.
#[derive(Clone, Copy)]
pub enum Count {
    Left(u16),
    Right(u16),
    Beyond,
}

// A shifted word, and whether fixed point overflow occurs. The value counts in both cases (`shift/Shift: logical_by`), so it is no Option.
#[derive(Clone, Copy)]
pub struct Shifted<W> {
    pub value: W,
    pub overflow: bool,
}
