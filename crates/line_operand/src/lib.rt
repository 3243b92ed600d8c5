// Operands of mnemonic lines: their places in an instruction, their shapes, and how they are spelt.
#![tactic(auto)]

pub mod fields;
pub mod print;
pub mod shapes;

// The place of a field: bits 12 to 15, 8 to 11, 8 to 15, 6 and 7 or 0 to 5 of the first word, or the second word.
#[derive(Clone, Copy, PartialEq, Eq)]
pub enum Place {
    Nowhere,
    Lower,
    Upper,
    Byte,
    Base,
    Top,
    Second,
}

// How an operand is spelt: "R" and a number, a number, a displacement, four hexadecimal digits, an index register, or not at all.
#[derive(Clone, Copy, PartialEq, Eq)]
pub enum Kind {
    Register,
    Number,
    Label,
    Word,
    Index,
    Unread,
}

// The shape of an operand: its field holds the number less `low`.
#[derive(Clone, Copy)]
pub struct Shape {
    pub kind: Kind,
    pub place: Place,
    pub low: u8,
}

// Why operands are not read: they are not of the right form, or one lies outside its field.
#[derive(Clone, Copy, PartialEq, Eq)]
pub enum OperandError {
    Malformed,
    Outside,
}
