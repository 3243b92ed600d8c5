// The most frequent operations that load the accumulator, carried out at once: one word (L A S OR AND) or two (DL DA DS). What they come to is what
// the definitions of all operations say. Key and group are those of SW.
#![tactic(auto)]

pub mod double;
pub mod finish;
pub mod operand;
mod plain;
pub mod single;

// IC, SW and PI after an operation.
#[derive(Clone, Copy)]
pub struct Ending {
    pub ic: u16,
    pub sw: u16,
    pub pi: u16,
}
