// The fields of an instruction and the registers that they name, and the operand of its addressing mode.
#![tactic(auto)]

pub mod fields;
pub mod modes;
