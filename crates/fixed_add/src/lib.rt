// Fixed point arithmetic at 16 bits (single precision) and 32 bits (double precision): sums and differences, negation and absolute value, each with its condition status.
#![tactic(auto)]

pub mod narrow;
pub mod sums;

// What an operation gives: the bits of its result, its condition status, and whether fixed point overflow sets PI bit 4. The value counts in both cases
// (`fixed_add/Fixed: outcome_of`), so it is no Option.
#[derive(Clone, Copy)]
pub struct Outcome<W> {
    pub value: W,
    pub cs: u16,
    pub overflow: bool,
}
