// Floats in words: the two floats that an operation works on, the arithmetic on them, and what comes of a float or an integer.
#![tactic(auto)]

pub mod operands;
pub mod results;
