// Negative, absolute value, comparison and conversion of floats with a mantissa of 24 or 40 bits.
// Operands need not be normalised.
#![tactic(auto)]

pub mod compare;
pub mod convert;
pub mod sign;
