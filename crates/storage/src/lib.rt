// Words of the memory, one or those of a span, read and stored through the page registers.
#![tactic(auto)]

pub mod read;
pub mod write;
