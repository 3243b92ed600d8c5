// Which interrupt is entered, and the words that its entry reads (Scope, "One step", 1, and "Entry of n").
#![tactic(auto)]

pub mod pending;
pub mod pointers;
