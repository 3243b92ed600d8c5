// What the operations on several registers or words at once leave in registers, IC and CS (5.40, 5.44, 5.47, 5.54, 5.90), from the words read.
#![tactic(auto)]

pub mod operation;
mod registers;
