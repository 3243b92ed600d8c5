// Jumps, loads and stores (5.24 to 5.53, without blocks of words): what each operation does. The operation is the form's.
#![tactic(auto)]

pub mod jumps;
pub mod loads;
pub mod stores;
