// Bits and shifts (5.3 to 5.23): what each operation does. The operation is the form's.
#![tactic(auto)]

pub mod bit;
pub mod shifts;
