// Fixed point multiply and divide at 16 bits (single precision) and 32 bits (double precision), each with its condition status.
#![tactic(auto)]

pub mod parts;
pub mod products;
pub mod quotients;

// What a division gives; the condition status is that of the quotient. With an overflow too the words count (`fixed_muldiv/Divide: division`), so it is no Option.
#[derive(Clone, Copy)]
pub struct Quotient<W> {
    pub quotient: W,
    pub remainder: W,
    pub cs: u16,
    pub overflow: bool,
}
