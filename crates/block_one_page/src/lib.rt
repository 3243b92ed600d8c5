// The operations on blocks whose words lie in one page, at once.
#![tactic(auto)]

mod extents;
pub mod here;
