// Products, by sign and magnitude.
ghost use Rattle.std.specs.Prelude.{◌≡◌};
ghost use Rattle.fixed_add.specs.Fixed.{numbered};
ghost use Rattle.fixed_muldiv.specs.Divide.{product, long_product};

use crate::parts::{join, split};
use fixed_add::Outcome;
use word::width::Word;

// Multiply, keeping as many bits as an operand has (5.71, 5.73).
pub fn multiply<W: Word>(a: W, b: W) -> Outcome<W>
    ensures { numbered W.number result ≡ product W.WIDTH (W.number a) (W.number b) }
{
    let x = split(a);
    let y = split(b);
    join(x.neg != y.neg, u64::from(x.size) * u64::from(y.size))
}

// Multiply 16 bits with a 32-bit product (5.72).
pub fn multiply_long(a: u16, b: u16) -> Outcome<u32>
    ensures { result ≡ long_product 16 a b }
{
    let x = split(a);
    let y = split(b);
    join(x.neg != y.neg, u64::from(x.size) * u64::from(y.size))
}
