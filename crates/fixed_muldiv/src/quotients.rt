// Quotients and remainders, by sign and magnitude.
ghost use Rattle.std.specs.Prelude.{◌≡◌};
ghost use Rattle.twos_complement.specs.Whole.{with_sign};
ghost use Rattle.fixed_add.specs.Fixed.{numbered};
ghost use Rattle.fixed_muldiv.specs.Divide.{both_numbered, division, divided, long_divided, quotient};

use crate::Quotient;
use crate::parts::{Magnitude, join, split};
use fixed_add::Outcome;
use word::width::Word;

// The quotient and the remainder of x and y.
fn division<W: Word>(x: Magnitude, y: Magnitude) -> Quotient<W>
    ensures { both_numbered W.number result ≡ division W.WIDTH (with_sign x.neg x.size) (with_sign y.neg y.size) }
{
    if y.size == 0 {
        return Quotient {
            quotient: W::kept(0),
            remainder: W::kept(0),
            cs: 2,
            overflow: true,
        };
    }
    let q = join(x.neg != y.neg, u64::from(x.size / y.size));
    let r = join(x.neg, u64::from(x.size % y.size));
    Quotient {
        quotient: q.value,
        remainder: r.value,
        cs: q.cs,
        overflow: q.overflow,
    }
}

// Divide with a dividend as wide as the divisor (5.76).
pub fn divide<W: Word>(a: W, b: W) -> Quotient<W>
    ensures { both_numbered W.number result ≡ divided W.WIDTH (W.number a) (W.number b) }
{
    division(split(a), split(b))
}

// Divide with a 32-bit dividend (5.77).
pub fn divide_long(n: u32, d: u16) -> Quotient<u16>
    ensures { result ≡ long_divided 16 n d }
{
    let high = split(word::pair::high(n));
    let y = split(d);
    Quotient {
        overflow: y.size <= high.size,
        ..division(split(n), y)
    }
}

// Divide, the remainder being lost (5.78).
pub fn quotient<W: Word>(a: W, b: W) -> Outcome<W>
    ensures { numbered W.number result ≡ quotient W.WIDTH (W.number a) (W.number b) }
{
    let q = divide(a, b);
    Outcome {
        value: q.quotient,
        cs: q.cs,
        overflow: q.overflow,
    }
}
