// Sums, differences, negation and absolute value.
ghost use Rattle.std.specs.Prelude.{◌≡◌};
ghost use Rattle.fixed_add.specs.Fixed.{numbered, sum, absolute, difference, negated};

use crate::Outcome;
use crate::narrow::narrow;
use word::width::Word;

// Add (5.55, 5.59), and increment memory (5.56).
pub fn add<W: Word>(a: W, b: W) -> Outcome<W>
    ensures { numbered W.number result ≡ sum W.WIDTH (W.number a) (W.number b) }
{
    let carry = 2 * W::SIGN <= a.number() + b.number();
    narrow(a.excess() + b.excess() + (W::OFFSET - 2 * W::SIGN), carry)
}

// Absolute value (5.57, 5.58).
pub fn absolute<W: Word>(a: W) -> Outcome<W>
    ensures { numbered W.number result ≡ absolute W.WIDTH (W.number a) }
{
    if a.number() < W::SIGN {
        narrow(a.number() + W::OFFSET, false)
    } else {
        negate(a)
    }
}

// Subtract (5.63, 5.67), and decrement memory (5.64). A carry is that there is no borrow.
pub fn sub<W: Word>(a: W, b: W) -> Outcome<W>
    ensures { numbered W.number result ≡ difference W.WIDTH (W.number a) (W.number b) }
{
    let x = a.excess() + W::OFFSET - b.excess();
    narrow(x, b.number() <= a.number())
}

// Negate (5.65, 5.66).
pub fn negate<W: Word>(a: W) -> Outcome<W>
    ensures { numbered W.number result ≡ negated W.WIDTH (W.number a) }
{
    narrow(W::OFFSET + W::SIGN - a.excess(), false)
}
