// Exact results brought to the width of a word. A whole number z, also one below zero, is held in a u64 as z plus an offset: 2^32 for a 16-bit result and 2^63 for a 32-bit one.
ghost use Rattle.std.specs.Prelude.{◌≡◌, ◌||◌, ◌+◌, ◌%◌, ◌<◌, ltb, leb};
ghost use Rattle.std.proofs.Math.IntN.{sub_ℕ};
ghost use Rattle.word.specs.Status.{with_carry};
ghost use Rattle.fixed_add.specs.Fixed.{numbered, outcome_of};

use crate::Outcome;
use word::status::status;
use word::width::Word;

// Whether x is below a range of numbers or above it.
fn outside(x: u64, first: u64, end: u64) -> bool
    ensures { result ≡ (ltb x first || leb end x) }
{
    x < first || end <= x
}

// A condition status that has no carry yet, with the carry or without it.
fn with_carry(carry: bool, cs: u16) -> u16
    requires { cs < 8 }
    ensures { result ≡ with_carry carry cs }
{
    if carry { 8 + cs } else { cs }
}

// The result x less the offset.
pub fn narrow<W: Word>(x: u64, carry: bool) -> Outcome<W>
    ensures { numbered W.number result ≡ outcome_of W.WIDTH carry (sub_ℕ x W.OFFSET) }
{
    let value = W::kept(x);
    Outcome {
        value,
        cs: with_carry(carry, status(value)),
        overflow: outside(x, W::OFFSET - W::SIGN, W::OFFSET + W::SIGN),
    }
}
