// Whole numbers by sign and magnitude, and their results at the width of a word.
ghost use Rattle.std.specs.Prelude.{◌≡◌, false, ◌<◌};
ghost use Rattle.twos_complement.specs.Whole.{Parts, with_sign};
ghost use Rattle.fixed_add.specs.Fixed.{numbered, outcome_of};

use fixed_add::Outcome;
use fixed_add::narrow::narrow;
use word::width::Word;

// A whole number as a sign and a magnitude.
#[derive(Clone, Copy)]
pub(crate) struct Magnitude {
    pub neg: bool,
    pub size: u32,
}

// The sign and the magnitude of a word.
pub(crate) fn split<W: Word>(a: W) -> Magnitude
    ensures { Parts W.WIDTH (W.number a) result.neg result.size }
{
    let n = a.number();
    if n < W::SIGN {
        Magnitude {
            neg: false,
            size: n as u32,
        }
    } else {
        Magnitude {
            neg: true,
            size: (2 * W::SIGN - n) as u32,
        }
    }
}

// The result of a sign and a magnitude. A product of two magnitudes is at most 2^30 at 16 bits, and 2^62 at 32.
pub(crate) fn join<W: Word>(neg: bool, size: u64) -> Outcome<W>
    requires { size < W.OFFSET }
    ensures { numbered W.number result ≡ outcome_of W.WIDTH false (with_sign neg size) }
{
    if neg {
        narrow(W::OFFSET - size, false)
    } else {
        narrow(size + W::OFFSET, false)
    }
}
