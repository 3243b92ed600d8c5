// Shifts by a number of places, of a 16-bit and of a 32-bit word (5.10 to 5.17).
// A fixed count is 1 to 16, and a count in a register is at most the width: every caller meets the bounds.
ghost use Rattle.std.specs.Prelude.{◌≡◌, ◌-◌, ◌^◌, ◌≤◌};
ghost use Rattle.twos_complement.specs.Whole.{shift_left, shift_right, shift_arith, rotate, sign_changes};

use word::width::Word;

// Left, zeros entering (5.10, 5.14).
pub fn left<W: Word>(a: W, n: u16) -> W
    requires { n ≤ W.WIDTH }
    ensures { W.number result ≡ shift_left W.WIDTH n (W.number a) }
{
    W::kept(a.number() << n)
}

// Right, zeros entering (5.11, 5.15).
pub fn right<W: Word>(a: W, n: u16) -> W
    requires { n ≤ W.WIDTH }
    ensures { W.number result ≡ shift_right W.WIDTH n (W.number a) }
{
    W::kept(a.number() >> n)
}

// All bits turned over.
fn complement<W: Word>(a: W) -> W
    ensures { W.number result ≡ (2 ^ W.WIDTH - 1) - W.number a }
{
    W::kept(2 * W::SIGN - 1 - a.number())
}

// Right, copies of the sign entering (5.12, 5.16).
pub fn arith<W: Word>(a: W, n: u16) -> W
    requires { n ≤ W.WIDTH }
    ensures { W.number result ≡ shift_arith W.WIDTH n (W.number a) }
{
    if a.number() < W::SIGN {
        right(a, n)
    } else {
        complement(right(complement(a), n))
    }
}

// Left in a circle (5.13, 5.17).
pub fn cyclic<W: Word>(a: W, n: u16) -> W
    requires { n ≤ W.WIDTH }
    ensures { W.number result ≡ rotate W.WIDTH n (W.number a) }
{
    let x = a.number();
    W::kept((x << n) | (x >> (W::WIDTH - n)))
}

// Whether the sign changes at any position of a left shift (5.19, 5.22).
pub(crate) fn sign_changes<W: Word>(a: W, n: u16) -> bool
    requires { n ≤ W.WIDTH }
    ensures { result ≡ sign_changes W.WIDTH n (W.number a) }
{
    let x = a.number();
    if x < W::SIGN {
        (x << n) >= W::SIGN
    } else {
        ((2 * W::SIGN - x) << n) > W::SIGN
    }
}
