// Floats to integers (5.85, 5.87) and integers to floats (5.86, 5.88).
// Every caller has W = 24 with 16 bits of an integer or of a register, or W = 40 with 32 bits of two.
ghost use Rattle.std.specs.Prelude.{◌≡◌, ◌-◌, ◌≤◌, ◌<◌, ◌^◌, pos};
ghost use Rattle.std.specs.Int.Signed.{quot_z};
ghost use Rattle.twos_complement.specs.Whole.{signed, wrap};
ghost use Rattle.float.specs.Float.{given};
ghost use Rattle.float_convert.specs.Convert.{too_large, fixed_of, float_of};

use float::mantissa::{Mantissa, bits, half, low};
use float::{Float, Operand};

// An integer, or what the register held before an overflow: a value in both cases, which CS follows, so this is no Option.
#[derive(Clone, Copy)]
pub struct Fixed {
    pub value: u32,
    pub overflow: bool,
}

// A mantissa divided by 2^n, truncated toward zero: the shift rounds down, which is one too low where bits are lost below zero.
fn truncate<const W: u32>(m: Mantissa<W>, n: u32) -> Mantissa<W>
    ensures { result.bits ≡ wrap W (quot_z (signed W m.entry.bits) (pos (2 ^ n))) }
{
    let x = m.shift(n);
    if m.bits < half(W) {
        return bits(x);
    }
    if m.loses(n) {
        return bits(x + 1);
    }
    bits(x)
}

// FIX, EFIX (5.85, 5.87): the integer portion as n = W - 8 bits, 16 or 32 of a mantissa of 24 or 40; an exponent above n - 1 overflows and keeps what was there before.
pub fn fix<const W: u32>(a: Operand<W>, before: u32) -> Fixed
    requires { (10 ≤ W) × (W ≤ 40) × (before < 2 ^ (W - 8)) }
    ensures { (result.value ≡ fixed_of (W - 8) W (signed W a.entry.mantissa.bits) a.entry.exponent before)
        × (result.overflow ≡ too_large (W - 8) a.entry.exponent) × (result.value < 2 ^ (W - 8)) }
{
    let n = W - 8;
    let e = a.exponent;
    if n + 127 < e {
        return Fixed {
            value: before,
            overflow: true,
        };
    }
    let t = truncate(a.mantissa, W + 127 - e);
    Fixed {
        value: low(t.bits, n) as u32,
        overflow: false,
    }
}

// FLT, EFLT (5.86, 5.88): an integer of n = W - 8 bits as a float, exactly.
pub fn from_integer<const W: u32>(integer: u32) -> Float
    requires { (10 ≤ W) × (W ≤ 40) × (integer < 2 ^ (W - 8)) }
    ensures { result ≡ given W (float_of (W - 8) W (signed (W - 8) integer)) }
{
    let m: Mantissa<W> = Mantissa {
        bits: (integer as u64) * 256,
    };
    m.normalise(W - 8 + 127)
}
