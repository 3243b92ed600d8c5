// The negative (5.70) and the absolute value (5.62) of a float.
ghost use Rattle.std.specs.Prelude.{◌≡◌};
ghost use Rattle.twos_complement.specs.Whole.{signed};
ghost use Rattle.float.specs.Float.{given};
ghost use Rattle.float_convert.specs.Convert.{negated_of, absolute_of};

use float::{Float, FloatFault, Operand, extreme, plain, zero};

// FNEG (5.70)
pub fn negate(a: Operand<24>) -> Float
    ensures { result ≡ given 24 (negated_of 24 (signed 24 a.mantissa.bits) a.exponent) }
{
    let m = a.mantissa.bits;
    let e = a.exponent;
    match m {
        0x80_0000 => {
            if e == 255 {
                return extreme(0x7f_ffff);
            }
            plain(0x40_0000, e + 1)
        }
        0x40_0000 => {
            if e == 0 {
                return zero(Some(FloatFault::Underflow));
            }
            plain(0x80_0000, e - 1)
        }
        _ => plain((0x100_0000 - m) % 0x100_0000, e),
    }
}

// FABS (5.62)
pub fn absolute(a: Operand<24>) -> Float
    ensures { result ≡ given 24 (absolute_of 24 (signed 24 a.mantissa.bits) a.exponent) }
{
    if a.mantissa.bits < 0x80_0000 {
        return plain(a.mantissa.bits, a.exponent);
    }
    negate(a)
}
