// Floating point divide.
#![tactic(auto)]

ghost use Rattle.std.specs.Prelude.{◌≡◌, ◌-◌, ◌*◌, ◌/◌, ◌^◌, ◌≤◌, ◌<◌};
ghost use Rattle.twos_complement.specs.Whole.{signed};
ghost use Rattle.float.specs.Float.{given};
ghost use Rattle.float_exact.specs.Steps.{one_if};
ghost use Rattle.float_div.specs.Divide.{quotient_of};

use float::{Float, FloatFault, Operand, zero};
use float_exact::{finish, largest, lead, magnitude, one_if, signs_differ, upper, wider};

// a * 2^40, less 1 where neg, divided by b, for two magnitudes at the top of 40 bits: by two digits, so that each dividend is below 2^61.
fn quotient(a: u64, b: u64, neg: bool) -> u64
    requires { (2 ^ 39 ≤ a) × (a < 2 ^ 40) × (2 ^ 39 ≤ b) × (b < 2 ^ 40) }
    ensures { (result ≡ (a * 2 ^ 40 - one_if neg) / b) × (2 ^ 38 ≤ result) }
{
    let n = a * 0x10_0000;
    let low = n % b * 0x10_0000 + b - one_if(neg) as u64;
    n / b * 0x10_0000 + low / b - 1
}

// The quotient with a mantissa of 40 bits.
fn divide40(a: Operand<40>, b: Operand<40>) -> Float
    ensures { result ≡ given 40 (quotient_of 40 (signed 40 a.mantissa.bits) a.exponent (signed 40 b.mantissa.bits) b.exponent) }
{
    let neg = signs_differ(a.mantissa, b.mantissa);
    if b.mantissa.bits == 0 {
        return largest(neg);
    }
    let ea = a.exponent;
    let eb = b.exponent;
    if eb + 127 < ea {
        return largest(neg);
    }
    if ea + 128 < eb {
        return zero(Some(FloatFault::Underflow));
    }
    // n + 1 where the quotient is 1.0 or more in magnitude
    let n = ea + one_if(magnitude(b.mantissa) <= magnitude(a.mantissa));
    if eb + 127 < n {
        return largest(neg);
    }
    if a.mantissa.bits == 0 {
        return zero(None);
    }
    let x = lead(a.mantissa);
    let y = lead(b.mantissa);
    let q = quotient(x.value, y.value, neg);
    finish(neg, q, ea + y.shift + 127, eb + x.shift)
}

// The quotient with a mantissa of W bits (5.79, 5.80): the upper part of that with 40. Every caller has W = 24 or 40.
pub fn divide<const W: u32>(a: Operand<W>, b: Operand<W>) -> Float
    requires { W ≤ 40 }
    ensures { result ≡ given W (quotient_of W (signed W a.entry.mantissa.bits) a.entry.exponent (signed W b.entry.mantissa.bits) b.entry.exponent) }
{
    let x = Operand {
        mantissa: wider(a.mantissa),
        exponent: a.exponent,
    };
    let y = Operand {
        mantissa: wider(b.mantissa),
        exponent: b.exponent,
    };
    upper::<W>(divide40(x, y))
}
