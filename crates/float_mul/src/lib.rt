// Floating point multiply.
#![tactic(auto)]

ghost use Rattle.std.specs.Prelude.{◌≡◌, ◌-◌, ◌*◌, ◌/◌, ◌^◌, ◌≤◌, ◌<◌};
ghost use Rattle.twos_complement.specs.Whole.{signed};
ghost use Rattle.float.specs.Float.{given};
ghost use Rattle.float_exact.specs.Steps.{one_if};
ghost use Rattle.float_mul.specs.Multiply.{product_of};

use float::{Float, FloatFault, Operand, zero};
use float_exact::{finish, largest, lead, one_if, signs_differ, upper, wider};

// a * b, less 1 where neg, without its last 20 bits, for two magnitudes at the top of 40 bits: by two digits of a, so that each product is below 2^60.
fn product(a: u64, b: u64, neg: bool) -> u64
    requires { (2 ^ 39 ≤ a) × (a < 2 ^ 40) × (2 ^ 39 ≤ b) × (b < 2 ^ 40) }
    ensures { (result ≡ (a * b - one_if neg) / 2 ^ 20) × (2 ^ 38 ≤ result) }
{
    let low = a % 0x10_0000 * b + 0x10_0000 - one_if(neg) as u64;
    a / 0x10_0000 * b + low / 0x10_0000 - 1
}

// The product with a mantissa of 40 bits.
fn multiply40(a: Operand<40>, b: Operand<40>) -> Float
    ensures { result ≡ given 40 (product_of 40 (signed 40 a.mantissa.bits) a.exponent (signed 40 b.mantissa.bits) b.exponent) }
{
    let neg = signs_differ(a.mantissa, b.mantissa);
    let n = a.exponent + b.exponent;
    if 383 < n {
        return largest(neg);
    }
    if n < 128 {
        return zero(Some(FloatFault::Underflow));
    }
    if a.mantissa.bits == 0 || b.mantissa.bits == 0 {
        return zero(None);
    }
    let x = lead(a.mantissa);
    let y = lead(b.mantissa);
    // q lacks 20 bits of the product, whose last place is 40 + 127 places above that of the exponent 0
    let q = product(x.value, y.value, neg);
    finish(neg, q, n, x.shift + y.shift + 147)
}

// The product with a mantissa of W bits (5.74, 5.75): the upper part of that with 40. Every caller has W = 24 or 40.
pub fn multiply<const W: u32>(a: Operand<W>, b: Operand<W>) -> Float
    requires { W ≤ 40 }
    ensures { result ≡ given W (product_of W (signed W a.entry.mantissa.bits) a.entry.exponent (signed W b.entry.mantissa.bits) b.entry.exponent) }
{
    let x = Operand {
        mantissa: wider(a.mantissa),
        exponent: a.exponent,
    };
    let y = Operand {
        mantissa: wider(b.mantissa),
        exponent: b.exponent,
    };
    upper::<W>(multiply40(x, y))
}
