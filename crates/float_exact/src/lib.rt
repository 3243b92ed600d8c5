// What floating point multiply and divide share, on the 40 bits of a mantissa in a u64: sign and magnitude, and the normalised, truncated result.
// Every caller has tested for 0 the mantissa that it gives to `lead`, and has a width of 24 or 40 for `wider` and `upper`.
#![tactic(auto)]

ghost use Rattle.std.specs.Prelude.{◌≡◌, ◌+◌, ◌-◌, ◌*◌, ◌/◌, ◌^◌, ◌≤◌, ◌<◌, nat_abs};
ghost use Rattle.twos_complement.specs.Whole.{signed, with_sign};
ghost use Rattle.float.specs.Float.{overflowed, given};
ghost use Rattle.float_exact.specs.Exact.{signs_differ};
ghost use Rattle.float_exact.specs.Steps.{one_if, Led, signed_by, tail, ranged, upper};

use float::mantissa::Mantissa;
use float::{Float, FloatFault, extreme, plain, zero};

// Whether the first bits of two mantissas differ.
pub fn signs_differ(a: Mantissa<40>, b: Mantissa<40>) -> bool
    ensures { result ≡ signs_differ (signed 40 a.bits) (signed 40 b.bits) }
{
    (a.bits < 0x80_0000_0000) != (b.bits < 0x80_0000_0000)
}

// The magnitude of a mantissa.
pub fn magnitude(a: Mantissa<40>) -> u64
    ensures { result ≡ nat_abs (signed 40 a.bits) }
{
    if a.bits < 0x80_0000_0000 {
        return a.bits;
    }
    0x100_0000_0000 - a.bits
}

// A number after a left move, and how far it moved.
#[derive(Clone, Copy)]
pub struct Moved {
    pub shift: u32,
    pub value: u64,
}

// The magnitude of a mantissa that is not 0, moved to the top of 40 bits.
pub fn lead(a: Mantissa<40>) -> Moved
    requires { 0 < a.bits }
    ensures { Led 40 (nat_abs (signed 40 a.bits)) result.shift result.value }
{
    let m = magnitude(a);
    let shift = u64::leading_zeros(m) - 24;
    let value = m << shift;
    Moved { shift, value }
}

// 1 for true.
pub fn one_if(b: bool) -> u32
    ensures { result ≡ one_if b }
{
    b as u32
}

// The largest positive number, or the smallest negative one.
pub fn largest(neg: bool) -> Float
    ensures { result ≡ given 40 (overflowed 40 (with_sign neg 1)) }
{
    if neg {
        return extreme(0x80_0000_0000);
    }
    extreme(0x7f_ffff_ffff)
}

// The float of a sign and of the first 39 bits that count in q, the others truncated; q itself stands at the exponent p less n.
// Callers hand over a product or a quotient of magnitudes at the top of 40 bits, which has more than 38, and p from exponents of 8 bits.
pub fn finish(neg: bool, q: u64, p: u32, n: u32) -> Float
    requires { (2 ^ 38 ≤ q) × (p < 1024) }
    ensures { result ≡ given 40 (ranged 40 (signed_by neg (q / 2 ^ tail 40 q)) (p + tail 40 q) n) }
{
    let t = 25 - u64::leading_zeros(q);
    if p + t < n {
        return zero(Some(FloatFault::Underflow));
    }
    let e = p + t - n;
    if 255 < e {
        return largest(neg);
    }
    let m = q >> t;
    if neg {
        return plain(0xff_ffff_ffff - m, e);
    }
    plain(m, e)
}

// A mantissa of W bits with zeros after it, up to 40.
pub fn wider<const W: u32>(a: Mantissa<W>) -> Mantissa<40>
    requires { W ≤ 40 }
    ensures { result.bits ≡ a.entry.bits * 2 ^ (40 - W) }
{
    Mantissa {
        bits: a.bits << (40 - W),
    }
}

// The float with the first W of the 40 bits of a mantissa.
pub fn upper<const W: u32>(f: Float) -> Float
    requires { W ≤ 40 }
    ensures { result ≡ upper (40 - W) f }
{
    Float {
        mantissa: f.mantissa >> (40 - W),
        exponent: f.exponent,
        fault: f.fault,
    }
}
