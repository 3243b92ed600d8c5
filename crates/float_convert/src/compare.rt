// Comparison by exact value (5.94, 5.95), as a condition status.
ghost use Rattle.std.specs.Prelude.{◌≡◌};
ghost use Rattle.twos_complement.specs.Whole.{signed};
ghost use Rattle.float_convert.specs.Convert.{compared_of};

use float::{Operand, gap};

// FC, EFC, at any width. The mantissa of smaller exponent is shifted right; where the two are equal then, the bits that were lost decide.
pub fn compare<const W: u32>(a: Operand<W>, b: Operand<W>) -> u16
    ensures { result ≡ compared_of (signed W a.entry.mantissa.bits) a.entry.exponent (signed W b.entry.mantissa.bits) b.entry.exponent }
{
    let n = gap(b.exponent, a.exponent);
    let k = gap(a.exponent, b.exponent);
    let x = a.mantissa.shift(n);
    let y = b.mantissa.shift(k);
    if x < y {
        return 1;
    }
    if y < x {
        return 4;
    }
    if a.mantissa.loses(n) {
        return 4;
    }
    if b.mantissa.loses(k) { 1 } else { 2 }
}
