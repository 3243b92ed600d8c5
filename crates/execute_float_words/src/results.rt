// What the operation does, from the float or the integer that it gives.
ghost use Rattle.std.specs.Prelude.{◌≡◌, List, ℕ};
ghost use Rattle.isa.specs.Floats.{float24, float40, to_integer, to_double_integer};
ghost use Rattle.effect.specs.Work.{context, worked};

use crate::operands::{both24, both40};
use addressing::fields::{field_a, get};
use effect::{Before, Registers, Work, fixed_overflow, float_faults};
use float::Float;
use float::mantissa::status;
use float::packing::{first_word, second_word, third_word};
use float_convert::convert::fix;
use word::pair::{high, join, low};

// Registers k and k + 1 get a float, CS the status of its mantissa, and PI its faults.
pub fn give24(before: Before, k: u16, f: Float) -> Work
    ensures { (regs : List ℕ) (sw : ℕ) → worked regs result ≡ float24 (context regs sw before.pi) before.n k f }
{
    let first = first_word(f.mantissa);
    let second = second_word(f.mantissa, f.exponent);
    let cs = status(24, f.mantissa);
    let bits = float_faults(f.fault);
    before.into_registers(Registers::Two(k, first, second), cs, bits)
}

// Three registers get one with a mantissa of 40 bits. Two words and three, as in `isa/Floats: float24, float40`, so not one function with `give24`.
pub fn give40(before: Before, k: u16, f: Float) -> Work
    ensures { (regs : List ℕ) (sw : ℕ) → worked regs result ≡ float40 (context regs sw before.pi) before.n k f }
{
    let upper = f.mantissa / 65536;
    let first = first_word(upper);
    let second = second_word(upper, f.exponent);
    let third = third_word(f.mantissa);
    let cs = status(40, f.mantissa);
    let bits = float_faults(f.fault);
    before.into_registers(Registers::Three(k, first, second, third), cs, bits)
}

// FIX: RA gets the integer, or keeps what it has.
pub fn to_integer(regs: &[u16; 16], before: Before, x: u16, y: u16) -> Work
    ensures { (sw : ℕ) → worked regs.now result ≡ to_integer (context regs.now sw before.pi) before.n x y }
{
    let a = field_a(before.n.first);
    let p = both24(regs, before.n, x, y);
    let f = fix(p.b, get(regs, a) as u32);
    let i = f.value as u16;
    let bits = fixed_overflow(f.overflow);
    before.into_registers(Registers::One(a, i), word::status::status(i), bits)
}

// EFIX: RA and RA + 1, from three words; two definitions, `isa/Floats: to_integer, to_double_integer`, so two functions.
pub fn to_double_integer(regs: &[u16; 16], before: Before, x: u16, y: u16, z: u16) -> Work
    ensures { (sw : ℕ) → worked regs.now result ≡ to_double_integer (context regs.now sw before.pi) before.n x y z }
{
    let a = field_a(before.n.first);
    let p = both40(regs, before.n, x, y, z);
    let f = fix(p.b, join(get(regs, a), get(regs, a + 1)));
    let pair = Registers::Two(a, high(f.value), low(f.value));
    before.into_registers(
        pair,
        word::status::status(f.value),
        fixed_overflow(f.overflow),
    )
}
