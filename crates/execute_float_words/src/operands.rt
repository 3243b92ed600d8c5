// The two floats that an operation works on, and the arithmetic on them.
ghost use Rattle.std.specs.Prelude.{◌≡◌, ◌≤◌};
ghost use Rattle.twos_complement.specs.Whole.{signed};
ghost use Rattle.float.specs.Float.{given};
ghost use Rattle.float_convert.specs.Convert.{compared_of};
ghost use Rattle.execute_float_words.specs.Operands.{operands24, operands40, Are, arithmetic, resigned};

use addressing::fields::{field_a, get};
use addressing::modes::{accumulator_of, operand_word};
use float::packing::{exponent, mantissa24, mantissa40};
use float::{Float, Operand};
use float_add::stages::{add, subtract};
use float_convert::compare::compare;
use float_convert::sign::{absolute, negate};
use float_div::divide;
use float_mul::multiply;
use machine::Instruction;

// The accumulator a and the operand b.
#[derive(Clone, Copy)]
pub struct Both<const W: u32> {
    pub a: Operand<W>,
    pub b: Operand<W>,
}

// What is done with the two.
#[derive(Clone, Copy)]
pub enum Arithmetic {
    Sum,
    Difference,
    Product,
    Quotient,
}

// What is done with the operand alone.
#[derive(Clone, Copy)]
pub enum Change {
    Absolute,
    Negative,
}

// The accumulator and the operand, with mantissas of 24 bits: of two words each.
pub fn both24(regs: &[u16; 16], n: Instruction, x: u16, y: u16) -> Both<24>
    ensures { Are result (operands24 regs.now n x y) }
{
    let k = accumulator_of(n);
    let q = get(regs, k + 1);
    let t = operand_word(regs, n, 1, y);
    Both {
        a: Operand {
            mantissa: mantissa24(get(regs, k), q),
            exponent: exponent(q),
        },
        b: Operand {
            mantissa: mantissa24(operand_word(regs, n, 0, x), t),
            exponent: exponent(t),
        },
    }
}

// RA and the operand, with mantissas of 40 bits: of three words each, and RA is never another accumulator, so this is no twin of `both24`.
pub fn both40(regs: &[u16; 16], n: Instruction, x: u16, y: u16, z: u16) -> Both<40>
    ensures { Are result (operands40 regs.now n x y z) }
{
    let k = field_a(n.first);
    let q = get(regs, k + 1);
    let t = operand_word(regs, n, 1, y);
    Both {
        a: Operand {
            mantissa: mantissa40(get(regs, k), q, get(regs, k + 2)),
            exponent: exponent(q),
        },
        b: Operand {
            mantissa: mantissa40(operand_word(regs, n, 0, x), t, operand_word(regs, n, 2, z)),
            exponent: exponent(t),
        },
    }
}

// Sum, difference, product or quotient. Every caller has the operands from `both24` or `both40`, so W is 24 or 40.
pub fn combine<const W: u32>(operation: Arithmetic, p: Both<W>) -> Float
    requires { W ≤ 40 }
    ensures { result ≡ given W (arithmetic W operation (signed W p.entry.a.mantissa.bits) p.entry.a.exponent (signed W p.entry.b.mantissa.bits) p.entry.b.exponent) }
{
    match operation {
        Arithmetic::Sum => add(p.a, p.b),
        Arithmetic::Difference => subtract(p.a, p.b),
        Arithmetic::Product => multiply(p.a, p.b),
        Arithmetic::Quotient => divide(p.a, p.b),
    }
}

// The operand's absolute value or its negation.
pub fn change24(change: Change, o: Operand<24>) -> Float
    ensures { result ≡ given 24 (resigned change (signed 24 o.mantissa.bits) o.exponent) }
{
    match change {
        Change::Absolute => absolute(o),
        Change::Negative => negate(o),
    }
}

// CS of a comparison.
pub fn compare_both<const W: u32>(p: Both<W>) -> u16
    ensures { result ≡ compared_of (signed W p.entry.a.mantissa.bits) p.entry.a.exponent (signed W p.entry.b.mantissa.bits) p.entry.b.exponent }
{
    compare(p.a, p.b)
}
