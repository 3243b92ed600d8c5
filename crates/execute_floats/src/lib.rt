// Floating point operations (5.60 to 5.95): what each does, by its paragraph.
#![tactic(auto)]

ghost use Rattle.std.specs.Prelude.{◌≡◌};
ghost use Rattle.decode.specs.Forms.{operation_of};
ghost use Rattle.isa.specs.Floats.{float_operation};
ghost use Rattle.effect.specs.Work.{seen, worked};

use addressing::fields::field_a;
use addressing::modes::{accumulator_of, double_operand, operand_of};
use effect::{Before, Work};
use execute_float_words::operands::{
    Arithmetic as Op, Change as To, both24, both40, change24, combine, compare_both,
};
use execute_float_words::results::{give24, give40, to_double_integer, to_integer};
use float_convert::convert::from_integer;

// 5.60 to 5.62, 5.68 to 5.70, 5.74, 5.75, 5.79, 5.80, 5.85 to 5.88, 5.94, 5.95: FA EFA FABS, FS EFS FNEG, FM EFM, FD EFD, FIX FLT EFIX EFLT, FC EFC.
// x, y and z are the words read, k the accumulator's number.
pub fn float_operation(regs: &[u16; 16], before: Before, x: u16, y: u16, z: u16) -> Work
    ensures { worked regs.now result ≡ float_operation (seen regs.now before) before.n x y z (operation_of before.n.form) }
{
    let n = before.n;
    let a = field_a(n.first);
    let k = accumulator_of(n);
    // by the number of its paragraph, as `isa/Execute: executed` goes
    match n.form % 256 {
        60 => give24(before, k, combine(Op::Sum, both24(regs, n, x, y))),
        61 => give40(before, a, combine(Op::Sum, both40(regs, n, x, y, z))),
        62 => give24(before, a, change24(To::Absolute, both24(regs, n, x, y).b)),
        68 => give24(before, k, combine(Op::Difference, both24(regs, n, x, y))),
        69 => give40(before, a, combine(Op::Difference, both40(regs, n, x, y, z))),
        70 => give24(before, a, change24(To::Negative, both24(regs, n, x, y).b)),
        74 => give24(before, k, combine(Op::Product, both24(regs, n, x, y))),
        75 => give40(before, a, combine(Op::Product, both40(regs, n, x, y, z))),
        79 => give24(before, k, combine(Op::Quotient, both24(regs, n, x, y))),
        80 => give40(before, a, combine(Op::Quotient, both40(regs, n, x, y, z))),
        85 => to_integer(regs, before, x, y),
        86 => give24(before, a, from_integer::<24>(operand_of(regs, n, x) as u32)),
        87 => to_double_integer(regs, before, x, y, z),
        88 => give40(before, a, from_integer::<40>(double_operand(regs, n, x, y))),
        94 => before.tested(compare_both(both24(regs, n, x, y))),
        95 => before.tested(compare_both(both40(regs, n, x, y, z))),
        _ => before.nothing(),
    }
}
