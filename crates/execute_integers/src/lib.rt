// Integer arithmetic, logic and comparison (5.55 to 5.93 without the floats): what each operation does, by its paragraph.
#![tactic(auto)]

ghost use Rattle.std.specs.Prelude.{◌≡◌};
ghost use Rattle.decode.specs.Forms.{operation_of};
ghost use Rattle.isa.specs.Integers.{integer_operation, logical_operation};
ghost use Rattle.effect.specs.Work.{seen, worked};

use crate::outcomes::{
    combine32, double_outcome, memory_outcome, quotient_outcome, single_outcome,
};
use addressing::fields::{field_a, get, pair_at};
use addressing::modes::{accumulator_of, double_operand, operand_of};
use bits::bytes::exchange_bytes;
use bits::logic::{and, nand, xor};
use effect::{Before, Work};
use fixed_add::sums::{absolute, add, negate, sub};
use fixed_muldiv::products::{multiply, multiply_long};
use fixed_muldiv::quotients::{divide, divide_long};
use word::compare::{compare, compare_limits};

mod outcomes;

// 5.55 to 5.59, 5.63 to 5.67, 5.71 to 5.73, 5.76 to 5.78: A INCM ABS DABS DA, S DECM NEG DNEG DS, MS M DM, DV D DD.
// x and y are the words read, k the accumulator's number.
pub fn integer_operation(regs: &[u16; 16], before: Before, x: u16, y: u16) -> Work
    requires { (operation_of before.n.form ≡ 55 → ⊥) × (operation_of before.n.form ≡ 59 → ⊥) × (operation_of before.n.form ≡ 63 → ⊥) × (operation_of before.n.form ≡ 67 → ⊥) }
    ensures { worked regs.now result ≡ integer_operation (seen regs.now before) before.n x y (operation_of before.n.form) }
{
    let n = before.n;
    let a = field_a(n.first);
    let k = accumulator_of(n);
    let o = operand_of(regs, n, x);
    // by the number of its paragraph, as `isa/Execute: executed` goes
    match n.form % 256 {
        56 => memory_outcome(before, add(x, a + 1)),
        57 => single_outcome(before, a, absolute(o)),
        58 => double_outcome(before, a, absolute(double_operand(regs, n, x, y))),
        64 => memory_outcome(before, sub(x, a + 1)),
        65 => single_outcome(before, a, negate(o)),
        66 => double_outcome(before, a, negate(double_operand(regs, n, x, y))),
        71 => single_outcome(before, a, multiply(get(regs, a), o)),
        72 => double_outcome(before, k, multiply_long(get(regs, k), o)),
        73 => double_outcome(before, a, combine32(73, regs, a, n, x, y)),
        76 => quotient_outcome(before, a, divide(get(regs, a), o)),
        77 => quotient_outcome(before, k, divide_long(pair_at(regs, k), o)),
        78 => double_outcome(before, a, combine32(78, regs, a, n, x, y)),
        _ => before.nothing(),
    }
}

// 5.81 to 5.84, 5.89, 5.91 to 5.93: OR AND XOR N, XBR, C CBL DC. x and y are the words read, k the accumulator's number.
pub fn logical_operation(regs: &[u16; 16], before: Before, x: u16, y: u16) -> Work
    requires { (operation_of before.n.form ≡ 81 → ⊥) × (operation_of before.n.form ≡ 82 → ⊥) }
    ensures { worked regs.now result ≡ logical_operation (seen regs.now before) before.n x y (operation_of before.n.form) }
{
    let n = before.n;
    let a = field_a(n.first);
    let k = accumulator_of(n);
    let o = operand_of(regs, n, x);
    // by the number of its paragraph, as `isa/Execute: executed` goes
    match n.form % 256 {
        83 => before.single(a, xor(get(regs, a), o)),
        84 => before.single(a, nand(get(regs, a), o)),
        89 => before.single(a, exchange_bytes(get(regs, a))),
        91 => before.tested(compare(get(regs, k), o)),
        92 => before.tested(compare_limits(get(regs, a), x, y)),
        93 => before.tested(compare(pair_at(regs, a), double_operand(regs, n, x, y))),
        _ => before.nothing(),
    }
}
