// What the operation does, from the outcome of its arithmetic: whatever the registers and SW hold, it is the definition's effect.
ghost use Rattle.std.specs.Prelude.{◌≡◌, cond, List, ℕ, ◌<◌, eqb};
ghost use Rattle.fixed_muldiv.specs.Divide.{product, quotient};
ghost use Rattle.isa.specs.Addressing.{double_operand};
ghost use Rattle.isa.specs.Words.{register_pair};
ghost use Rattle.isa.specs.Integers.{single_outcome, double_outcome, memory_outcome, quotient_outcome};
ghost use Rattle.effect.specs.Work.{context, worked};

use addressing::fields::pair_at;
use addressing::modes::double_operand;
use effect::{Before, Registers, Work, fixed_overflow};
use fixed_add::Outcome;
use fixed_muldiv::Quotient;
use fixed_muldiv::products::multiply;
use fixed_muldiv::quotients::quotient;
use machine::Instruction;
use word::pair::{high, low};

// Register k gets an outcome of 16 bits.
pub(crate) fn single_outcome(before: Before, k: u16, s: Outcome<u16>) -> Work
    ensures { (regs : List ℕ) (sw : ℕ) → worked regs result ≡ single_outcome (context regs sw before.pi) before.n k s }
{
    before.into_registers(Registers::One(k, s.value), s.cs, fixed_overflow(s.overflow))
}

// Registers k and k + 1 get one of 32 bits.
pub(crate) fn double_outcome(before: Before, k: u16, d: Outcome<u32>) -> Work
    ensures { (regs : List ℕ) (sw : ℕ) → worked regs result ≡ double_outcome (context regs sw before.pi) before.n k d }
{
    let bits = fixed_overflow(d.overflow);
    let pair = Registers::Two(k, high(d.value), low(d.value));
    before.into_registers(pair, d.cs, bits)
}

// The memory word gets one of 16 bits.
pub(crate) fn memory_outcome(before: Before, s: Outcome<u16>) -> Work
    ensures { (regs : List ℕ) (sw : ℕ) → worked regs result ≡ memory_outcome (context regs sw before.pi) before.n s }
{
    before.modified(s.value, s.cs, fixed_overflow(s.overflow))
}

// Registers k and k + 1 get a quotient and its remainder.
pub(crate) fn quotient_outcome(before: Before, k: u16, q: Quotient<u16>) -> Work
    ensures { (regs : List ℕ) (sw : ℕ) → worked regs result ≡ quotient_outcome (context regs sw before.pi) before.n k q }
{
    let bits = fixed_overflow(q.overflow);
    before.into_registers(Registers::Two(k, q.quotient, q.remainder), q.cs, bits)
}

// Sum, difference, product or quotient of a register pair and the double operand, by its paragraph. a is a register's number.
pub(crate) fn combine32(
    operation: u16,
    regs: &[u16; 16],
    a: u16,
    n: Instruction,
    x: u16,
    y: u16,
) -> Outcome<u32>
    requires { a < 16 }
    ensures { result ≡ cond (eqb operation 73) (product 32) (quotient 32) (register_pair regs.now a) (double_operand regs.now n x y) }
{
    let p = pair_at(regs, a);
    let q = double_operand(regs, n, x, y);
    // by the number of its paragraph, as `isa/Execute: executed` goes
    match operation {
        73 => multiply(p, q),
        _ => quotient(p, q),
    }
}
