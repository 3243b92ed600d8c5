// Jumps and branches (5.24 to 5.37, without BEX and LST).
ghost use Rattle.std.specs.Prelude.{◌≡◌, ℕ, List, if◌then◌else◌, ◌≢◌, nat_eq};
ghost use Rattle.decode.specs.Forms.{operation_of};
ghost use Rattle.machine.specs.Machine.{next_of};
ghost use Rattle.isa.specs.Words.{called, subtracted_and_jumped, jump_operation};
ghost use Rattle.effect.specs.Work.{context, seen, worked};

use addressing::fields::{field_a, get, less};
use effect::{Before, Registers, Work, cs_of, following};
use machine::Instruction;
use std::num::wrapping_add_u16;
use word::condition::branches;
use word::status::status;

// RA gets a word, x is stored, on to the address a.
fn called(before: Before, ra: u16, x: u16, a: u16) -> Work
    ensures { (regs : List ℕ) → worked regs result ≡ called (seen regs before) before.n ra x a }
{
    let r = Registers::One(field_a(before.n.first), ra);
    before.effect(r, a, cs_of(before.sw), 0, [x, 0, 0])
}

// The derived address, or the next instruction's where ra is zero.
fn unless_zero(n: Instruction, ra: u16) -> u16
    ensures { result ≡ (if nat_eq ra 0 then next_of n else n.address) }
{
    if ra == 0 {
        return following(n);
    }
    n.address
}

// SOJ: RA gets ra, its old value less one; on to the derived address unless that is zero (5.26).
fn subtracted_and_jumped(before: Before, ra: u16) -> Work
    ensures { (regs : List ℕ) (sw : ℕ) → worked regs result ≡ subtracted_and_jumped (context regs sw before.pi) before.n ra }
{
    let r = Registers::One(field_a(before.n.first), ra);
    before.effect(r, unless_zero(before.n, ra), status(ra), 0, [0, 0, 0])
}

// JC JS SOJ, BR BEZ BLT BLE BGT BNZ BGE, SJS URS; x is the word read.
pub fn jump_operation(regs: &[u16; 16], before: Before, x: u16) -> Work
    requires { (operation_of before.n.form ≢ 25) → (operation_of before.n.form ≢ 26) → (operation_of before.n.form ≢ 36) → operation_of before.n.form ≡ 37 }
    ensures { worked regs.now result ≡ jump_operation (seen regs.now before) before.n x (operation_of before.n.form) }
{
    let n = before.n;
    let a = field_a(n.first);
    let operation = n.form % 256;
    // by the number of its paragraph, as `isa/Execute: executed` goes
    match operation {
        25 => called(before, following(n), 0, n.address),
        26 => subtracted_and_jumped(before, less(get(regs, a), 1)),
        36 => called(before, less(get(regs, a), 1), following(n), n.address),
        _ => called(before, wrapping_add_u16(get(regs, a), 1), 0, x),
    }
}
