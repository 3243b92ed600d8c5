// Shifts (5.10 to 5.23).
ghost use Rattle.std.specs.Prelude.{◌≡◌, List, ℕ, ◌<◌};
ghost use Rattle.decode.specs.Forms.{operation_of};
ghost use Rattle.isa.specs.Words.{shifted_single, shifted_double, shift_operation};
ghost use Rattle.effect.specs.Work.{context, seen, worked};

use addressing::fields::{field_a, field_b, get, pair_at};
use effect::{Before, Registers, Work, fixed_overflow};
use shift::Shifted;
use shift::counted::{arithmetic, circular, logical};
use shift::places::{arith, cyclic, left, right};
use word::pair::{high, low};
use word::status::status;

// RA after a shift by a count in a register.
fn shifted_single(before: Before, s: Shifted<u16>) -> Work
    ensures { (regs : List ℕ) (sw : ℕ) → worked regs result ≡ shifted_single (context regs sw before.pi) before.n s }
{
    let value = s.value;
    let a = field_a(before.n.first);
    let bits = fixed_overflow(s.overflow);
    before.into_registers(Registers::One(a, value), status(value), bits)
}

// RA and RA + 1 after a shift by a count in a register.
fn shifted_double(before: Before, s: Shifted<u32>) -> Work
    ensures { (regs : List ℕ) (sw : ℕ) → worked regs result ≡ shifted_double (context regs sw before.pi) before.n s }
{
    let value = s.value;
    let a = field_a(before.n.first);
    let bits = fixed_overflow(s.overflow);
    before.into_registers(
        Registers::Two(a, high(value), low(value)),
        status(value),
        bits,
    )
}

// SLL SRL SRA SLC, DSLL DSRL DSRA DSLC, SLR SAR SCR, DSLR DSAR DSCR.
pub fn shift_operation(regs: &[u16; 16], before: Before) -> Work
    ensures { worked regs.now result ≡ shift_operation (seen regs.now before) before.n (operation_of before.n.form) }
{
    let n = before.n;
    let a = field_a(n.first);
    let b = field_b(n.first);
    let rb = get(regs, b);
    let operation = n.form % 256;
    // by the number of its paragraph, as `isa/Execute: executed` goes
    match operation {
        10 => before.single(b, left(rb, a + 1)),
        11 => before.single(b, right(rb, a + 1)),
        12 => before.single(b, arith(rb, a + 1)),
        13 => before.single(b, cyclic(rb, a + 1)),
        14 => before.double(b, left(pair_at(regs, b), a + 1)),
        15 => before.double(b, right(pair_at(regs, b), a + 1)),
        16 => before.double(b, arith(pair_at(regs, b), a + 1)),
        17 => before.double(b, cyclic(pair_at(regs, b), a + 1)),
        18 => shifted_single(before, logical(get(regs, a), rb)),
        19 => shifted_single(before, arithmetic(get(regs, a), rb)),
        20 => shifted_single(before, circular(get(regs, a), rb)),
        21 => shifted_double(before, logical(pair_at(regs, a), rb)),
        22 => shifted_double(before, arithmetic(pair_at(regs, a), rb)),
        23 => shifted_double(before, circular(pair_at(regs, a), rb)),
        _ => before.nothing(),
    }
}
