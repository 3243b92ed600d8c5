// Single bits (5.3 to 5.9).
ghost use Rattle.std.specs.Prelude.{List, ◌≡◌, ℕ, ◌<◌};
ghost use Rattle.bits.specs.Bits.{set_bit, test_bit};
ghost use Rattle.decode.specs.Forms.{operation_of};
ghost use Rattle.isa.specs.Effects.{modified};
ghost use Rattle.isa.specs.Words.{bit_operation};
ghost use Rattle.effect.specs.Work.{context, seen, worked};

use addressing::fields::{field_a, field_b, get};
use addressing::modes::operand_of;
use bits::bits::{reset_bit, set_bit, test_bit};
use effect::{Before, Work};

// TSB: bit a of the operand o is tested, then set (5.6). Every caller's bit number is a field of four bits.
fn test_and_set(before: Before, o: u16, a: u16) -> Work
    requires { a < 16 }
    ensures { (regs : List ℕ) (sw : ℕ) → worked regs result ≡ modified (context regs sw before.pi) before.n (set_bit o a) (test_bit o a) 0 }
{
    before.modified(set_bit(o, a), test_bit(o, a), 0)
}

// SB RB TB TSB SVBR RVBR TVBR; x is the word read.
pub fn bit_operation(regs: &[u16; 16], before: Before, x: u16) -> Work
    ensures { worked regs.now result ≡ bit_operation (seen regs.now before) before.n x (operation_of before.n.form) }
{
    let n = before.n;
    let a = field_a(n.first);
    let b = field_b(n.first);
    let operation = n.form % 256;
    // by the number of its paragraph, as `isa/Execute: executed` goes
    match operation {
        3 => before.replaced(set_bit(operand_of(regs, n, x), a)),
        4 => before.replaced(reset_bit(operand_of(regs, n, x), a)),
        5 => before.tested(test_bit(operand_of(regs, n, x), a)),
        6 => test_and_set(before, operand_of(regs, n, x), a),
        7 => before.loaded(b, set_bit(get(regs, b), get(regs, a) % 16)),
        8 => before.loaded(b, reset_bit(get(regs, b), get(regs, a) % 16)),
        9 => before.tested(test_bit(get(regs, b), get(regs, a) % 16)),
        _ => before.nothing(),
    }
}
