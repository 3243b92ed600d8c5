// Loads (5.38, 5.39, 5.41 to 5.43).
ghost use Rattle.std.specs.Prelude.{◌≡◌, ◌≢◌};
ghost use Rattle.decode.specs.Forms.{operation_of};
ghost use Rattle.isa.specs.Words.{load_operation};
ghost use Rattle.effect.specs.Work.{seen, worked};

use addressing::fields::{field_a, get};
use addressing::modes::operand_of;
use bits::bytes::{load_lower, load_upper};
use effect::{Before, Registers, Work};
use float::mantissa::status;
use float::packing::mantissa40;

// L DL EFL LUB LLB; x, y and z are the words read.
pub fn load_operation(regs: &[u16; 16], before: Before, x: u16, y: u16, z: u16) -> Work
    requires { (operation_of before.n.form ≢ 38) × (operation_of before.n.form ≢ 39) }
    ensures { worked regs.now result ≡ load_operation (seen regs.now before) before.n x y z (operation_of before.n.form) }
{
    let n = before.n;
    let a = field_a(n.first);
    let operation = n.form % 256;
    // by the number of its paragraph, as `isa/Execute: executed` goes
    match operation {
        41 => before.into_registers(
            Registers::Three(a, x, y, z),
            status(40, mantissa40(x, y, z).bits),
            0,
        ),
        42 => before.single(a, load_upper(get(regs, a), operand_of(regs, n, x))),
        43 => before.single(a, load_lower(get(regs, a), operand_of(regs, n, x))),
        _ => before.nothing(),
    }
}
