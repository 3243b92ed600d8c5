// Stores (5.45, 5.46, 5.48, 5.49, 5.51 to 5.53).
ghost use Rattle.std.specs.Prelude.{◌≡◌, ◌≢◌};
ghost use Rattle.decode.specs.Forms.{operation_of};
ghost use Rattle.isa.specs.Words.{store_operation};
ghost use Rattle.effect.specs.Work.{seen, worked};

use addressing::fields::{field_a, get};
use bits::bytes::{store_lower, store_masked, store_upper};
use effect::{Before, Work};

// ST STC DST SRM EFST STUB STLB; x is the word read.
pub fn store_operation(regs: &[u16; 16], before: Before, x: u16) -> Work
    requires { (operation_of before.n.form ≢ 45) × (operation_of before.n.form ≢ 46) × (operation_of before.n.form ≢ 48) }
    ensures { worked regs.now result ≡ store_operation (seen regs.now before) before.n x (operation_of before.n.form) }
{
    let n = before.n;
    let a = field_a(n.first);
    let operation = n.form % 256;
    // by the number of its paragraph, as `isa/Execute: executed` goes
    match operation {
        49 => before.stored(store_masked(x, get(regs, a), get(regs, a + 1)), 0, 0),
        51 => before.stored(get(regs, a), get(regs, a + 1), get(regs, a + 2)),
        52 => before.stored(store_upper(x, get(regs, a)), 0, 0),
        53 => before.stored(store_lower(x, get(regs, a)), 0, 0),
        _ => before.nothing(),
    }
}
