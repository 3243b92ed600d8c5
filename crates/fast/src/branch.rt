// On by CS: JC, BR BEZ BLT BLE BGT BNZ BGE (5.24, 5.27 to 5.29, 5.31 to 5.34).
ghost use Rattle.std.specs.Prelude.{◌≡◌, ℕ, List, Ok};
ghost use Rattle.decode.specs.Forms.{operation_of};
ghost use Rattle.machine.specs.State.{joined};
ghost use Rattle.form_table.specs.FormNumbers.{path_of, branch_path};
ghost use Rattle.fast_accumulate.specs.Paths.{is_taken};
ghost use Rattle.fast_accumulate.specs.Ended.{Ended};

use addressing::fields::field_a;
use effect::{cs_of, following};
use fast_accumulate::Ending;
use fast_accumulate::finish::done;
use machine::{Core, Instruction};
use word::condition::{branches, taken};

// Whether it goes on at its derived address.
fn is_taken(n: Instruction, cs: u16) -> bool
    ensures { result ≡ is_taken n cs }
{
    let operation = n.form % 256;
    if operation == 24 {
        return taken(field_a(n.first), cs);
    }
    branches(operation, cs)
}

// The operation of the instruction n, whose path is `branch_path`, with any registers, memory and page registers.
pub(crate) fn branch(core: Core, n: Instruction) -> Ending
    requires { path_of (operation_of n.form) ≡ branch_path }
    ensures { (regs memory pages : List ℕ) → Ended (joined core regs) memory pages n (Ok result) regs memory }
{
    let cs = cs_of(core.sw);
    if is_taken(n, cs) {
        return done(core, n.address, cs, 0);
    }
    done(core, following(n), cs, 0)
}
