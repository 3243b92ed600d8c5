// How an operation with a fast path ends.
ghost use Rattle.std.specs.Prelude.{◌≡◌, List, ℕ};
ghost use Rattle.std.specs.Int.Bits.{bit_or};
ghost use Rattle.machine.specs.State.{joined};
ghost use Rattle.machine.specs.Machine.{Effect};
ghost use Rattle.machine.specs.Step.{affected};
ghost use Rattle.fast_accumulate.specs.Ended.{ended_core};

use crate::Ending;
use machine::Core;
use status_word::with_cs;

// It is done: IC and CS are set and PI bits added, as by any effect that does so, whatever the registers were.
pub fn done(core: Core, ic: u16, cs: u16, bits: u16) -> Ending
    ensures { (regs : List ℕ) (e : Effect) → e.ic ≡ ic → e.cs ≡ cs → e.pi ≡ bit_or core.pi bits
        → joined (ended_core core result) e.regs ≡ affected (joined core regs) e }
{
    Ending {
        ic,
        sw: with_cs(core.sw, cs),
        pi: core.pi | bits,
    }
}
