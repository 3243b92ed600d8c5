// What an instruction comes to: the core after it, whether the choice of an interrupt stays as it was, and a timer command that is still to be done.
#![tactic(auto)]

ghost use Rattle.std.specs.Prelude.{◌≡◌, false, ℕ, eqb};
ghost use Rattle.machine.specs.Step.{faulted};
ghost use Rattle.instruction_retired.specs.Settled.{retired_with};

use clock::time::fault;
use machine::Core;
use page::Refusal;

// A timer command that is still to be done, with the first word of its instruction.
#[derive(Clone, Copy)]
pub struct TimerCommand {
    pub command: u16,
    pub first: u16,
}

// The core after an instruction. Where it is settled, no other interrupt is to be chosen than before, by the same key and address state; it does not
// have to be (`Lasting`). A timer command is handed back undone: an instruction has no clock.
#[derive(Clone, Copy)]
pub struct Retired {
    pub settled: bool,
    pub timer: Option<TimerCommand>,
    pub core: Core,
}

// After anything but a user's operation that leaves PI.
pub fn unsettled(core: Core) -> Retired
    ensures { result ≡ retired_with false core }
{
    Retired {
        settled: false,
        timer: None,
        core,
    }
}

// After a user's operation: it is settled where PI is what it was.
pub fn weighed(pi: u16, core: Core) -> Retired
    ensures { result ≡ retired_with (eqb core.pi pi) core }
{
    Retired {
        settled: core.pi == pi,
        timer: None,
        core,
    }
}

// A fault, and IC is left at a; PI has changed, so the choice of an interrupt is made again.
pub fn deny(core: Core, b: Refusal, a: u16) -> Retired
    ensures { result ≡ retired_with false (faulted core b a) }
{
    unsettled(fault(core, b, a))
}
