// The parts of the core that a privileged operation sets.
#![tactic(auto)]

ghost use Rattle.std.specs.Prelude.{◌≡◌, true, ◌<◌};
ghost use Rattle.machine.specs.State.{with_sw, with_mk, with_pi, with_ft, with_mfs, with_enabled, with_hold};
ghost use Rattle.isa.specs.Commands.{resumed, pending_reset, status_loaded};

use bits::bits::reset_bit;
use machine::{Core, Faults, Instruction};

// IC is that of the next instruction.
#[tactic(auto, unfolding(isa::specs::Commands::resumed, machine::specs::State::with_ic))]
pub fn resume(core: Core, n: Instruction) -> Core
    ensures { result ≡ resumed core n }
{
    Core {
        ic: effect::following(n),
        ..core
    }
}

// LST: MK, SW and IC.
#[tactic(auto, unfolding(isa::specs::Commands::status_loaded, machine::specs::State::with_ic, machine::specs::State::with_sw, machine::specs::State::with_mk))]
pub fn load_status(core: Core, mk: u16, sw: u16, ic: u16) -> Core
    ensures { result ≡ status_loaded core mk sw ic }
{
    Core { mk, sw, ic, ..core }
}

// SMK: MK.
#[tactic(auto, unfolding(machine::specs::State::with_mk))]
pub fn set_mask(core: Core, mk: u16) -> Core
    ensures { result ≡ with_mk core mk }
{
    Core { mk, ..core }
}

// WSW: SW.
#[tactic(auto, unfolding(machine::specs::State::with_sw))]
pub fn set_status(core: Core, sw: u16) -> Core
    ensures { result ≡ with_sw core sw }
{
    Core { sw, ..core }
}

// PI and FT; the memory fault status stays.
#[tactic(auto, unfolding(machine::specs::State::with_pi, machine::specs::State::with_ft, machine::specs::State::with_faults))]
pub fn set_pending(core: Core, pi: u16, ft: u16) -> Core
    ensures { result ≡ with_ft (with_pi core pi) ft }
{
    Core {
        pi,
        faults: Faults { ft, ..core.faults },
        ..core
    }
}

// CLIR: PI, FT and the memory fault status are cleared.
#[tactic(auto, unfolding(machine::specs::State::with_pi, machine::specs::State::with_ft, machine::specs::State::with_mfs, machine::specs::State::with_faults))]
pub fn clear_pending(core: Core) -> Core
    ensures { result ≡ with_mfs (with_ft (with_pi core 0) 0) 0 }
{
    Core {
        pi: 0,
        faults: Faults { ft: 0, mfs: 0 },
        ..core
    }
}

// SPI: PI, with the hold mark set.
#[tactic(auto, unfolding(machine::specs::State::with_pi, machine::specs::State::with_hold))]
pub fn hold_pending(core: Core, pending: u16) -> Core
    ensures { result ≡ with_hold (with_pi core pending) true }
{
    Core {
        pi: pending,
        hold: true,
        ..core
    }
}

// RPI: PI bit k is cleared, and for k = 1 FT too. A command's k is a field of four bits.
#[tactic(auto, using(std::proofs::lemmas::Bool::Decides::nat_tests), unfolding(isa::specs::Commands::pending_reset, machine::specs::State::with_pi, machine::specs::State::with_ft, machine::specs::State::with_faults))]
pub fn reset_pending(core: Core, k: u16) -> Core
    requires { k < 16 }
    ensures { result ≡ pending_reset core k }
{
    let pi = reset_bit(core.pi, k);
    if k == 1 {
        return set_pending(core, pi, 0);
    }
    set_pending(core, pi, core.faults.ft)
}

// Interrupts enabled, and the hold mark. All parts are written: a copy of the others in between would wait for them (docs/BENCHMARK.md, "Sizes").
#[tactic(auto, unfolding(machine::specs::State::with_enabled, machine::specs::State::with_hold))]
pub fn set_enabled(core: Core, enabled: bool, hold: bool) -> Core
    ensures { result ≡ with_hold (with_enabled core enabled) hold }
{
    let faults = core.faults;
    Core {
        ic: core.ic,
        pi: core.pi,
        sw: core.sw,
        faults,
        mk: core.mk,
        enabled,
        hold,
    }
}
