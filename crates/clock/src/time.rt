// The core after a fault and with the hold mark cleared, and the clock at the end of a step (Scope, "One step", 2, 3 and 6).
ghost use Rattle.std.specs.Prelude.{◌≡◌, ◌+◌, ◌-◌, ◌^◌, ◌<◌, ◌≤◌, ◌&&◌, if◌then◌else◌, bit_or, nat_le};
ghost use Rattle.machine.specs.State.{with_pi};
ghost use Rattle.machine.specs.Step.{released, faulted, rises, remaining, risen, elapsed, expired};

use machine::fault::after_fault;
use machine::{Clock, Core};
use page::Refusal;
use std::num::{wrapping_add_u16, wrapping_add_u32};

// The hold mark is cleared.
#[tactic(auto, unfolding(machine::specs::Step::released, machine::specs::State::with_hold))]
pub fn release(core: Core) -> Core
    ensures { result ≡ released core }
{
    Core {
        hold: false,
        ..core
    }
}

// A fault sets its FT bit and PI bit 1, and leaves IC at a.
#[tactic(auto, unfolding(machine::specs::Step::faulted, machine::specs::State::with_ic, machine::specs::State::with_pi, machine::specs::State::with_faults))]
pub fn fault(core: Core, b: Refusal, a: u16) -> Core
    ensures { result ≡ faulted core b a }
{
    Core {
        ic: a,
        pi: core.pi | 0x4000,
        faults: after_fault(core.faults, b),
        ..core
    }
}

// More PI bits.
#[tactic(auto, unfolding(machine::specs::State::with_pi))]
pub fn pend(core: Core, bits: u16) -> Core
    ensures { result ≡ with_pi core (bit_or core.pi bits) }
{
    Core {
        pi: core.pi | bits,
        ..core
    }
}

// How often a timer rises: by whole units of its remainder and of the tenths that pass. Their own units are counted first, so that no sum is too large.
fn rise_count(unit: u64, remainder: u16, tenths: u64) -> u64
    requires { (2 ≤ unit) × (unit ≤ 1000) }
    ensures { (result ≡ rises unit remainder tenths) × (result < 2 ^ 64 - 65536) }
{
    tenths / unit + (tenths % unit + u64::from(remainder)) / unit
}

// Its remainder after them, where it runs.
#[tactic(auto, using(std::proofs::lemmas::Bool::Decides::nat_tests), unfolding(machine::specs::Step::remaining))]
fn remain(on: bool, unit: u64, remainder: u16, tenths: u64) -> u16
    requires { (0 < unit) × (unit ≤ 1000) }
    ensures { result ≡ remaining on unit remainder tenths }
{
    if on {
        ((tenths % unit + u64::from(remainder)) % unit) as u16
    } else {
        remainder
    }
}

// A timer that rises n times, where it runs.
#[tactic(auto, unfolding(machine::specs::Step::risen, page::specs::Spans::wrapped))]
fn rise(on: bool, t: u16, n: u64) -> u16
    ensures { result ≡ risen on t n }
{
    if on {
        wrapping_add_u16(t, (n % 65536) as u16)
    } else {
        t
    }
}

// The weight of a PI bit where it passes FFFF to 0000, else 0.
fn pass(on: bool, t: u16, n: u64, weight: u16) -> u16
    requires { n < 2 ^ 64 - 65536 }
    ensures { result ≡ (if on && nat_le 65536 (t + n) then weight else 0) }
{
    if on && 65536 <= u64::from(t) + n {
        weight
    } else {
        0
    }
}

// The clock at the end of a step of so many tenths: the counter, then the timers.
#[tactic(auto, unfolding(machine::specs::Step::elapsed, machine::specs::Step::counted))]
pub fn elapse(clock: Clock, tenths: u64) -> Clock
    ensures { result ≡ elapsed tenths clock }
{
    Clock {
        ta: rise(clock.taon, clock.ta, rise_count(100, clock.rema, tenths)),
        tb: rise(clock.tbon, clock.tb, rise_count(1000, clock.remb, tenths)),
        rema: remain(clock.taon, 100, clock.rema, tenths),
        remb: remain(clock.tbon, 1000, clock.remb, tenths),
        count: wrapping_add_u32(clock.count, 1),
        ..clock
    }
}

// The PI bits of the timers that pass their end there.
#[tactic(auto, unfolding(machine::specs::Step::expired, machine::specs::Step::passing))]
pub fn expire(clock: Clock, tenths: u64) -> u16
    ensures { result ≡ expired tenths clock }
{
    let a = rise_count(100, clock.rema, tenths);
    let b = rise_count(1000, clock.remb, tenths);
    pass(clock.taon, clock.ta, a, 0x0100) | pass(clock.tbon, clock.tb, b, 0x0040)
}
