// The timer commands of XIO (5.1): TAS TAH OTA TBS TBH OTB, ITA ITB. Of the instructions they alone see and set the clock.
ghost use Rattle.std.specs.Prelude.{◌≡◌};
ghost use Rattle.machine.specs.declared.State.{State};
ghost use Rattle.machine.specs.declared.Core.{Core};
ghost use Rattle.machine.specs.State.{joined, with_processor, with_clock, with_ta, with_tb, with_rem_a, with_rem_b, with_ta_on, with_tb_on};
ghost use Rattle.isa.specs.Commands.{is_timer, timer_command};

use addressing::fields::{get, put};
use machine::Clock;

// Whether a command is one of them.
#[tactic(auto, using(std::proofs::lemmas::Bool::Decides::nat_tests), unfolding(isa::specs::Commands::is_timer))]
pub fn is_timer(command: u16) -> bool
    ensures { result ≡ is_timer command }
{
    // by the standard's word, as `isa/Commands` goes
    match command {
        0x4008..=0x400A | 0x400C..=0x400E | 0xC00A | 0xC00E => true,
        _ => false,
    }
}

// Timer A, its remainder, and whether it runs.
#[tactic(auto, unfolding(machine::specs::State::with_ta, machine::specs::State::with_rem_a, machine::specs::State::with_ta_on))]
fn set_timer_a(clock: Clock, ta: u16, remainder: u16, on: bool) -> Clock
    ensures { result ≡ with_ta_on (with_rem_a (with_ta clock ta) remainder) on }
{
    Clock {
        ta,
        rema: remainder,
        taon: on,
        ..clock
    }
}

// Timer B, its remainder, and whether it runs.
#[tactic(auto, unfolding(machine::specs::State::with_tb, machine::specs::State::with_rem_b, machine::specs::State::with_tb_on))]
fn set_timer_b(clock: Clock, tb: u16, remainder: u16, on: bool) -> Clock
    ensures { result ≡ with_tb_on (with_rem_b (with_tb clock tb) remainder) on }
{
    Clock {
        tb,
        remb: remainder,
        tbon: on,
        ..clock
    }
}

// A timer command with register k for RA, with any core; any other number leaves clock and registers.
pub fn timer_command(clock: Clock, regs: &mut [u16; 16], k: u16, command: u16) -> Clock
    ensures { (s : State) (core : Core) → with_clock (with_processor s (joined core regs.new)) result
        ≡ timer_command (with_clock (with_processor s (joined core regs.old)) clock) k command }
{
    // by the standard's word, as `isa/Commands` goes
    match command {
        0x4008 => set_timer_a(clock, clock.ta, clock.rema, true),
        0x4009 => set_timer_a(clock, clock.ta, clock.rema, false),
        0x400A => set_timer_a(clock, get(regs, k), 0, true),
        0x400C => set_timer_b(clock, clock.tb, clock.remb, true),
        0x400D => set_timer_b(clock, clock.tb, clock.remb, false),
        0x400E => set_timer_b(clock, get(regs, k), 0, true),
        0xC00A => {
            put(regs, k, clock.ta);
            clock
        }
        0xC00E => {
            put(regs, k, clock.tb);
            clock
        }
        _ => clock,
    }
}
