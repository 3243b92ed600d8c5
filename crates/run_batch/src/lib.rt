// Batches of steps (Scope, "One step"): entries of interrupts, and instructions between two choices of an interrupt; their ticks are made at once.
#![tactic(auto)]

ghost use Rattle.std.specs.Prelude.{◌≡◌, false, cond, List, ◌≢◌, ℕ, ◌+◌, ◌-◌, ◌*◌, ◌/◌, ◌<◌, ◌≤◌, length, get_or};
ghost use Rattle.machine.specs.declared.State.{State};
ghost use Rattle.machine.specs.State.{joined, with_processor, with_clock};
ghost use Rattle.machine.specs.Machine.{Became, machine};
ghost use Rattle.machine.specs.Entries.{chosen};
ghost use Rattle.machine.specs.Instructions as spec;
ghost use Rattle.machine.specs.Step.{begun_from, perform, ticked};
ghost use Rattle.machine.specs.Runs.{steps};
ghost use Rattle.isa.specs.Fields.{field_a};
ghost use Rattle.isa.specs.Commands.{timer_command};
ghost use Rattle.isa.specs.Mil1750.{mil1750};
ghost use Rattle.form_table.specs.FormNumbers.{numbers};
ghost use Rattle.clock.specs.Deferred.{after_ticks, ticked_by, longest_of};
ghost use Rattle.run_batch.specs.Batch.{last_of, Made};

use addressing::fields::field_a;
use clock::deferred::{deferrable, tick_by};
use clock::durations::{duration_of, entry_duration};
use clock::time::{elapse, expire, pend, release};
use command::timers::timer_command;
use instruction::instruct;
use instruction_retired::{Retired, TimerCommand};
use interrupt_entry::{arrive, link};
use interrupt_vector::pending::choose;
use interrupt_vector::pointers::vector;
use machine::{Clock, Core};
use status_word::{group_of, key_of};

// The entry of interrupt n up to its tick, with any registers and ports, whatever the rest of the state is.
fn interrupted(core: Core, memory: &mut [u16], pages: &[u16; 512], n: u16) -> Core
    requires { n < 16 }
    ensures { (s : State) (regs ports : List ℕ) → Became (perform (begun_from (with_processor s (joined core regs))) memory.old pages.now ports (spec.enter n))
        (with_processor s (joined result regs)) memory.new pages.now ports }
{
    let v = vector(memory, pages, n);
    let old = release(core);
    let stores = link(old.mk, old.sw, old.ic, memory, pages, v.sw, v.link);
    arrive(old, n, v, stores)
}

// A segment of a batch, an entry or instructions in a row, where it ended, before its last tick: the ticks deferred up to there, one for each step of the batch, and
// their tenths together; a timer command that is still to be done.
#[derive(Clone, Copy)]
pub struct Segment {
    pub core: Core,
    pub deferred: u32,
    pub tenths: u64,
    pub timer: Option<TimerCommand>,
}

// Where a segment ends at the latest, as a number of deferred ticks: after one step, where the hold mark was set, since it hid the choice of an interrupt.
fn end_of(held: bool, from: u32, most: u32) -> u32
    requires { from < most }
    ensures { (result ≡ cond held (from + 1) most) × (from < result) × (result ≤ most) × (from + 1 < result → held ≡ false) }
{
    if held { from + 1 } else { most }
}

// After an instruction.
fn ended(retired: Retired, deferred: u32, tenths: u64) -> Segment
    ensures { result ≡ record { core = retired.core; deferred = deferred; tenths = tenths; timer = retired.timer } }
{
    Segment {
        core: retired.core,
        deferred,
        tenths,
        timer: retired.timer,
    }
}

// Steps that run instructions, as long as the choice of an interrupt stays: before the first there is none.
fn obey(
    core: Core,
    from: u32,
    spent: u64,
    most: u32,
    regs: &mut [u16; 16],
    memory: &mut [u16],
    pages: &mut [u16; 512],
    ports: &mut [u16; 1024],
    table: &[u32; 256],
    durations: &[u16; 257],
) -> Segment
    requires { (table.now ≡ numbers) × (from < most) × (16 ≤ chosen core) × (longest_of durations.now < 65536) × (spent ≤ longest_of durations.now * from) }
    ensures { Made durations.now from spent most core regs.old memory.old pages.old ports.old
        result regs.new memory.new pages.new ports.new }
{
    let key = key_of(core.sw);
    let group = group_of(core.sw);
    let end = end_of(core.hold, from, most);
    let mut t = release(core);
    let mut deferred = from;
    let mut tenths = spent;
    // no index is counted: it ends by what a call gives back
    loop {
        let retired = instruct(
            t,
            key,
            group,
            regs,
            memory,
            pages,
            ports,
            table,
            durations,
            &mut tenths,
        );
        t = retired.core;
        deferred += 1;
        if !retired.settled {
            return ended(retired, deferred, tenths);
        }
        if end <= deferred {
            return ended(retired, deferred, tenths);
        }
    }
}

// A segment: the entry of an interrupt, or instructions.
fn next_segment(
    core: Core,
    deferred: u32,
    tenths: u64,
    most: u32,
    regs: &mut [u16; 16],
    memory: &mut [u16],
    pages: &mut [u16; 512],
    ports: &mut [u16; 1024],
    table: &[u32; 256],
    durations: &[u16; 257],
) -> Segment
    requires { (table.now ≡ numbers) × (deferred < most) × (longest_of durations.now < 65536) × (tenths ≤ longest_of durations.now * deferred) }
    ensures { Made durations.now deferred tenths most core regs.old memory.old pages.old ports.old
        result regs.new memory.new pages.new ports.new }
{
    match choose(core.hold, core.enabled, core.mk, core.pi) {
        Some(n) => Segment {
            core: interrupted(core, memory, pages, n),
            deferred: deferred + 1,
            tenths: tenths + entry_duration(durations),
            timer: None,
        },
        None => obey(
            core, deferred, tenths, most, regs, memory, pages, ports, table, durations,
        ),
    }
}

// Some steps that are due: the core and the clock before them, and how many are left.
#[derive(Clone, Copy)]
pub struct Rest {
    pub core: Core,
    pub clock: Clock,
    pub left: u32,
}

// The end of a batch: `deferred` of the n steps are made, over so many tenths, and none of their ticks is. They are made at once.
fn finish(core: Core, clock: Clock, deferred: u32, tenths: u64, n: u32) -> Rest
    requires { deferred ≤ n }
    ensures { (result.left ≡ n - deferred) × ((s : State) (regs : List ℕ) → with_clock (with_processor s (joined result.core regs)) result.clock
        ≡ ticked_by deferred tenths (with_clock (with_processor s (joined core regs)) clock)) }
{
    Rest {
        core: pend(core, expire(clock, tenths)),
        clock: tick_by(clock, deferred, tenths),
        left: n - deferred,
    }
}

// The end of a batch whose last step is a timer command: the clock is brought up to date but for the last tick, then the command is done, then comes the last tick.
fn finish_command(
    clock: Clock,
    regs: &mut [u16; 16],
    made: Segment,
    timer: TimerCommand,
    durations: &[u16; 257],
    n: u32,
) -> Rest
    requires { (0 < made.deferred) × (made.deferred ≤ n) × (last_of durations.now timer ≤ made.tenths) }
    ensures { (result.left ≡ n - made.deferred) × ((s : State) → with_clock (with_processor s (joined result.core regs.new)) result.clock
        ≡ ticked (last_of durations.now timer) (timer_command (with_clock (with_processor s (joined made.core regs.old))
        (after_ticks (made.deferred - 1) (made.tenths - last_of durations.now timer) clock)) (field_a timer.first) timer.command)) }
{
    let last = duration_of(durations, timer.first);
    let current = tick_by(clock, made.deferred - 1, made.tenths - last);
    let set = timer_command(current, regs, field_a(timer.first), timer.command);
    Rest {
        core: pend(made.core, expire(set, last)),
        clock: elapse(set, last),
        left: n - made.deferred,
    }
}

// A batch, the first of the steps that are due: as many as there are until a timer may pass its end or a timer command is made. Their ticks are made at once. No step is
// longer than the longest.
pub fn batch(
    due: Rest,
    regs: &mut [u16; 16],
    memory: &mut [u16],
    pages: &mut [u16; 512],
    ports: &mut [u16; 1024],
    table: &[u32; 256],
    durations: &[u16; 257],
    longest: u32,
) -> Rest
    requires { (table.now ≡ numbers) × (0 < due.left) × (longest ≡ longest_of durations.now) × (0 < longest) × (longest < 65536) }
    ensures { (result.left < due.left) × ((s : State)
        → steps mil1750 durations.now due.left
        (machine (with_clock (with_processor s (joined due.core regs.old)) due.clock) memory.old pages.old ports.old)
        ≡ steps mil1750 durations.now result.left
        (machine (with_clock (with_processor s (joined result.core regs.new)) result.clock) memory.new pages.new ports.new)) }
{
    let most = deferrable(due.clock, longest, due.left - 1) + 1;
    let mut t = due.core;
    let mut deferred = 0;
    let mut tenths = 0;
    // no index is counted: it ends by what a call gives back
    loop {
        let made = next_segment(
            t, deferred, tenths, most, regs, memory, pages, ports, table, durations,
        );
        t = made.core;
        deferred = made.deferred;
        tenths = made.tenths;
        if let Some(timer) = made.timer {
            return finish_command(due.clock, regs, made, timer, durations, due.left);
        }
        if most <= deferred {
            return finish(t, due.clock, deferred, tenths, due.left);
        }
    }
}
