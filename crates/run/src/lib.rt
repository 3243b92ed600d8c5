// Runs (Scope, "Questions at the door"): the questions, then exactly as many steps as the budget says.
#![tactic(auto)]

ghost use Rattle.std.specs.Prelude.{◌≡◌, length};
ghost use Rattle.machine.specs.declared.State.{State};
ghost use Rattle.machine.specs.State.{joined, with_processor, with_clock};
ghost use Rattle.machine.specs.Machine.{Became, machine};
ghost use Rattle.machine.specs.Runs.{run_of, number_of, admission, answer_of, answer_in, state_in, steps, left};
ghost use Rattle.isa.specs.Mil1750.{mil1750};
ghost use Rattle.form_table.specs.FormNumbers.{numbers};

use clock::durations::longest;
use machine::{Clock, Core, RunError, State, check_sizes};
use run_batch::{Rest, batch};

// The steps that are due: none is left.
fn run_steps(
    due: Rest,
    regs: &mut [u16; 16],
    memory: &mut [u16],
    pages: &mut [u16; 512],
    ports: &mut [u16; 1024],
    table: &[u32; 256],
    durations: &[u16; 257],
) -> Rest
    requires { table.now ≡ numbers }
    ensures { (s : State) → Became (steps mil1750 durations.now due.left (machine (with_clock (with_processor s (joined due.core regs.old)) due.clock) memory.old pages.old ports.old))
        (with_clock (with_processor s (joined result.core regs.new)) result.clock) memory.new pages.new ports.new }
{
    let longest = longest(durations);
    let mut rest = due;
    // no index is counted: it ends by what a batch leaves
    while 0 < rest.left {
        rest = batch(rest, regs, memory, pages, ports, table, durations, longest);
    }
    rest
}

// The questions before a run, in their order.
fn ask(
    memory: usize,
    pages: usize,
    ports: usize,
    durations: usize,
    count: u32,
    budget: u32,
) -> Result<(), RunError>
    ensures { result ≡ admission memory pages ports durations count budget }
{
    check_sizes(memory, pages, ports)?;
    if durations != 257 {
        return Err(RunError::BadDurations);
    }
    if 1000000 < budget {
        return Err(RunError::BadBudget);
    }
    if count.checked_add(budget).is_none() {
        return Err(RunError::BadCounter);
    }
    Ok(())
}

// The Scope's number of an answer; 0: the budget is spent.
#[tactic(auto, unfolding(machine::specs::Runs::number_of))]
pub fn number(answer: Result<(), RunError>) -> u16
    ensures { result ≡ number_of answer }
{
    match answer {
        Ok(()) => 0,
        Err(RunError::BadSize(size)) => size.number(),
        Err(RunError::BadDurations) => 17,
        Err(RunError::BadBudget) => 4,
        Err(RunError::BadCounter) => 5,
    }
}

// A run: refused, with nothing changed and no state but the given one, or exactly its budget of steps, each of which takes its duration.
pub fn run(
    state: State,
    memory: &mut [u16],
    pages: &mut [u16],
    ports: &mut [u16],
    durations: &[u16],
    budget: u32,
) -> Result<State, RunError>
    ensures { (answer_in result ≡ answer_of (machine state memory.old pages.old ports.old) (run_of budget durations.now))
        × Became (left mil1750 (machine state memory.old pages.old ports.old) (run_of budget durations.now))
        (state_in result state) memory.new pages.new ports.new }
{
    let core = state.core;
    let clock = state.clock;
    ask(
        memory.len(),
        pages.len(),
        ports.len(),
        durations.len(),
        clock.count,
        budget,
    )?;
    let table = form_table::table();
    let mut regs = state.regs;
    let due = Rest {
        core,
        clock,
        left: budget,
    };
    // `ask` has counted them
    let pages = pages.as_mut_array::<512>().unwrap();
    let ports = ports.as_mut_array::<1024>().unwrap();
    let durations = <&[u16; 257]>::try_from(durations).unwrap();
    let last = run_steps(due, &mut regs, memory, pages, ports, &table, durations);
    Ok(State {
        regs,
        core: last.core,
        clock: last.clock,
        ..state
    })
}
