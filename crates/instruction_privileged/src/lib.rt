// The operations that are no user's, XIO, BEX and LST, from their accesses on (Scope, "One step", 2 and 3), on a core and the registers lent
// beside it, whatever the rest of the state is; key and group are those of its SW.
#![tactic(auto)]

ghost use Rattle.std.specs.Prelude.{◌≡◌, false, List, ℕ, ◌/◌, ◌<◌, length};
ghost use Rattle.decode.specs.Forms.{operation_of};
ghost use Rattle.machine.specs.declared.State.{State};
ghost use Rattle.machine.specs.State.{Keyed, joined, with_processor};
ghost use Rattle.machine.specs.Machine.{Became};
ghost use Rattle.machine.specs.Instructions as spec;
ghost use Rattle.machine.specs.Step.{perform};
ghost use Rattle.isa.specs.Commands.{is_timer, transferred};
ghost use Rattle.form_table.specs.FormNumbers.{path_of, xio_path, bex_path, lst_path, number_of};
ghost use Rattle.instruction_retired.specs.Settled.{carrying, Performed};

use clock::time::fault;
use command::timers::is_timer;
use command::transfer;
use command_core::{load_status, resume};
use fast_accumulate::operand::read_operand;
use instruction_retired::{Retired, TimerCommand, deny, unsettled};
use interrupt_entry::{arrive, link};
use interrupt_vector::pointers::call_vector;
use machine::{Core, Instruction};
use status_word::advance;

// XIO, done or refused; the command is none of timers.
fn govern(
    core: Core,
    regs: &mut [u16; 16],
    pages: &mut [u16; 512],
    ports: &mut [u16; 1024],
    n: Instruction,
) -> Core
    requires { is_timer n.address ≡ false }
    ensures { (s : State) (memory : List ℕ) → Became (perform (with_processor s (joined core regs.old)) memory pages.old ports.old
        (spec.supervised n (transferred (with_processor s (joined core regs.old)) pages.old ports.old n)))
        (with_processor s (joined result regs.new)) memory pages.new ports.new }
{
    match transfer(core, regs, pages, ports, n) {
        Ok(t) => t,
        Err(b) => fault(core, b, advance(n.ic, n.form / 4096)),
    }
}

// XIO (5.1) with any memory. A timer command is handed back, from the IC after it.
pub fn command(
    core: Core,
    regs: &mut [u16; 16],
    pages: &mut [u16; 512],
    ports: &mut [u16; 1024],
    n: Instruction,
) -> Retired
    requires { path_of (operation_of n.form) ≡ xio_path }
    ensures { (memory : List ℕ) → Performed (carrying n) core regs.old memory pages.old ports.old
        (n.first / 256) result regs.new memory pages.new ports.new }
{
    if is_timer(n.address) {
        return Retired {
            settled: false,
            timer: Some(TimerCommand {
                command: n.address,
                first: n.first,
            }),
            core: resume(core, n),
        };
    }
    unsettled(govern(core, regs, pages, ports, n))
}

// BEX k (5.30): the entry of interrupt 5 from the IC after it, with any registers and ports.
fn call(core: Core, memory: &mut [u16], pages: &[u16; 512], k: u16) -> Core
    requires { k < 16 }
    ensures { (s : State) (regs ports : List ℕ)
        → Became (perform (with_processor s (joined core regs)) memory.old pages.now ports (spec.call k))
        (with_processor s (joined result regs)) memory.new pages.now ports }
{
    let v = call_vector(memory, pages, k);
    let ic = advance(core.ic, 1);
    let stores = link(core.mk, core.sw, ic, memory, pages, v.sw, v.link);
    arrive(core, 5, v, stores)
}

// BEX (5.30), with any registers and ports.
pub fn executive(core: Core, memory: &mut [u16], pages: &[u16; 512], n: Instruction) -> Retired
    requires { path_of (operation_of n.form) ≡ bex_path }
    ensures { (regs ports : List ℕ) → Performed (carrying n) core regs memory.old pages.now ports
        (n.first / 256) result regs memory.new pages.now ports }
{
    unsettled(call(core, memory, pages, n.first % 16))
}

// LST (5.35), with any ports: its words are read before it changes anything.
pub fn load(
    core: Core,
    key: u16,
    group: u16,
    regs: &[u16; 16],
    memory: &[u16],
    pages: &[u16; 512],
    n: Instruction,
    number: u32,
) -> Retired
    requires { Keyed core.sw key group × (path_of (operation_of n.form) ≡ lst_path) × (number ≡ number_of n.form) }
    ensures { (ports : List ℕ) → Performed (carrying n) core regs.now memory.now pages.now ports
        (n.first / 256) result regs.now memory.now pages.now ports }
{
    match read_operand(key, group, memory, pages, n, number) {
        Ok(words) => unsettled(load_status(core, words.x, words.y, words.z)),
        Err(b) => deny(core, b, advance(n.ic, n.form / 4096)),
    }
}
