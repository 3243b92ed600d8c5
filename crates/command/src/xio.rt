// XIO's commands (5.1), for the core at the next instruction. Those below 8000 are outputs: they take the contents of RA and leave the
// registers; the others are inputs: they set RA and leave page registers and ports.
ghost use Rattle.std.specs.Prelude.{◌≡◌, false, List, ℕ, ◌<◌, ◌≤◌, length};
ghost use Rattle.machine.specs.declared.Instruction.{Instruction};
ghost use Rattle.machine.specs.declared.State.{State};
ghost use Rattle.machine.specs.State.{joined, with_processor};
ghost use Rattle.isa.specs.Fields.{field_a, with_register};
ghost use Rattle.isa.specs.Commands.{core_command, is_timer, commanded};
ghost use Rattle.command.specs.Transfer.{governed, Kept};

use addressing::fields::{field_a, put};
use bits::bits::reset_bit;
use command_core::{
    clear_pending, hold_pending, reset_pending, set_enabled, set_mask, set_pending, set_status,
};
use machine::{Core, Instruction};
use page::Refusal;

// The outputs to the core: SMK CLIR ENBL DSBL RPI SPI WSW.
fn core_output(core: Core, ra: u16, command: u16) -> Result<Core, Refusal>
    requires { command < 0x8000 }
    ensures { (s : State) (regs g o : List ℕ) (n : Instruction) → governed s result regs g o ≡ core_command (with_processor s (joined core regs)) g o n ra command }
{
    // by the standard's word, as `isa/Commands` goes
    match command {
        0x2000 => Ok(set_mask(core, ra)),
        0x2001 => Ok(clear_pending(core)),
        0x2002 => Ok(set_enabled(core, true, true)),
        0x2003 => Ok(set_enabled(core, false, core.hold)),
        0x2004 => Ok(reset_pending(core, ra % 16)),
        0x2005 => Ok(hold_pending(core, ra)),
        0x200E => Ok(set_status(core, ra)),
        _ => Err(Refusal { ft: 0x0400, mfs: 0 }),
    }
}

// All outputs: PO WIPR WOPR by their ranges, and between them those to the core.
pub(crate) fn output(
    core: Core,
    pages: &mut [u16; 512],
    ports: &mut [u16; 1024],
    ra: u16,
    command: u16,
) -> Result<Core, Refusal>
    requires { (command < 0x8000) × (is_timer command ≡ false) }
    ensures { ((s : State) (regs : List ℕ) (n : Instruction)
        → governed s result regs pages.new ports.new ≡ commanded (with_processor s (joined core regs)) pages.old ports.old n ra command)
        × Kept result pages.old pages.new × Kept result ports.old ports.new }
{
    if command <= 0x03FF {
        ports[command as usize] = ra;
        return Ok(core);
    }
    if command <= 0x50FF {
        return core_output(core, ra, command);
    }
    let page = (command % 256) as usize;
    if command <= 0x51FF {
        pages[page] = ra;
        return Ok(core);
    }
    if command <= 0x52FF {
        pages[256 + page] = ra;
        return Ok(core);
    }
    core_output(core, ra, command)
}

// RA gets the word x.
fn take(regs: &mut [u16; 16], n: Instruction, x: u16)
    ensures { regs.new ≡ with_register regs.old (field_a n.first) x }
{
    put(regs, field_a(n.first), x);
}

// The inputs from the core: RMK RPIR RMFS RSW RCFR.
fn core_input(core: Core, regs: &mut [u16; 16], n: Instruction) -> Result<Core, Refusal>
    requires { 0x8000 ≤ n.address }
    ensures { ((s : State) (g o : List ℕ) (ra : ℕ) → governed s result regs.new g o ≡ core_command (with_processor s (joined core regs.old)) g o n ra n.address)
        × Kept result regs.old regs.new }
{
    let command = n.address;
    // by the standard's word, as `isa/Commands` goes
    match command {
        0xA000 => {
            take(regs, n, core.mk);
            Ok(core)
        }
        0xA004 => {
            take(regs, n, core.pi);
            Ok(core)
        }
        0xA00D => {
            take(regs, n, core.faults.mfs);
            Ok(core)
        }
        0xA00E => {
            take(regs, n, core.sw);
            Ok(core)
        }
        0xA00F => {
            take(regs, n, core.faults.ft);
            Ok(set_pending(core, reset_bit(core.pi, 1), 0))
        }
        _ => Err(Refusal { ft: 0x0400, mfs: 0 }),
    }
}

// All inputs: PI RIPR ROPR by their ranges, and between them those from the core.
pub(crate) fn input(
    core: Core,
    regs: &mut [u16; 16],
    pages: &[u16; 512],
    ports: &[u16; 1024],
    n: Instruction,
) -> Result<Core, Refusal>
    requires { (0x8000 ≤ n.address) × (is_timer n.address ≡ false) }
    ensures { ((s : State) (ra : ℕ) → governed s result regs.new pages.now ports.now
        ≡ commanded (with_processor s (joined core regs.old)) pages.now ports.now n ra n.address)
        × Kept result regs.old regs.new }
{
    if n.address <= 0x83FF {
        take(regs, n, ports[(n.address % 1024) as usize]);
        return Ok(core);
    }
    if n.address <= 0xD0FF {
        return core_input(core, regs, n);
    }
    let page = (n.address % 256) as usize;
    if n.address <= 0xD1FF {
        take(regs, n, pages[page]);
        return Ok(core);
    }
    if n.address <= 0xD2FF {
        take(regs, n, pages[256 + page]);
        return Ok(core);
    }
    core_input(core, regs, n)
}
