// XIO (5.1), the privileged operation that carries out a command. The timer commands, which see and set the clock, are apart.
#![tactic(auto)]

ghost use Rattle.std.specs.Prelude.{◌≡◌, false, length};
ghost use Rattle.machine.specs.declared.State.{State};
ghost use Rattle.machine.specs.State.{joined, with_processor};
ghost use Rattle.isa.specs.Commands.{is_timer, transferred};
ghost use Rattle.command.specs.Transfer.{governed, Kept};

use addressing::fields::{field_a, get};
use machine::{Core, Instruction};
use page::Refusal;

pub mod timers;
mod xio;

// XIO n: the command in its derived operand, which is no timer command; whatever the clock is. It is done, and leaves this core; or it is refused, and nothing is changed.
pub fn transfer(
    core: Core,
    regs: &mut [u16; 16],
    pages: &mut [u16; 512],
    ports: &mut [u16; 1024],
    n: Instruction,
) -> Result<Core, Refusal>
    requires { is_timer n.address ≡ false }
    ensures { ((s : State) → governed s result regs.new pages.new ports.new
        ≡ transferred (with_processor s (joined core regs.old)) pages.old ports.old n)
        × Kept result regs.old regs.new × Kept result pages.old pages.new × Kept result ports.old ports.new }
{
    let next = command_core::resume(core, n);
    let ra = get(regs, field_a(n.first));
    if n.address < 0x8000 {
        return xio::output(next, pages, ports, ra, n.address);
    }
    xio::input(next, regs, pages, ports, n)
}
