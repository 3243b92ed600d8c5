// Reset (Scope, "The machine").
#![tactic(auto)]

ghost use Rattle.std.specs.Prelude.{◌≡◌, length};
ghost use Rattle.machine.specs.State.{reset_state};
ghost use Rattle.machine.specs.Machine.{Became};
ghost use Rattle.reset.specs.Reset.{reset_pages, reset_machine};

use machine::{Clock, Core, Faults, State};

// Each page register its number within its group of 16.
fn number_pages(pages: &mut [u16])
    ensures { pages.new ≡ reset_pages (length pages.old) }
{
    for (k, page) in pages.iter_mut().enumerate() {
        *page = (k % 16) as u16;
    }
}

// The state after reset.
pub fn reset_state() -> State
    ensures { result ≡ reset_state }
{
    let core = Core {
        ic: 0,
        sw: 0,
        mk: 0,
        pi: 0,
        faults: Faults { ft: 0, mfs: 0 },
        enabled: false,
        hold: false,
    };
    let clock = Clock {
        ta: 0,
        tb: 0,
        rema: 0,
        remb: 0,
        taon: true,
        tbon: true,
        count: 0,
    };
    State {
        regs: [0; 16],
        core,
        clock,
    }
}

// Reset of a machine of any size: its state is returned.
pub fn reset(memory: &mut [u16], pages: &mut [u16], ports: &mut [u16]) -> State
    ensures { Became (reset_machine (length memory.old) (length pages.old) (length ports.old))
        result memory.new pages.new ports.new }
{
    memory.fill(0);
    number_pages(pages);
    ports.fill(0);
    reset_state()
}
