// The call that runs.
ghost use Rattle.capi.specs.Calls.{Replied, running};

use packed::{pack, unpack};

// A run: what run::run does, on the packed state.
#[unsafe(no_mangle)]
pub extern "C" fn twin1750_run(
    budget: u32,
    durations: &[u16],
    state: &mut [u16],
    memory: &mut [u16],
    pages: &mut [u16],
    ports: &mut [u16],
) -> u32
    ensures { Replied (running state.old memory.old pages.old ports.old budget durations.now)
        result state.new memory.new pages.new ports.new }
{
    if state.len() != packed::SIZE {
        return 100;
    }
    let given = unpack(state);
    match run::run(given, memory, pages, ports, durations, budget) {
        Ok(left) => {
            pack(left, state);
            0
        }
        Err(e) => u32::from(run::number(Err(e))),
    }
}
