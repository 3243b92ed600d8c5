// The most frequent operations, each by its fast path: one or two words into the accumulator, one or two stored, on by CS. What they
// come to is what the definitions of all operations say; the path is shorter. Key and group are those of SW.
#![tactic(auto)]

ghost use Rattle.std.specs.Prelude.{◌≡◌, ◌<◌, ◌≤◌, length};
ghost use Rattle.machine.specs.State.{Keyed, joined};
ghost use Rattle.form_table.specs.FormNumbers.{number_of};
ghost use Rattle.fast_accumulate.specs.Ended.{Ended};

use crate::branch::branch;
use crate::store::{store_one, store_two};
use fast_accumulate::Ending;
use fast_accumulate::double::into_double;
use fast_accumulate::single::into_single;
use machine::{Core, Instruction};
use page::Refusal;

mod branch;
mod store;

// The operation of the instruction n by its path, which is from 1 to 5: the ranges of its form number are the rules.
pub fn fast(
    core: Core,
    key: u16,
    group: u16,
    regs: &mut [u16; 16],
    memory: &mut [u16],
    pages: &[u16; 512],
    n: Instruction,
    number: u32,
) -> Result<Ending, Refusal>
    requires { Keyed core.sw key group × (number ≡ number_of n.form) × (0x0080_0000 ≤ number) × (number < 0x0300_0000) }
    ensures { Ended (joined core regs.old) memory.old pages.now n result regs.new memory.new }
{
    match number {
        // L A S OR AND, from 0x0080_0000 on
        0..=0x00FF_FFFF => into_single(core, key, group, regs, memory, pages, n, number),
        // DL DA DS
        0x0100_0000..=0x017F_FFFF => into_double(core, key, group, regs, memory, pages, n, number),
        // ST STC
        0x0180_0000..=0x01FF_FFFF => store_one(core, key, group, regs, memory, pages, n, number),
        // JC BR BEZ BLT BLE BGT BNZ BGE
        0x0200_0000..=0x027F_FFFF => Ok(branch(core, n)),
        // DST
        _ => store_two(core, key, group, regs, memory, pages, n, number),
    }
}
