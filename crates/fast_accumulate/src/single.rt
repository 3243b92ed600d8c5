// One word into the accumulator: L A S OR AND (5.38, 5.55, 5.63, 5.81, 5.82).
ghost use Rattle.std.specs.Prelude.{◌≡◌, length};
ghost use Rattle.decode.specs.Forms.{operation_of};
ghost use Rattle.machine.specs.State.{Keyed, joined};
ghost use Rattle.form_table.specs.FormNumbers.{path_of, word_path, number_of};
ghost use Rattle.fast_accumulate.specs.Paths.{into_single};
ghost use Rattle.fast_accumulate.specs.Ended.{Ended};

use crate::Ending;
use crate::finish::done;
use crate::operand::read_operand;
use crate::plain::plain;
use addressing::fields::{get, put};
use addressing::modes::{accumulator_of, operand_of};
use bits::logic::{and, or};
use effect::{fixed_overflow, following};
use fixed_add::Outcome;
use fixed_add::sums::{add, sub};
use machine::{Core, Instruction};
use page::Refusal;

// What the accumulator a and the operand o come to.
fn combine16(operation: u16, a: u16, o: u16) -> Outcome<u16>
    ensures { result ≡ into_single operation a o }
{
    // by the number of its paragraph, as `isa/Execute: executed` goes
    match operation {
        55 => add(a, o),
        63 => sub(a, o),
        81 => plain(or(a, o)),
        82 => plain(and(a, o)),
        _ => plain(o),
    }
}

// The operation of the instruction n, whose path is `word_path`.
pub fn into_single(
    core: Core,
    key: u16,
    group: u16,
    regs: &mut [u16; 16],
    memory: &[u16],
    pages: &[u16; 512],
    n: Instruction,
    number: u32,
) -> Result<Ending, Refusal>
    requires { Keyed core.sw key group × (path_of (operation_of n.form) ≡ word_path) × (number ≡ number_of n.form) }
    ensures { Ended (joined core regs.old) memory.now pages.now n result regs.new memory.now }
{
    let g = match read_operand(key, group, memory, pages, n, number) {
        Ok(g) => g,
        Err(b) => return Err(b),
    };
    let k = accumulator_of(n);
    let s = combine16(n.form % 256, get(regs, k), operand_of(regs, n, g.x));
    put(regs, k, s.value);
    let bits = fixed_overflow(s.overflow);
    Ok(done(core, following(n), s.cs, bits))
}
