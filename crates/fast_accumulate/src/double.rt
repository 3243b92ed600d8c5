// Two words into the accumulator: DL DA DS (5.39, 5.59, 5.67).
ghost use Rattle.std.specs.Prelude.{◌≡◌, ◌<◌, length};
ghost use Rattle.decode.specs.Forms.{operation_of};
ghost use Rattle.machine.specs.State.{Keyed, joined};
ghost use Rattle.form_table.specs.FormNumbers.{path_of, double_path, number_of};
ghost use Rattle.fast_accumulate.specs.Paths.{into_double, target};
ghost use Rattle.fast_accumulate.specs.Ended.{Ended};

use crate::Ending;
use crate::finish::done;
use crate::operand::read_operand;
use crate::plain::plain;
use addressing::fields::{field_a, get, put};
use addressing::modes::{accumulator_of, double_operand};
use effect::{fixed_overflow, following};
use fixed_add::Outcome;
use fixed_add::sums::{add, sub};
use machine::{Core, Instruction};
use page::Refusal;
use word::pair::{high, join, low};

// What the accumulator a and the operand o come to.
fn combine32(operation: u16, a: u32, o: u32) -> Outcome<u32>
    ensures { result ≡ into_double operation a o }
{
    // by the number of its paragraph, as `isa/Execute: executed` goes
    match operation {
        59 => add(a, o),
        67 => sub(a, o),
        _ => plain(o),
    }
}

// The first of the two registers.
fn target_of(n: Instruction) -> u16
    ensures { (result ≡ target n) × (result < 16) }
{
    if n.form % 256 == 39 {
        return accumulator_of(n);
    }
    field_a(n.first)
}

// The operation of the instruction n, whose path is `double_path`.
pub fn into_double(
    core: Core,
    key: u16,
    group: u16,
    regs: &mut [u16; 16],
    memory: &[u16],
    pages: &[u16; 512],
    n: Instruction,
    number: u32,
) -> Result<Ending, Refusal>
    requires { Keyed core.sw key group × (path_of (operation_of n.form) ≡ double_path) × (number ≡ number_of n.form) }
    ensures { Ended (joined core regs.old) memory.now pages.now n result regs.new memory.now }
{
    let g = match read_operand(key, group, memory, pages, n, number) {
        Ok(g) => g,
        Err(b) => return Err(b),
    };
    let k = target_of(n);
    let a = join(get(regs, k), get(regs, k + 1));
    let d = combine32(n.form % 256, a, double_operand(regs, n, g.x, g.y));
    put(regs, k, high(d.value));
    put(regs, k + 1, low(d.value));
    let bits = fixed_overflow(d.overflow);
    Ok(done(core, following(n), d.cs, bits))
}
