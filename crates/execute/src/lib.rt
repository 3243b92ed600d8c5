// A user's operation on at most three words: what it does, and the words that it stores.
#![tactic(auto)]

ghost use Rattle.std.specs.Prelude.{◌≡◌, ◌≤◌, length};
ghost use Rattle.decode.specs.Forms.{operation_of};
ghost use Rattle.machine.specs.State.{joined};
ghost use Rattle.machine.specs.Step as spec;
ghost use Rattle.isa.specs.Execute.{ordinary};
ghost use Rattle.isa.specs.Mil1750.{context_of};
ghost use Rattle.form_table.specs.FormNumbers.{path_of, no_path};
ghost use Rattle.effect.specs.Work.{seen, worked};

use effect::{Before, Work, apply};
use execute_bits::bit::bit_operation;
use execute_bits::shifts::shift_operation;
use execute_floats::float_operation;
use execute_integers::{integer_operation, logical_operation};
use execute_words::jumps::jump_operation;
use execute_words::loads::load_operation;
use execute_words::stores::store_operation;
use machine::{Core, Instruction};
use operand_words::store_words;
use page::Span;
use status_word::{update, with_cs};

// What an operation without a path of its own does, by ranges of paragraphs; x, y and z are the words read. Bits, shifts, loads and stores have two ranges each: a function
// that is called twice stays one of its own, and the step without them is small enough to be put inline as a whole. To join them costs 15 to 57 instructions a
// step on the benchmark's programs.
fn ordinary(regs: &[u16; 16], before: Before, x: u16, y: u16, z: u16) -> Work
    requires { path_of (operation_of before.n.form) ≡ no_path }
    ensures { worked regs.now result ≡ ordinary (seen regs.now before) before.n x y z (operation_of before.n.form) }
{
    match before.n.form % 256 {
        0..=5 => bit_operation(regs, before, x),
        6..=9 => bit_operation(regs, before, x),
        10..=17 => shift_operation(regs, before),
        18..=23 => shift_operation(regs, before),
        24..=37 => jump_operation(regs, before, x),
        38..=41 => load_operation(regs, before, x, y, z),
        42..=44 => load_operation(regs, before, x, y, z),
        45..=49 => store_operation(regs, before, x),
        50..=54 => store_operation(regs, before, x),
        55..=59 => integer_operation(regs, before, x, y),
        60..=62 => float_operation(regs, before, x, y, z),
        63..=67 => integer_operation(regs, before, x, y),
        68..=70 => float_operation(regs, before, x, y, z),
        71..=73 => integer_operation(regs, before, x, y),
        74..=75 => float_operation(regs, before, x, y, z),
        76..=78 => integer_operation(regs, before, x, y),
        79..=80 => float_operation(regs, before, x, y, z),
        81..=84 => logical_operation(regs, before, x, y),
        85..=88 => float_operation(regs, before, x, y, z),
        89..=93 => logical_operation(regs, before, x, y),
        94..=95 => float_operation(regs, before, x, y, z),
        _ => before.nothing(),
    }
}

// The operation is done: the registers, the core, and the words stored in the span, of which there are at most three.
pub fn work(
    core: Core,
    regs: &mut [u16; 16],
    memory: &mut [u16],
    pages: &[u16; 512],
    n: Instruction,
    x: u16,
    y: u16,
    z: u16,
    span: Span,
) -> Core
    requires { (span.count ≤ 3) × (path_of (operation_of n.form) ≡ no_path) }
    ensures { (joined result regs.new ≡ spec.affected (joined core regs.old)
        (ordinary (context_of (joined core regs.old)) n x y z (operation_of n.form)))
        × (memory.new ≡ spec.stored core memory.old pages.now
        (ordinary (context_of (joined core regs.old)) n x y z (operation_of n.form)) span) }
{
    let before = Before {
        sw: core.sw,
        pi: core.pi,
        n,
    };
    let e = ordinary(regs, before, x, y, z);
    apply(regs, e);
    let [w0, w1, w2] = e.words;
    store_words(core.sw, memory, pages, span, w0, w1, w2);
    update(core, e.ic, with_cs(core.sw, e.cs), e.pi)
}
