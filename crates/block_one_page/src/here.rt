// The operations on blocks tried at once: one whose words were all found by a lookup or two is done, any other is left to be done word by word.
// Key and group are those of SW.
ghost use Rattle.std.specs.Prelude.{◌≡◌, ◌<◌, length, get_or, set};
ghost use Rattle.decode.specs.Forms.{operation_of};
ghost use Rattle.machine.specs.State.{Keyed, joined};
ghost use Rattle.block_registers.specs.Operation.{Attempted};

use crate::extents::{find_extent, push_extent, store_extent};
use addressing::fields::{field_a, field_b, get, less, registers_from};
use block_registers::operation::{load_multiple, move_word, pop_multiple, proceed, push_multiple};
use machine::{Core, Instruction};
use page::Access;
use page::lookup::look_up;

// MOV (5.47) of one word; a count of zero is left.
#[tactic(auto, using(std::proofs::lemmas::Bool::Decides::nat_tests))]
fn try_move(
    core: Core,
    key: u16,
    group: u16,
    regs: &mut [u16; 16],
    memory: &mut [u16],
    pages: &[u16; 512],
    n: Instruction,
) -> Option<Core>
    requires { Keyed core.sw key group × (operation_of n.form ≡ 47) }
    ensures { Attempted (joined core regs.old) memory.old pages.now n result regs.new memory.new }
{
    let a = field_a(n.first);
    if get(regs, a + 1) == 0 {
        return None;
    }
    let size = memory.len();
    let from = look_up(
        Access::Read,
        key,
        group,
        pages,
        size,
        get(regs, field_b(n.first)),
    );
    let Ok(p) = from else {
        return None;
    };
    let to = look_up(Access::Write, key, group, pages, size, get(regs, a));
    let Ok(q) = to else {
        return None;
    };
    memory[q] = memory[p];
    Some(move_word(core, regs, n))
}

// LM (5.40) from one page.
fn try_load(
    core: Core,
    key: u16,
    group: u16,
    regs: &mut [u16; 16],
    memory: &mut [u16],
    pages: &[u16; 512],
    n: Instruction,
) -> Option<Core>
    requires { Keyed core.sw key group × (operation_of n.form ≡ 40) }
    ensures { Attempted (joined core regs.old) memory.old pages.now n result regs.new memory.new }
{
    let count = field_a(n.first) + 1;
    let p = find_extent(
        Access::Read,
        key,
        group,
        pages,
        memory.len(),
        n.address,
        count,
    )?;
    Some(load_multiple(core, regs, n, memory, p))
}

// POPM (5.44) from one page.
fn try_pop(
    core: Core,
    key: u16,
    group: u16,
    regs: &mut [u16; 16],
    memory: &mut [u16],
    pages: &[u16; 512],
    n: Instruction,
) -> Option<Core>
    requires { Keyed core.sw key group × (operation_of n.form ≡ 44) }
    ensures { Attempted (joined core regs.old) memory.old pages.now n result regs.new memory.new }
{
    let count = registers_from(field_a(n.first), field_b(n.first));
    let p = find_extent(
        Access::Read,
        key,
        group,
        pages,
        memory.len(),
        get(regs, 15),
        count,
    )?;
    Some(pop_multiple(core, regs, n, memory, p))
}

// STM (5.50) to one page.
fn try_store(
    core: Core,
    key: u16,
    group: u16,
    regs: &mut [u16; 16],
    memory: &mut [u16],
    pages: &[u16; 512],
    n: Instruction,
) -> Option<Core>
    requires { Keyed core.sw key group × (operation_of n.form ≡ 50) }
    ensures { Attempted (joined core regs.old) memory.old pages.now n result regs.new memory.new }
{
    let count = field_a(n.first) + 1;
    let p = find_extent(
        Access::Write,
        key,
        group,
        pages,
        memory.len(),
        n.address,
        count,
    )?;
    store_extent(regs, memory, p, count);
    Some(proceed(core, n))
}

// PSHM (5.54) to one page.
#[tactic(auto, using(std::proofs::lemmas::Bool::Decides::nat_tests))]
fn try_push(
    core: Core,
    key: u16,
    group: u16,
    regs: &mut [u16; 16],
    memory: &mut [u16],
    pages: &[u16; 512],
    n: Instruction,
) -> Option<Core>
    requires { Keyed core.sw key group × (operation_of n.form ≡ 54) }
    ensures { Attempted (joined core regs.old) memory.old pages.now n result regs.new memory.new }
{
    let b = field_b(n.first);
    let count = registers_from(field_a(n.first), b);
    let top = less(get(regs, 15), 1);
    if top % 4096 + 1 < count {
        return None;
    }
    let place = look_up(Access::Write, key, group, pages, memory.len(), top);
    let Ok(p) = place else {
        return None;
    };
    push_extent(regs, memory, p, b, count);
    Some(push_multiple(core, regs, n))
}

// Any of these operations. XWR, which has no words in memory, and any other is left. Open, for speed, is whether it is done here: where it is, all its
// accesses are open and it has worked as defined (`Finished`); where not, core, registers and memory are as they were, and the caller does it
// word by word. So its caller leaves the same either way.
pub fn try_block(
    core: Core,
    key: u16,
    group: u16,
    regs: &mut [u16; 16],
    memory: &mut [u16],
    pages: &[u16; 512],
    n: Instruction,
) -> Option<Core>
    requires { Keyed core.sw key group }
    ensures { Attempted (joined core regs.old) memory.old pages.now n result regs.new memory.new }
{
    // by the number of its paragraph, as `isa/Execute: executed` goes
    match n.form % 256 {
        40 => try_load(core, key, group, regs, memory, pages, n),
        44 => try_pop(core, key, group, regs, memory, pages, n),
        47 => try_move(core, key, group, regs, memory, pages, n),
        50 => try_store(core, key, group, regs, memory, pages, n),
        54 => try_push(core, key, group, regs, memory, pages, n),
        _ => None,
    }
}
