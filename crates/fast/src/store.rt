// One word or two stored: ST STC (5.45, 5.46), DST (5.48).
ghost use Rattle.std.specs.Prelude.{◌≡◌, ◌<◌, length, slice_set};
ghost use Rattle.decode.specs.Forms.{operation_of};
ghost use Rattle.machine.specs.State.{Keyed, joined};
ghost use Rattle.form_table.specs.FormNumbers.{path_of, store_path, pair_path, number_of};
ghost use Rattle.fast_accumulate.specs.Paths.{word_stored};
ghost use Rattle.fast_accumulate.specs.Ended.{Ended};

use addressing::fields::{field_a, get};
use addressing::modes::accumulator_of;
use effect::{cs_of, following};
use fast_accumulate::Ending;
use fast_accumulate::finish::done;
use form_table::write_count;
use machine::{Core, Instruction};
use page::lookup::look_up;
use page::{Access, Refusal};

// The word: the accumulator, or the constant of STC.
fn word_stored(regs: &[u16; 16], n: Instruction) -> u16
    ensures { result ≡ word_stored regs.now n }
{
    if n.form % 256 == 45 {
        return get(regs, accumulator_of(n));
    }
    field_a(n.first)
}

// The operation of the instruction n, whose path is `store_path`.
pub(crate) fn store_one(
    core: Core,
    key: u16,
    group: u16,
    regs: &[u16; 16],
    memory: &mut [u16],
    pages: &[u16; 512],
    n: Instruction,
    number: u32,
) -> Result<Ending, Refusal>
    requires { Keyed core.sw key group × (path_of (operation_of n.form) ≡ store_path) × (number ≡ number_of n.form) }
    ensures { Ended (joined core regs.now) memory.old pages.now n result regs.now memory.new }
{
    let next = following(n);
    let cs = cs_of(core.sw);
    if write_count(n, number) == 0 {
        return Ok(done(core, next, cs, 0));
    }
    let at = look_up(Access::Write, key, group, pages, memory.len(), n.address)?;
    memory[at] = word_stored(regs, n);
    Ok(done(core, next, cs, 0))
}

// x goes to p, then y to q; both are inside.
fn put_two(memory: &mut [u16], p: usize, q: usize, x: u16, y: u16)
    requires { (p < length memory.old) × (q < length memory.old) }
    ensures { memory.new ≡ slice_set (slice_set memory.old p x) q y }
{
    memory[p] = x;
    memory[q] = y;
}

// The operation of the instruction n, whose path is `pair_path`: both words or none.
pub(crate) fn store_two(
    core: Core,
    key: u16,
    group: u16,
    regs: &[u16; 16],
    memory: &mut [u16],
    pages: &[u16; 512],
    n: Instruction,
    number: u32,
) -> Result<Ending, Refusal>
    requires { Keyed core.sw key group × (path_of (operation_of n.form) ≡ pair_path) × (number ≡ number_of n.form) }
    ensures { Ended (joined core regs.now) memory.old pages.now n result regs.now memory.new }
{
    let next = following(n);
    let cs = cs_of(core.sw);
    if write_count(n, number) == 0 {
        return Ok(done(core, next, cs, 0));
    }
    let x = get(regs, accumulator_of(n));
    let y = get(regs, accumulator_of(n) + 1);
    let a = n.address.wrapping_add(1);
    let p = look_up(Access::Write, key, group, pages, memory.len(), n.address)?;
    let q = look_up(Access::Write, key, group, pages, memory.len(), a)?;
    put_two(memory, p, q, x, y);
    Ok(done(core, next, cs, 0))
}
