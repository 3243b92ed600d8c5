// One instruction (Scope, "One step", 2 and 3), on a core and the registers lent beside it; key and group are those of its SW. What is said here
// holds whatever the rest of the state is; a timer command is handed back undone.
#![tactic(auto)]

ghost use Rattle.std.specs.Prelude.{◌≡◌, ◌^◌, true, false, List, ℕ, ◌+◌, ◌/◌, ◌≤◌, ◌<◌, eqb, length, get_or, Ok};
ghost use Rattle.page.specs.Pages.{lookup};
ghost use Rattle.page.specs.Spans.{checked, words_of};
ghost use Rattle.decode.specs.Forms.{operation_of};
ghost use Rattle.decode.specs.Decode.{decode_of};
ghost use Rattle.machine.specs.State.{key_of, group_of, Keyed, processor};
ghost use Rattle.machine.specs.Instructions as spec;
ghost use Rattle.machine.specs.Step.{timing};
ghost use Rattle.isa.specs.Accesses.{reads_of, writes_of};
ghost use Rattle.isa.specs.Mil1750.{mil1750};
ghost use Rattle.form_table.specs.FormNumbers.{path_of, no_path, number_of, numbers};
ghost use Rattle.block_registers.specs.Operation.{is_block};
ghost use Rattle.operand_words.specs.Gathers.{FirstThree};
ghost use Rattle.instruction_retired.specs.Settled.{carrying, obeying, Performed};

use block_one_page::here::try_block;
use block_words::block;
use clock::durations::{duration_of, entry_duration};
use execute::work;
use fast::fast;
use form_table::{decode_with, read_count, read_start, write_count, write_start};
use instruction_prepare::prepare;
use instruction_privileged::{command, executive, load};
use instruction_retired::{Retired, deny, weighed};
use machine::{Core, Instruction};
use operand_spans::{reads, span_from, writes};
use operand_words::{Words, gather};
use page::lookup::{check_span, look_up};
use page::{Access, Refusal, Span};
use status_word::{advance, group_of, key_of, update};

// The first refusal: all reads, then all writes.
fn verify(sw: u16, pages: &[u16; 512], size: usize, from: Span, to: Span) -> Result<(), Refusal>
    ensures { result ≡ spec.both (checked (key_of sw) (group_of sw) pages.now size from Access.Read)
        (checked (key_of sw) (group_of sw) pages.now size to Access.Write) }
{
    let key = key_of(sw);
    let group = group_of(sw);
    check_span(Access::Read, key, group, pages, size, from)?;
    check_span(Access::Write, key, group, pages, size, to)
}

// An operation on a block, word by word, with any ports: its accesses are checked before it changes anything.
fn carry_words(
    core: Core,
    regs: &mut [u16; 16],
    memory: &mut [u16],
    pages: &[u16; 512],
    n: Instruction,
) -> Retired
    requires { is_block (operation_of n.form) ≡ true }
    ensures { (ports : List ℕ) → Performed (carrying n) core regs.old memory.old pages.now ports
        (n.first / 256) result regs.new memory.new pages.now ports }
{
    let from = reads(regs, n);
    let to = writes(regs, n);
    match verify(core.sw, pages, memory.len(), from, to) {
        Ok(()) => weighed(core.pi, block(core, regs, memory, pages, n, from)),
        Err(b) => deny(core, b, advance(n.ic, n.form / 4096)),
    }
}

// An operation on a block, with any ports: at once where that can be.
fn carry_block(
    core: Core,
    key: u16,
    group: u16,
    regs: &mut [u16; 16],
    memory: &mut [u16],
    pages: &[u16; 512],
    n: Instruction,
) -> Retired
    requires { (is_block (operation_of n.form) ≡ true) × Keyed core.sw key group }
    ensures { (ports : List ℕ) → Performed (carrying n) core regs.old memory.old pages.now ports
        (n.first / 256) result regs.new memory.new pages.now ports }
{
    match try_block(core, key, group, regs, memory, pages, n) {
        Some(done) => weighed(core.pi, done),
        None => carry_words(core, regs, memory, pages, n),
    }
}

// A user's operation on at most three words, which have been read as g, with any ports: its stores are checked before it changes anything.
fn proceed(
    core: Core,
    key: u16,
    group: u16,
    regs: &mut [u16; 16],
    memory: &mut [u16],
    pages: &[u16; 512],
    n: Instruction,
    g: Words,
    number: u32,
) -> Retired
    requires { (is_block (operation_of n.form) ≡ false) × FirstThree (words_of (key_of core.sw) (group_of core.sw) pages.now (length memory.old) (reads_of regs.old n) memory.old) g.x g.y g.z × Keyed core.sw key group × (number ≡ number_of n.form) × (path_of (operation_of n.form) ≡ no_path) }
    ensures { (ports : List ℕ) → Performed (λ m g o s. spec.accessed mil1750 s g o (spec.view s.core m g) n
        (checked (key_of s.core.sw) (group_of s.core.sw) g (length m) (writes_of s.regs n) Access.Write))
        core regs.old memory.old pages.now ports (n.first / 256) result regs.new memory.new pages.now ports }
{
    let to = span_from(write_start(regs, n, number), write_count(n, number));
    match check_span(Access::Write, key, group, pages, memory.len(), to) {
        Ok(()) => {
            let done = work(core, regs, memory, pages, n, g.x, g.y, g.z, to);
            weighed(core.pi, done)
        }
        Err(b) => deny(core, b, advance(n.ic, n.form / 4096)),
    }
}

// An operation with a fast path, with any ports: its accesses are checked before it changes anything.
fn carry_fast(
    core: Core,
    key: u16,
    group: u16,
    regs: &mut [u16; 16],
    memory: &mut [u16],
    pages: &[u16; 512],
    n: Instruction,
    number: u32,
) -> Retired
    requires { Keyed core.sw key group × (number ≡ number_of n.form) × (0x0080_0000 ≤ number) × (number < 0x0300_0000) }
    ensures { (ports : List ℕ) → Performed (carrying n) core regs.old memory.old pages.now ports
        (n.first / 256) result regs.new memory.new pages.now ports }
{
    match fast(core, key, group, regs, memory, pages, n, number) {
        Ok(end) => weighed(core.pi, update(core, end.ic, end.sw, end.pi)),
        Err(b) => deny(core, b, advance(n.ic, n.form / 4096)),
    }
}

// Any other user's operation, with any ports: its words are checked and read before it changes anything.
fn carry_ordinary(
    core: Core,
    key: u16,
    group: u16,
    regs: &mut [u16; 16],
    memory: &mut [u16],
    pages: &[u16; 512],
    n: Instruction,
    number: u32,
) -> Retired
    requires { Keyed core.sw key group × (number ≡ number_of n.form) × (is_block (operation_of n.form) ≡ false) × (path_of (operation_of n.form) ≡ no_path) }
    ensures { (ports : List ℕ) → Performed (carrying n) core regs.old memory.old pages.now ports
        (n.first / 256) result regs.new memory.new pages.now ports }
{
    let from = read_start(regs, n, number);
    match gather(key, group, memory, pages, from, read_count(n, number)) {
        Ok(g) => proceed(core, key, group, regs, memory, pages, n, g, number),
        Err(b) => deny(core, b, advance(n.ic, n.form / 4096)),
    }
}

// An instruction that is ready, by its form number, whose ranges are the rules: its accesses are checked before it changes anything.
fn carry(
    core: Core,
    key: u16,
    group: u16,
    regs: &mut [u16; 16],
    memory: &mut [u16],
    pages: &mut [u16; 512],
    ports: &mut [u16; 1024],
    n: Instruction,
    number: u32,
) -> Retired
    requires { Keyed core.sw key group × (number ≡ number_of n.form) }
    ensures { Performed (carrying n) core regs.old memory.old pages.old ports.old
        (n.first / 256) result regs.new memory.new pages.new ports.new }
{
    match number {
        // the most frequent operations, from 0x0080_0000 on
        0..=0x02FF_FFFF => carry_fast(core, key, group, regs, memory, pages, n, number),
        // XIO
        0x0300_0000..=0x037F_FFFF => command(core, regs, pages, ports, n),
        // BEX
        0x0380_0000..=0x03FF_FFFF => executive(core, memory, pages, n),
        // LST
        0x0400_0000..=0x047F_FFFF => load(core, key, group, regs, memory, pages, n, number),
        // LM POPM MOV STM PSHM XWR
        0x0480_0000..=0x04FF_FFFF => carry_block(core, key, group, regs, memory, pages, n),
        // any other
        _ => carry_ordinary(core, key, group, regs, memory, pages, n, number),
    }
}

// The instruction whose first word w was found at IC, at the physical address at.
fn begin(
    core: Core,
    key: u16,
    group: u16,
    regs: &mut [u16; 16],
    memory: &mut [u16],
    pages: &mut [u16; 512],
    ports: &mut [u16; 1024],
    number: u32,
    w: u16,
    at: usize,
) -> Retired
    requires { Keyed core.sw key group × (number ≡ number_of (decode_of w)) × (lookup Access.Fetch key group pages.old (length memory.old) core.ic ≡ Ok at) }
    ensures { Performed (λ m g o s. spec.carried mil1750 s g o (spec.view s.core m g)
        (spec.decoded mil1750 (processor s) (spec.view s.core m g) (decode_of w) w (eqb (decode_of w) 0)))
        core regs.old memory.old pages.old ports.old (w / 256) result regs.new memory.new pages.new ports.new }
{
    match prepare(core, key, group, regs, memory, pages, number, w, at) {
        Ok(n) => carry(core, key, group, regs, memory, pages, ports, n, number),
        Err(d) => deny(core, d.refusal, d.ic),
    }
}

// The instruction at IC, from a core whose hold mark is clear. Its duration is added to the tenths that are spent, fewer than 2^48 so far. The table is that of form numbers,
// made once a run.
pub fn instruct(
    core: Core,
    key: u16,
    group: u16,
    regs: &mut [u16; 16],
    memory: &mut [u16],
    pages: &mut [u16; 512],
    ports: &mut [u16; 1024],
    table: &[u32; 256],
    durations: &[u16; 257],
    spent: &mut u64,
) -> Retired
    requires { (table.now ≡ numbers) × Keyed core.sw key group × (spent.old < 2 ^ 48) }
    ensures { Performed obeying core regs.old memory.old pages.old ports.old
        (timing core (spec.view core memory.old pages.old) false) result regs.new memory.new pages.new ports.new
        × (spent.new ≡ spent.old + get_or durations.now (timing core (spec.view core memory.old pages.old) false) 0) }
{
    match look_up(Access::Fetch, key, group, pages, memory.len(), core.ic) {
        Ok(at) => {
            let w = memory[at];
            *spent += duration_of(durations, w);
            let number = decode_with(table, w);
            begin(core, key, group, regs, memory, pages, ports, number, w, at)
        }
        Err(b) => {
            *spent += entry_duration(durations);
            deny(core, b, advance(core.ic, 1))
        }
    }
}
