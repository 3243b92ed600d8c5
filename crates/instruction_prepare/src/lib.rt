// An instruction up to its accesses (Scope, "One step", 2): fetch, decode, privilege, second word, derived address. Each stage is the
// definition's, of a core and the registers lent beside it; key and group are those of its SW.
#![tactic(auto)]

ghost use Rattle.std.specs.Prelude.{◌≡◌, true, cond, List, ℕ, ◌+◌, ◌%◌, ◌<◌, eqb, length, Ok};
ghost use Rattle.page.specs.Pages.{lookup};
ghost use Rattle.page.specs.Spans.{wrapped, got_at};
ghost use Rattle.decode.specs.Forms.{length_of, mode_of};
ghost use Rattle.machine.specs.State.{Keyed, joined};
ghost use Rattle.machine.specs.Instructions.{view, permitted, denial, ready_at, redirected, derived, granted, decoded};
ghost use Rattle.isa.specs.Mil1750.{class_of, mil1750};

use decode::mode;
use machine::{Class, Core, Denial, Instruction};
use page::lookup::refuse;
use page::{Access, Refusal};
use status_word::advance;
use storage::read::read_word;

// Who may run an operation: BEX (5.30) calls the executive, XIO (5.1) and LST (5.35) are privileged.
fn class_of(operation: u16) -> Class
    ensures { result ≡ class_of operation }
{
    // most operations come after these
    if 35 < operation {
        return Class::User;
    }
    // by the number of its paragraph, as `isa/Execute: executed` goes
    match operation {
        30 => Class::Executive,
        1 => Class::Supervisor,
        35 => Class::Supervisor,
        _ => Class::User,
    }
}

// Whether the key may run it.
fn permit(class: Class, key: u16) -> bool
    ensures { result ≡ permitted class key }
{
    match class {
        Class::User => true,
        Class::Supervisor => key == 0,
        Class::Executive => true,
    }
}

// It is not: its fault, and the IC after it.
fn denied(refusal: Refusal, ic: u16) -> Denial
    ensures { result ≡ denial refusal ic }
{
    Denial { refusal, ic }
}

// The instruction is ready.
fn ready(
    core: Core,
    form: u16,
    first: u16,
    second: u16,
    address: u16,
) -> Result<Instruction, Denial>
    ensures { result ≡ ready_at core form first second address }
{
    Ok(Instruction {
        ic: core.ic,
        form,
        first,
        second,
        address,
    })
}

// The word read at an indirect address is the derived address.
fn redirect(
    core: Core,
    form: u16,
    w: u16,
    x: u16,
    got: Result<u16, Refusal>,
) -> Result<Instruction, Denial>
    ensures { result ≡ redirected core form w x got }
{
    match got {
        Ok(a) => ready(core, form, w, x, a),
        Err(b) => Err(denied(b, advance(core.ic, form / 4096))),
    }
}

// The derived address.
fn derive(
    core: Core,
    key: u16,
    group: u16,
    regs: &[u16; 16],
    memory: &[u16],
    pages: &[u16; 512],
    form: u16,
    w: u16,
    x: u16,
) -> Result<Instruction, Denial>
    requires { Keyed core.sw key group }
    ensures { result ≡ derived mil1750 (joined core regs.now)
        (view core memory.now pages.now) form w x (eqb (mode_of form) 7) }
{
    let a = addressing::modes::derive(form, regs, core.ic, w, x);
    if form / 256 % 16 == mode::I {
        let got = read_word(Access::Read, key, group, memory, pages, a);
        return redirect(core, form, w, x, got);
    }
    ready(core, form, w, x, a)
}

// The second word, and 0 where there is none. In one page it follows the first, whose physical address is at; only where the first ends
// its page is a register looked up again.
fn second_word(
    ic: u16,
    at: usize,
    key: u16,
    group: u16,
    memory: &[u16],
    pages: &[u16; 512],
    form: u16,
) -> Result<u16, Refusal>
    requires { (group < 16) × (lookup Access.Fetch key group pages.now (length memory.now) ic ≡ Ok at) }
    ensures { result ≡ cond (eqb (length_of form) 2)
        (got_at memory.now (lookup Access.Fetch key group pages.now (length memory.now) (wrapped (ic + 1))))
        (Ok 0) }
{
    if form / 4096 == 2 {
        if ic % 4096 == 4095 {
            return read_word(Access::Fetch, key, group, memory, pages, advance(ic, 1));
        }
        let next = at + 1;
        if next < memory.len() {
            return Ok(memory[next]);
        }
        return Err(refuse(Access::Fetch, group, ic, 0x0080));
    }
    Ok(0)
}

// A permitted instruction, from its second word on.
fn extend(
    core: Core,
    key: u16,
    group: u16,
    regs: &[u16; 16],
    memory: &[u16],
    pages: &[u16; 512],
    form: u16,
    w: u16,
    at: usize,
) -> Result<Instruction, Denial>
    requires { Keyed core.sw key group × (lookup Access.Fetch key group pages.now (length memory.now) core.ic ≡ Ok at) }
    ensures { result ≡ granted mil1750 (joined core regs.now)
        (view core memory.now pages.now) form w true (eqb (length_of form) 2) }
{
    let second = second_word(core.ic, at, key, group, memory, pages, form);
    match second {
        Ok(x) => derive(core, key, group, regs, memory, pages, form, w, x),
        Err(b) => Err(denied(b, advance(core.ic, 2))),
    }
}

// The instruction whose first word w was found at IC, at the physical address at, ready for its accesses, or its refusal: from its legality on. The number is
// that of its form.
pub fn prepare(
    core: Core,
    key: u16,
    group: u16,
    regs: &[u16; 16],
    memory: &[u16],
    pages: &[u16; 512],
    number: u32,
    w: u16,
    at: usize,
) -> Result<Instruction, Denial>
    requires { Keyed core.sw key group × (lookup Access.Fetch key group pages.now (length memory.now) core.ic ≡ Ok at) }
    ensures { result ≡ decoded mil1750 (joined core regs.now)
        (view core memory.now pages.now) (number % 65536) w (eqb (number % 65536) 0) }
{
    let form = (number % 65536) as u16;
    if form == 0 {
        return Err(denied(Refusal { ft: 0x0040, mfs: 0 }, advance(core.ic, 1)));
    }
    let class = class_of(form % 256);
    if permit(class, key) {
        return extend(core, key, group, regs, memory, pages, form, w, at);
    }
    Err(denied(Refusal { ft: 0x0020, mfs: 0 }, advance(core.ic, 1)))
}
