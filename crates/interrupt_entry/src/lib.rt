// The entry of an interrupt, and of the executive by BEX, once its words are read (Scope, "Entry of n").
// Callers have an interrupt's number of four bits.
#![tactic(auto)]

ghost use Rattle.std.specs.Prelude.{◌≡◌, ◌<◌, length};
ghost use Rattle.machine.specs.declared.Core.{Core};
ghost use Rattle.machine.specs.Entries.{linked, link_stored, stored_after, machine_error, arrived};

use bits::bits::reset_bit;
use machine::fault::{after_fault, follow};
use machine::{Core, Vector};
use page::lookup::{check_span, look_up};
use page::{Access, Refusal, Span};
use status_word::group_of;
use std::num::wrapping_add_u16;
use storage::write::write_span;

// PI bit 1 where there is a fault.
fn machine_error(b: u16) -> u16
    ensures { result ≡ machine_error b }
{
    if b == 0 {
        return 0;
    }
    0x4000
}

// Old MK, SW and IC are stored at the linkage pointer a by the new SW, all three or none, for any vector and core with these parts; the first
// refusal, where there is one. Each word is looked up.
fn link_each(
    mk: u16,
    sw: u16,
    ic: u16,
    memory: &mut [u16],
    pages: &[u16; 512],
    next: u16,
    a: u16,
) -> Result<(), Refusal>
    ensures { (v : Vector) → v.sw ≡ next → v.link ≡ a → (result ≡ linked memory.old pages.now v)
        × ((c : Core) → c.mk ≡ mk → c.sw ≡ sw → c.ic ≡ ic
        → memory.new ≡ link_stored c memory.old pages.now v (linked memory.old pages.now v)) }
{
    let group = group_of(next);
    let span = Span {
        start: a,
        count: 3,
        stride: 1,
        hole: 16,
    };
    let verdict = check_span(Access::Write, 0, group, pages, memory.len(), span);
    match verdict {
        Ok(()) => {
            let mut old: [u16; 16] = [0; 16];
            old[0] = mk;
            old[1] = sw;
            old[2] = ic;
            write_span(0, group, memory, pages, &old, span);
            Ok(())
        }
        Err(b) => Err(b),
    }
}

// The same. Where the three words lie in one page and the last is found, the others are before it.
pub fn link(
    mk: u16,
    sw: u16,
    ic: u16,
    memory: &mut [u16],
    pages: &[u16; 512],
    next: u16,
    a: u16,
) -> Result<(), Refusal>
    ensures { (v : Vector) → v.sw ≡ next → v.link ≡ a → (result ≡ linked memory.old pages.now v)
        × ((c : Core) → c.mk ≡ mk → c.sw ≡ sw → c.ic ≡ ic
        → memory.new ≡ link_stored c memory.old pages.now v (linked memory.old pages.now v)) }
{
    let end = wrapping_add_u16(a, 2);
    if 2 <= end % 4096 {
        let last = look_up(Access::Write, 0, group_of(next), pages, memory.len(), end);
        match last {
            Ok(p) => {
                memory[p - 2] = mk;
                memory[p - 1] = sw;
                memory[p] = ic;
                return Ok(());
            }
            Err(_) => {}
        }
    }
    link_each(mk, sw, ic, memory, pages, next, a)
}

// The refusals of the words read, and that of the stores.
fn gather(read: Refusal, stores: Result<(), Refusal>) -> Refusal
    ensures { result ≡ stored_after read stores }
{
    match stores {
        Ok(()) => read,
        Err(b) => follow(read, b),
    }
}

// The core after the entry of interrupt n by the vector v, whose stores came to this verdict.
pub fn arrive(core: Core, n: u16, v: Vector, stores: Result<(), Refusal>) -> Core
    requires { n < 16 }
    ensures { result ≡ arrived core n v (stored_after v.fault stores) }
{
    let all = gather(v.fault, stores);
    let rest = reset_bit(core.pi, n);
    let mut t = core;
    t.ic = v.ic;
    t.sw = v.sw;
    t.mk = v.mk;
    t.pi = rest | machine_error(all.ft);
    t.faults = after_fault(core.faults, all);
    t.enabled = false;
    t
}
