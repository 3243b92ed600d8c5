// The words that an entry reads, with address state 0 and key 0 (Scope, "Entry of n"; 5.30). The number of an interrupt or of a
// call has four bits, so callers meet the bound.
ghost use Rattle.std.specs.Prelude.{◌≡◌, ◌<◌, length};
ghost use Rattle.machine.specs.declared.Vector.{Vector};
ghost use Rattle.machine.specs.Entries.{read_after, got_zero, vector_at, vector_of, call_of};

use machine::Vector;
use machine::fault::follow;
use page::lookup::look_up;
use page::{Access, Refusal};
use std::num::wrapping_add_u16;
use storage::read::read_word;

// Earlier refusals, and that of a word where it was refused.
fn gather(earlier: Refusal, got: Result<u16, Refusal>) -> Refusal
    ensures { result ≡ read_after earlier got }
{
    match got {
        Ok(_) => earlier,
        Err(b) => follow(earlier, b),
    }
}

// A word of address state 0, with key 0.
fn read_zero(memory: &[u16], pages: &[u16; 512], a: u16) -> Result<u16, Refusal>
    ensures { result ≡ got_zero memory.now pages.now a }
{
    read_word(Access::Read, 0, 0, memory, pages, a)
}

// The vector whose linkage pointer is at a, with IC k words after MK, each word looked up.
fn vector_each(memory: &[u16], pages: &[u16; 512], a: u16, k: u16) -> Vector
    requires { a < 65535 }
    ensures { result ≡ vector_at memory.now pages.now a k }
{
    let link = read_zero(memory, pages, a);
    let service = read_zero(memory, pages, a + 1);
    let base = service.unwrap_or(0);
    let mk = read_zero(memory, pages, base);
    let sw = read_zero(memory, pages, wrapping_add_u16(base, 1));
    let ic = read_zero(memory, pages, wrapping_add_u16(base, k));
    let pointers = gather(gather(Refusal { ft: 0, mfs: 0 }, link), service);
    Vector {
        link: link.unwrap_or(0),
        mk: mk.unwrap_or(0),
        sw: sw.unwrap_or(0),
        ic: ic.unwrap_or(0),
        fault: gather(gather(gather(pointers, mk), sw), ic),
    }
}

// Interrupt n, where MK, SW and IC lie in one page and no word is refused: the linkage pointer is before the service pointer, MK and SW are
// before IC. Open, for speed, is whether all are found here: where they are, they are the vector; where not, each word is looked up.
fn vector_found(memory: &[u16], pages: &[u16; 512], n: u16) -> Option<Vector>
    requires { n < 16 }
    ensures { (v : Vector) → result ≡ Some v → v ≡ vector_of memory.now pages.now n }
{
    let service = look_up(Access::Read, 0, 0, pages, memory.len(), 33 + 2 * n);
    match service {
        Ok(p) => {
            let base = memory[p];
            let end = wrapping_add_u16(base, 2);
            if end % 4096 < 2 {
                return None;
            }
            let last = look_up(Access::Read, 0, 0, pages, memory.len(), end);
            match last {
                Ok(q) => {
                    let link = memory[p - 1];
                    let mk = memory[q - 2];
                    let sw = memory[q - 1];
                    let ic = memory[q];
                    Some(Vector {
                        link,
                        mk,
                        sw,
                        ic,
                        fault: Refusal { ft: 0, mfs: 0 },
                    })
                }
                Err(_) => None,
            }
        }
        Err(_) => None,
    }
}

// Interrupt n.
pub fn vector(memory: &[u16], pages: &[u16; 512], n: u16) -> Vector
    requires { n < 16 }
    ensures { result ≡ vector_of memory.now pages.now n }
{
    match vector_found(memory, pages, n) {
        Some(v) => v,
        None => vector_each(memory, pages, 32 + 2 * n, 2),
    }
}

// BEX n, by the vector of interrupt 5 with the nth IC (5.30).
pub fn call_vector(memory: &[u16], pages: &[u16; 512], n: u16) -> Vector
    requires { n < 16 }
    ensures { result ≡ call_of memory.now pages.now n }
{
    vector_each(memory, pages, 42, 2 + n)
}
