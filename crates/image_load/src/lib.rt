// The loader (Scope, "Image"): the questions, then reset, then the bodies.
#![tactic(auto)]

ghost use Rattle.std.specs.Prelude.{◌≡◌, List, ℕ, ◌+◌, ◌*◌, ◌≤◌, length};
ghost use Rattle.std.proofs.lemmas.List.Edits.{sets};
ghost use Rattle.machine.specs.State.{with_regs};
ghost use Rattle.machine.specs.Machine.{Became, machine};
ghost use Rattle.image.specs.Image.{count_of, words_from, target_size, end_of, control_of, with_control, with_words, with_bodies, table_answer, Outcome};

use image::questions::check;
use image::table::{count, entry_at, word_at};
use image::{Entry, LoadError, Target};
use machine::{Core, Faults, State};
use reset::reset;

// The n words from byte `at` on written from word `start` on. An accepted image has the bytes,
// and a target the words, here and below.
fn write_words(words: &mut [u16], start: usize, image: &[u8], at: usize, n: usize)
    requires { (start + n ≤ length words.old) × (at + 2 * n ≤ length image.now) }
    ensures { words.new ≡ sets words.old start (words_from image.now at n) }
{
    for i in 0..n {
        words[start + i] = word_at(image, at + 2 * i);
    }
}

// The same for the registers of a state.
fn write_registers(s: State, start: usize, image: &[u8], at: usize, n: usize) -> State
    requires { (start + n ≤ 16) × (at + 2 * n ≤ length image.now) }
    ensures { result ≡ with_regs s (sets s.regs start (words_from image.now at n)) }
{
    let mut regs = s.regs;
    write_words(&mut regs, start, image, at, n);
    State { regs, ..s }
}

// The same for IC, SW, MK, PI and FT of a core; the rest stays.
fn write_control(c: Core, start: usize, image: &[u8], at: usize, n: usize) -> Core
    requires { (start + n ≤ 5) × (at + 2 * n ≤ length image.now) }
    ensures { result ≡ with_control c (sets (control_of c) start (words_from image.now at n)) }
{
    let mut words = [c.ic, c.sw, c.mk, c.pi, c.faults.ft];
    write_words(&mut words, start, image, at, n);
    let [ic, sw, mk, pi, ft] = words;
    let faults = Faults { ft, ..c.faults };
    Core {
        ic,
        sw,
        mk,
        pi,
        faults,
        ..c
    }
}

// The body of an entry, which starts at byte `at`; the ports, whatever they hold, stay.
fn write_body(
    s: State,
    image: &[u8],
    e: Entry,
    at: usize,
    memory: &mut [u16],
    pages: &mut [u16],
) -> State
    requires { (1 ≤ e.kind) × (e.kind ≤ 4) × (end_of e ≤ target_size (length memory.old) e.kind) × (length pages.old ≡ 512) × (at + 2 * e.words ≤ length image.now) }
    ensures { (ports : List ℕ) → Became (with_words e.kind e.start (words_from image.now at e.words)
        (machine s memory.old pages.old ports)) result memory.new pages.new ports }
{
    let start = e.start as usize;
    let n = e.words as usize;
    match Target::try_from(e.kind) {
        Ok(Target::Memory) => {
            write_words(memory, start, image, at, n);
            s
        }
        Ok(Target::Pages) => {
            write_words(pages, start, image, at, n);
            s
        }
        Ok(Target::Registers) => write_registers(s, start, image, at, n),
        Ok(Target::Control) => State {
            core: write_control(s.core, start, image, at, n),
            ..s
        },
        Err(_) => unreachable!(),
    }
}

// The bodies of an image of some bytes that was accepted.
fn write_bodies(s: State, image: &[u8], memory: &mut [u16], pages: &mut [u16]) -> State
    requires { (2 ≤ length image.now) × (table_answer (length memory.old) image.now ≡ Ok tt) × (length pages.old ≡ 512) }
    ensures { (ports : List ℕ) → Became (with_bodies image.now (count_of image.now) 0
        (machine s memory.old pages.old ports)) result memory.new pages.new ports }
{
    let n = count(image);
    let mut t = s;
    let mut at = 2 + 10 * n;
    for k in 0..n {
        let e = entry_at(image, k);
        t = write_body(t, image, e, at, memory, pages);
        at += 2 * e.words as usize;
    }
    t
}

// Loading: a refusal changes nothing, and leaves its caller the given state; an image of no bytes leaves what reset leaves.
pub fn load(
    state: State,
    image: &[u8],
    memory: &mut [u16],
    pages: &mut [u16],
    ports: &mut [u16],
) -> Result<State, LoadError>
    ensures { Outcome image.now (machine state memory.old pages.old ports.old)
        result memory.new pages.new ports.new }
{
    check(image, memory.len(), pages.len(), ports.len())?;
    let fresh = reset(memory, pages, ports);
    if image.is_empty() {
        return Ok(fresh);
    }
    Ok(write_bodies(fresh, image, memory, pages))
}
