// What the operations on blocks do to the registers.
ghost use Rattle.std.specs.Prelude.{◌≡◌, ◌+◌, ◌-◌, ◌<◌, ◌≤◌, length, take, drop};
ghost use Rattle.word.specs.Status.{status};
ghost use Rattle.page.specs.Spans.{wrapped};
ghost use Rattle.isa.specs.Fields.{field_a, field_b, register, with_register, with_registers, registers_from};
ghost use Rattle.isa.specs.Blocks.{popped_from, changed_by, moved_on};

use addressing::fields::{field_a, field_b, get, less, put, registers_from};
use machine::Instruction;
use std::num::wrapping_add_u16;
use word::status::status;

// LM: R0 to RN get the words from word number p on (5.40), which there are.
pub(crate) fn load_all(regs: &mut [u16; 16], n: Instruction, words: &[u16], p: usize)
    requires { p + (field_a n.first + 1) ≤ length words.now }
    ensures { regs.new ≡ with_registers regs.old 0 (take (field_a n.first + 1) (drop p words.now)) }
{
    let count = field_a(n.first) as usize + 1;
    regs[..count].copy_from_slice(&words[p..p + count]);
}

// POPM: k words from word number p on, which there are, go to the registers from a on, but none to R15 (5.44). a is a field of four bits, k at most 16.
#[tactic(auto, using(std::proofs::lemmas::Bool::Decides::nat_tests), unfolding(isa::specs::Blocks::popped_from))]
fn pop_words(regs: &mut [u16; 16], a: u16, k: u16, words: &[u16], p: usize)
    requires { (a < 16) × (k < 17) × (p + k ≤ length words.now) }
    ensures { regs.new ≡ popped_from a (drop p words.now) k 0 regs.old }
{
    for i in 0..k {
        let at = a + i;
        if at % 16 != 15 {
            put(regs, at, words[p + i as usize]);
        }
    }
}

// POPM: the registers get the words from word number p on, which there are, and R15 rises by their number (5.44).
#[tactic(auto, unfolding(page::specs::Spans::wrapped))]
pub(crate) fn pop_all(regs: &mut [u16; 16], n: Instruction, words: &[u16], p: usize)
    requires { p + registers_from (field_a n.first) (field_b n.first) ≤ length words.now }
    ensures { regs.new ≡ with_register
        (popped_from (field_a n.first) (drop p words.now) (registers_from (field_a n.first) (field_b n.first)) 0 regs.old) 15
        (wrapped (register regs.old 15 + registers_from (field_a n.first) (field_b n.first))) }
{
    let a = field_a(n.first);
    let k = registers_from(a, field_b(n.first));
    let top = wrapping_add_u16(get(regs, 15), k);
    pop_words(regs, a, k, words, p);
    put(regs, 15, top);
}

// PSHM: R15 falls by the number of registers pushed (5.54).
pub(crate) fn push_stack(regs: &mut [u16; 16], n: Instruction)
    ensures { regs.new ≡ with_register regs.old 15
        (wrapped (register regs.old 15 + (65536 - registers_from (field_a n.first) (field_b n.first)))) }
{
    let k = registers_from(field_a(n.first), field_b(n.first));
    put(regs, 15, less(get(regs, 15), k));
}

// Register k changes by d, modulo 65,536.
#[tactic(auto, unfolding(isa::specs::Blocks::changed_by, page::specs::Spans::wrapped))]
fn change(regs: &mut [u16; 16], k: u16, d: u16)
    ensures { regs.new ≡ changed_by k d regs.old }
{
    put(regs, k, wrapping_add_u16(get(regs, k), d));
}

// MOV: RA and RB rise, and the count in the register after RA falls (5.47). a is a field of four bits.
#[tactic(auto, unfolding(isa::specs::Blocks::moved_on))]
pub(crate) fn move_on(regs: &mut [u16; 16], a: u16, b: u16)
    requires { a < 16 }
    ensures { regs.new ≡ moved_on regs.old a b }
{
    change(regs, a, 1);
    change(regs, b, 1);
    change(regs, a + 1, 65535);
}

// XWR: RA and RB exchange their contents; the status of RA's new one (5.90).
pub(crate) fn exchange(regs: &mut [u16; 16], n: Instruction) -> u16
    ensures { (result ≡ status 16 (register regs.old (field_b n.first)))
        × (regs.new ≡ with_register (with_register regs.old (field_a n.first) (register regs.old (field_b n.first)))
        (field_b n.first) (register regs.old (field_a n.first))) }
{
    let a = field_a(n.first);
    let b = field_b(n.first);
    let ra = get(regs, a);
    let rb = get(regs, b);
    put(regs, a, rb);
    put(regs, b, ra);
    status(rb)
}
