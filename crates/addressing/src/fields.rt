// The fields of an instruction's first word, and the registers that they name.
ghost use Rattle.std.specs.Prelude.{◌≡◌, ◌+◌, ◌-◌, ◌<◌, ◌≤◌};
ghost use Rattle.page.specs.Spans.{wrapped};
ghost use Rattle.isa.specs.Fields.{field_a, field_b, base_register, displacement, signed_displacement, register, with_register, registers_from, indexed};
ghost use Rattle.isa.specs.Words.{register_pair};

use std::num::{wrapping_add_u16, wrapping_sub_u16};

// Bits 8 to 11.
#[tactic(auto, unfolding(isa::specs::Fields::field_a))]
pub fn field_a(w: u16) -> u16
    ensures { (result ≡ field_a w) × (result < 16) }
{
    w / 16 % 16
}

// Bits 12 to 15.
#[tactic(auto, unfolding(isa::specs::Fields::field_b))]
pub fn field_b(w: u16) -> u16
    ensures { (result ≡ field_b w) × (result < 16) }
{
    w % 16
}

// The base register that bits 6 and 7 name.
#[tactic(auto, unfolding(isa::specs::Fields::base_register))]
pub(crate) fn base_of(w: u16) -> u16
    ensures { result ≡ base_register w }
{
    12 + w / 256 % 4
}

// Bits 8 to 15, from 0 to 255.
#[tactic(auto, unfolding(isa::specs::Fields::displacement))]
pub(crate) fn displacement_of(w: u16) -> u16
    ensures { result ≡ displacement w }
{
    w % 256
}

// The same from -128 to 127.
#[tactic(auto, using(std::proofs::lemmas::Bool::Decides::nat_tests), unfolding(isa::specs::Fields::signed_displacement))]
pub(crate) fn signed_displacement(w: u16) -> u16
    ensures { result ≡ signed_displacement w }
{
    let d = w % 256;
    if d < 128 {
        return d;
    }
    65280 + d
}

// Register n, its number taken modulo 16.
#[tactic(auto, unfolding(isa::specs::Fields::register))]
pub fn get(regs: &[u16; 16], n: u16) -> u16
    ensures { result ≡ register regs.now n }
{
    regs[(n % 16) as usize]
}

// Register n gets v.
#[tactic(auto, unfolding(isa::specs::Fields::with_register))]
pub fn put(regs: &mut [u16; 16], n: u16, v: u16)
    ensures { regs.new ≡ with_register regs.old n v }
{
    regs[(n % 16) as usize] = v;
}

// The double word of register k and the next. k is a register's number.
#[tactic(auto, unfolding(isa::specs::Words::register_pair))]
pub fn pair_at(regs: &[u16; 16], k: u16) -> u32
    requires { k < 16 }
    ensures { result ≡ register_pair regs.now k }
{
    word::pair::join(get(regs, k), get(regs, k + 1))
}

// How many registers there are from a on to b. Both are fields of four bits.
#[tactic(auto, unfolding(isa::specs::Fields::registers_from))]
pub fn registers_from(a: u16, b: u16) -> u16
    requires { (a < 16) × (b < 16) }
    ensures { (result ≡ registers_from a b) × (result ≤ 16) }
{
    (16 + b - a) % 16 + 1
}

// a plus register x, where x is not 0.
#[tactic(auto, using(std::proofs::lemmas::Bool::Decides::nat_tests), unfolding(isa::specs::Fields::indexed, page::specs::Spans::wrapped))]
pub(crate) fn index_by(regs: &[u16; 16], x: u16, a: u16) -> u16
    ensures { result ≡ indexed regs.now x a }
{
    if x == 0 {
        return a;
    }
    wrapping_add_u16(a, get(regs, x))
}

// a less b, modulo 65,536.
#[tactic(auto, unfolding(page::specs::Spans::wrapped))]
pub fn less(a: u16, b: u16) -> u16
    ensures { result ≡ wrapped (a + (65536 - b)) }
{
    wrapping_sub_u16(a, b)
}
