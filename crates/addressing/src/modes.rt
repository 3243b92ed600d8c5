// The derived address of each addressing mode before indirection, and the derived operand (4.3, table V).
ghost use Rattle.std.specs.Prelude.{◌≡◌, ℕ, ◌%◌, ◌<◌, ◌≤◌};
ghost use Rattle.decode.specs.Forms.{mode_of};
ghost use Rattle.isa.specs.Addressing.{derived_from, is_immediate, is_based, operand_word, operand, double_operand, base_accumulator, accumulator};

use crate::fields::{
    base_of, displacement_of, field_a, field_b, get, index_by, signed_displacement,
};
use decode::mode;
use machine::Instruction;
use std::num::wrapping_add_u16;

// The short forms, whose address or operand is made of the first word: by the ranges of the form number, its length in words left aside.
fn derive_short(form: u16, regs: &[u16; 16], first: u16) -> u16
    requires { (0x0200 ≤ form % 4096) × (form % 4096 < 0x0600) }
    ensures { (ic second : ℕ) → result ≡ derived_from (mode_of form) regs.now ic first second }
{
    match form % 4096 {
        // base relative, from 0x0200 on
        0..=0x02FF => wrapping_add_u16(get(regs, base_of(first)), displacement_of(first)),
        // base relative-indexed
        0x0300..=0x03FF => index_by(regs, field_b(first), get(regs, base_of(first))),
        // immediate short positive
        0x0400..=0x04FF => field_b(first) + 1,
        // immediate short negative
        _ => 65535 - field_b(first),
    }
}

// The address of a form before indirection, or its immediate operand: by the ranges of the form number, its length in words left aside. Each range is that of
// an addressing mode with all its operations, or of several. A match tests its ranges upwards, so the short forms, which are rarer, are one range here.
pub fn derive(form: u16, regs: &[u16; 16], ic: u16, first: u16, second: u16) -> u16
    ensures { result ≡ derived_from (mode_of form) regs.now ic first second }
{
    match form % 4096 {
        // special, register direct
        0..=0x01FF => 0,
        // base relative, base relative-indexed, immediate short
        0x0200..=0x05FF => derive_short(form, regs, first),
        // memory direct, memory indirect, immediate long, each indexed or not
        0x0600..=0x08FF => index_by(regs, field_b(first), second),
        // immediate long with an opcode extension
        0x0900..=0x09FF => second,
        // instruction counter relative
        0x0A00..=0x0AFF => wrapping_add_u16(ic, signed_displacement(first)),
        _ => 0,
    }
}

// Whether the operand of a mode is in the instruction. A match, here and below: `matches!` makes three tests of it, and 7 % more instructions in `load_operation`.
#[tactic(auto, using(std::proofs::lemmas::Bool::Decides::nat_tests), unfolding(isa::specs::Addressing::is_immediate))]
fn immediate(mode: u16) -> bool
    ensures { result ≡ is_immediate mode }
{
    match mode {
        mode::ISP | mode::ISN | mode::IM | mode::EXT => true,
        _ => false,
    }
}

// Whether a mode has a base register.
#[tactic(auto, using(std::proofs::lemmas::Bool::Decides::nat_tests), unfolding(isa::specs::Addressing::is_based))]
fn based(mode: u16) -> bool
    ensures { result ≡ is_based mode }
{
    match mode {
        mode::B | mode::BX => true,
        _ => false,
    }
}

// Word k of the operand, k at most 2: register RB + k, or x, which was read.
#[tactic(auto, using(std::proofs::lemmas::Bool::Decides::nat_tests), unfolding(isa::specs::Addressing::operand_word, isa::specs::Addressing::is_register))]
pub fn operand_word(regs: &[u16; 16], n: Instruction, k: u16, x: u16) -> u16
    requires { k < 3 }
    ensures { result ≡ operand_word regs.now n k x }
{
    if n.form / 256 % 16 == mode::R {
        return get(regs, field_b(n.first) + k);
    }
    x
}

// A single precision operand.
#[tactic(auto, unfolding(isa::specs::Addressing::operand))]
pub fn operand_of(regs: &[u16; 16], n: Instruction, x: u16) -> u16
    ensures { result ≡ operand regs.now n x }
{
    if immediate(n.form / 256 % 16) {
        return n.address;
    }
    operand_word(regs, n, 0, x)
}

// A double precision operand.
#[tactic(auto, unfolding(isa::specs::Addressing::double_operand))]
pub fn double_operand(regs: &[u16; 16], n: Instruction, x: u16, y: u16) -> u32
    ensures { result ≡ double_operand regs.now n x y }
{
    word::pair::join(operand_word(regs, n, 0, x), operand_word(regs, n, 1, y))
}

// The accumulator of a mode with a base register.
#[tactic(auto, using(std::proofs::lemmas::Bool::Decides::nat_tests), unfolding(isa::specs::Addressing::base_accumulator))]
fn base_accumulator(operation: u16) -> u16
    ensures { (result ≡ base_accumulator operation) × (result < 16) }
{
    match operation {
        39 | 48 | 60 | 68 | 74 | 79 | 94 => 0,
        _ => 2,
    }
}

// The number of the accumulator.
#[tactic(auto, unfolding(isa::specs::Addressing::accumulator))]
pub fn accumulator_of(n: Instruction) -> u16
    ensures { (result ≡ accumulator n) × (result < 16) }
{
    if based(n.form / 256 % 16) {
        return base_accumulator(n.form % 256);
    }
    field_a(n.first)
}
