// The form number of an instruction by its first word, from one table, and what it tells: the words that an instruction not on blocks reads and writes.
#![tactic(auto)]

ghost use Rattle.std.specs.Prelude.{◌≡◌, List, ℕ, ◌≤◌, ◌<◌, ◌/◌, ◌%◌};
ghost use Rattle.decode.specs.Forms.{operation_of};
ghost use Rattle.decode.specs.Decode.{form_claimed, decode_of};
ghost use Rattle.isa.specs.Accesses.{reads_of, writes_of};
ghost use Rattle.form_table.specs.FormNumbers.{need_of, counts_of, number_of, numbers, read_start, write_start};

mod numbers;

use addressing::fields::{field_a, get, less};
use machine::Instruction;

// The table of form numbers, one for each opcode. A run makes it once and lends it to each `decode_with`.
pub fn table() -> [u32; 256]
    ensures { result ≡ numbers }
{
    numbers::TABLE
}

// The form number under opcodes 40 to 43, by bits 8 to 11: four bits, so that every caller has a number below 16.
fn indexed(upper: usize) -> u32
    requires { upper < 16 }
    ensures { result ≡ number_of (form_claimed 0x40 upper 0) }
{
    numbers::INDEXED[upper]
}

// The form number under opcode 4A, by bits 12 to 15, likewise below 16.
fn immediate(lower: usize) -> u32
    requires { lower < 16 }
    ensures { result ≡ number_of (form_claimed 0x4A 0 lower) }
{
    numbers::IMMEDIATE[lower]
}

// The form number under opcode FF, by the whole first word.
fn special(first: u16) -> u32
    ensures { result ≡ number_of (form_claimed 0xFF (first / 16 % 16) (first % 16)) }
{
    match first % 256 {
        0x00 => numbers::NOP,
        0xFF => numbers::BPT,
        _ => numbers::ILLEGAL,
    }
}

// The form number of an instruction by its first word, with the form 0 where it is illegal. Every caller lends what `table` gave it.
pub fn decode_with(table: &[u32; 256], first: u16) -> u32
    requires { table.now ≡ numbers }
    ensures { result ≡ number_of (decode_of first) }
{
    let number = table[(first / 256) as usize];
    // a form with a paragraph is whole
    if number % 256 != 0 {
        return number;
    }
    match number {
        numbers::UNDER_40 => indexed((first / 16 % 16) as usize),
        numbers::UNDER_4A => immediate((first % 16) as usize),
        numbers::UNDER_FF => special(first),
        _ => number,
    }
}

// Where the words read start, unless the operation is on blocks.
pub fn read_start(regs: &[u16; 16], n: Instruction, number: u32) -> u16
    requires { number ≡ number_of n.form }
    ensures { (need_of (operation_of n.form) / 64 % 2 ≡ 0 → result ≡ (reads_of regs.now n).start) × (result ≡ read_start regs.now n) }
{
    if number / 0x0010_0000 % 2 == 1 {
        return get(regs, field_a(n.first));
    }
    n.address
}

// How many they are.
pub fn read_count(n: Instruction, number: u32) -> u16
    requires { number ≡ number_of n.form }
    ensures { ((regs : List ℕ) → need_of (operation_of n.form) / 64 % 2 ≡ 0 → result ≡ (reads_of regs n).count) × (result ≤ 3) × (result ≡ counts_of n.form % 4) }
{
    (number / 0x0001_0000 % 4) as u16
}

// Where the words written start, unless the operation is on blocks.
pub fn write_start(regs: &[u16; 16], n: Instruction, number: u32) -> u16
    requires { number ≡ number_of n.form }
    ensures { (need_of (operation_of n.form) / 64 % 2 ≡ 0 → result ≡ (writes_of regs.now n).start) × (result ≡ write_start regs.now n) }
{
    if number / 0x0020_0000 % 2 == 1 {
        return less(get(regs, field_a(n.first)), 1);
    }
    n.address
}

// How many they are.
pub fn write_count(n: Instruction, number: u32) -> u16
    requires { number ≡ number_of n.form }
    ensures { ((regs : List ℕ) → need_of (operation_of n.form) / 64 % 2 ≡ 0 → result ≡ (writes_of regs n).count) × (result ≤ 3) × (result ≡ counts_of n.form / 4 % 4) }
{
    (number / 0x0004_0000 % 4) as u16
}
