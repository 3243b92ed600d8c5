// Spans: those of up to three words, and the words that an operation on blocks reads and writes.
#![tactic(auto)]

ghost use Rattle.std.specs.Prelude.{◌≡◌, ◌≤◌, ◌/◌, ◌%◌};
ghost use Rattle.decode.specs.Forms.{operation_of};
ghost use Rattle.machine.specs.Machine.{span_from};
ghost use Rattle.isa.specs.Accesses.{all_from, popped_span, pushed_span, moved_span, reads_of, writes_of};
ghost use Rattle.form_table.specs.FormNumbers.{need_of};

use addressing::fields::{field_a, field_b, get, less, registers_from};
use machine::Instruction;
use page::Span;

// count words from start on, upwards. No caller asks for more than sixteen.
pub fn span_from(start: u16, count: u16) -> Span
    ensures { result ≡ span_from start count }
{
    Span {
        start,
        count,
        stride: 1,
        hole: 16,
    }
}

// The words of LM and STM.
pub fn all_from(n: Instruction) -> Span
    ensures { (result ≡ all_from n) × (result.count ≤ 16) }
{
    span_from(n.address, field_a(n.first) + 1)
}

// The words that POPM reads.
fn popped_span(regs: &[u16; 16], n: Instruction) -> Span
    ensures { (result ≡ popped_span regs.now n) × (result.count ≤ 16) }
{
    let a = field_a(n.first);
    Span {
        start: get(regs, 15),
        count: registers_from(a, field_b(n.first)),
        stride: 1,
        hole: 15 - a,
    }
}

// The words that PSHM writes.
pub fn pushed_span(regs: &[u16; 16], n: Instruction) -> Span
    ensures { (result ≡ pushed_span regs.now n) × (result.count ≤ 16) }
{
    Span {
        start: less(get(regs, 15), 1),
        count: registers_from(field_a(n.first), field_b(n.first)),
        stride: 65535,
        hole: 16,
    }
}

// The word that MOV reads or writes, at the address in register k.
pub fn moved_span(regs: &[u16; 16], n: Instruction, k: u16) -> Span
    ensures { (result ≡ moved_span regs.now n k) × (result.count ≤ 16) }
{
    if get(regs, field_a(n.first) + 1) == 0 {
        return span_from(get(regs, k), 0);
    }
    span_from(get(regs, k), 1)
}

// The words that an operation on blocks reads: STM, PSHM and XWR none. Callers know that it is one.
pub fn reads(regs: &[u16; 16], n: Instruction) -> Span
    requires { need_of (operation_of n.form) / 64 % 2 ≡ 1 }
    ensures { (result ≡ reads_of regs.now n) × (result.count ≤ 16) }
{
    // by the number of its paragraph, as `isa/Execute: executed` goes
    match n.form % 256 {
        40 => all_from(n),
        44 => popped_span(regs, n),
        47 => moved_span(regs, n, field_b(n.first)),
        _ => span_from(n.address, 0),
    }
}

// The words that an operation on blocks writes: LM, POPM and XWR none. Callers know that it is one.
pub fn writes(regs: &[u16; 16], n: Instruction) -> Span
    requires { need_of (operation_of n.form) / 64 % 2 ≡ 1 }
    ensures { (result ≡ writes_of regs.now n) × (result.count ≤ 16) }
{
    // by the number of its paragraph, as `isa/Execute: executed` goes
    match n.form % 256 {
        47 => moved_span(regs, n, field_a(n.first)),
        50 => all_from(n),
        54 => pushed_span(regs, n),
        _ => span_from(n.address, 0),
    }
}
