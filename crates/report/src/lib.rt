// The program's text (Scope, "The program"): the report of a run, and a refusal, each put behind a text or at the start of a list of 256 bytes.
#![tactic(auto)]

ghost use Rattle.std.specs.Prelude.{◌≡◌, ◌+◌, ◌≤◌, ◌∷◌, ◌++◌};
ghost use Rattle.arrayvec.specs.ArrayVec.{array_vec_len};
ghost use Rattle.text.specs.Texts.{blank, hex, Text};
ghost use Rattle.report.specs.Report.{steps_line, named, control_line, registers, registers_line, report_of, refusal_of};

use arrayvec::ArrayVec;
use machine::{Core, State};
use text::{digit, put_bytes, put_decimal, put_hex, put_numbered_line, show};

// The line of the steps: at most 17 bytes.
fn put_steps<const N: usize>(out: &mut ArrayVec<u8, N>, steps: u32)
    requires { array_vec_len out.old + 17 ≤ N }
    ensures text { out.new.items ≡ out.old.items ++ steps_line steps }
    ensures short { array_vec_len out.new ≤ array_vec_len out.old + 17 }
{
    put_bytes(out, b"steps ");
    put_decimal(out, steps);
    out.push(b'\n');
}

// A register after its name: 8 bytes.
fn put_named<const N: usize>(out: &mut ArrayVec<u8, N>, name: &[u8; 3], word: u16, end: u8)
    requires { array_vec_len out.old + 8 ≤ N }
    ensures text { out.new.items ≡ out.old.items ++ named name.now word end }
    ensures long { array_vec_len out.new ≡ array_vec_len out.old + 8 }
{
    put_bytes(out, name);
    put_hex(out, word);
    out.push(end);
}

// The line of the five registers by name: 40 bytes.
fn put_control<const N: usize>(out: &mut ArrayVec<u8, N>, c: Core)
    requires { array_vec_len out.old + 40 ≤ N }
    ensures text { out.new.items ≡ out.old.items ++ control_line c }
    ensures long { array_vec_len out.new ≡ array_vec_len out.old + 40 }
{
    put_named(out, b"ic ", c.ic, b' ');
    put_named(out, b"sw ", c.sw, b' ');
    put_named(out, b"mk ", c.mk, b' ');
    put_named(out, b"pi ", c.pi, b' ');
    put_named(out, b"ft ", c.faults.ft, b'\n');
}

// Eight general registers, each after a blank: 40 bytes.
fn put_registers<const N: usize>(out: &mut ArrayVec<u8, N>, regs: &[u16; 16], first: usize)
    requires room { array_vec_len out.old + 40 ≤ N }
    requires eight { first ≤ 8 }
    ensures text { out.new.items ≡ out.old.items ++ registers regs.now first 8 }
    ensures long { array_vec_len out.new ≡ array_vec_len out.old + 40 }
{
    for word in &regs[first..first + 8] {
        out.push(b' ');
        put_hex(out, *word);
    }
}

// The line of eight general registers: 43 bytes.
fn put_line<const N: usize>(out: &mut ArrayVec<u8, N>, regs: &[u16; 16], first: usize)
    requires room { array_vec_len out.old + 43 ≤ N }
    requires eight { first ≤ 8 }
    ensures text { out.new.items ≡ out.old.items ++ registers_line regs.now first }
    ensures long { array_vec_len out.new ≡ array_vec_len out.old + 43 }
{
    out.push(b'r');
    out.push(digit(first as u16));
    put_registers(out, regs, first);
    out.push(b'\n');
}

// The report of a run put behind a text, its steps, and the state after it: at most 143 bytes.
pub fn put_report<const N: usize>(out: &mut ArrayVec<u8, N>, steps: u32, s: State)
    requires { array_vec_len out.old + 143 ≤ N }
    ensures text { out.new.items ≡ out.old.items ++ report_of steps s }
    ensures short { array_vec_len out.new ≤ array_vec_len out.old + 143 }
{
    put_steps(out, steps);
    put_control(out, s.core);
    put_line(out, &s.regs, 0);
    put_line(out, &s.regs, 8);
}

// The same at the start of a caller's 256 bytes. The array stays: `Text` promises of this function that the other bytes stay too (docs/TRUST.md).
pub fn report(steps: u32, s: State, out: &mut [u8; 256]) -> usize
    ensures { Text out.old (report_of steps s) out.new result }
{
    let mut text = ArrayVec::<u8, 256>::new();
    put_report(&mut text, steps, s);
    show(&text, out)
}

// A refusal by its number, at the start of a caller's 256 bytes, as above.
pub fn refusal(number: u32, out: &mut [u8; 256]) -> usize
    ensures { Text out.old (refusal_of number) out.new result }
{
    let mut line = ArrayVec::<u8, 256>::new();
    put_numbered_line(&mut line, b"refused ", number);
    show(&line, out)
}
