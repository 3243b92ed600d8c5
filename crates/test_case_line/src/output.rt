// The text of a case, but for the report: its first and last lines, and the lines of what it changed, each in a vector with room for the longest one.
ghost use Rattle.std.specs.Prelude.{◌≡◌};
ghost use Rattle.arrayvec.specs.ArrayVec.{array_vec_len};
ghost use Rattle.test_case_line.specs.Texts.{case_line, time_line, remainder_line, mfs_line, entry_line};

use arrayvec::ArrayVec;
use machine::State;
use packed::marks;
use text::{put_bytes, put_decimal, put_hex};

// A case's number and the number of the run's answer: at most 34 bytes.
pub fn case_line(number: u32, answer: u32) -> ArrayVec<u8, 34>
    ensures { result.items ≡ case_line number answer }
{
    let mut text = ArrayVec::<u8, 34>::new();
    put_bytes(&mut text, b"case ");
    put_decimal(&mut text, number);
    put_bytes(&mut text, b" answer ");
    put_decimal(&mut text, answer);
    text.push(b'\n');
    text
}

// Timers, marks and counter: at most 44 bytes.
pub fn time_line(s: State) -> ArrayVec<u8, 44>
    ensures { result.items ≡ time_line s }
{
    let mut text = ArrayVec::<u8, 44>::new();
    put_bytes(&mut text, b"ta ");
    put_hex(&mut text, s.clock.ta);
    put_bytes(&mut text, b" tb ");
    put_hex(&mut text, s.clock.tb);
    put_bytes(&mut text, b" marks ");
    put_hex(&mut text, marks(s));
    put_bytes(&mut text, b" count ");
    put_decimal(&mut text, s.clock.count);
    text.push(b'\n');
    text
}

// The remainders of the timers: at most 33 bytes.
pub fn remainder_line(s: State) -> ArrayVec<u8, 33>
    ensures { result.items ≡ remainder_line s }
{
    let mut text = ArrayVec::<u8, 33>::new();
    put_bytes(&mut text, b"remainders ");
    put_decimal(&mut text, u32::from(s.clock.rema));
    text.push(b' ');
    put_decimal(&mut text, u32::from(s.clock.remb));
    text.push(b'\n');
    text
}

// The memory fault status: 9 bytes.
pub fn mfs_line(s: State) -> ArrayVec<u8, 9>
    ensures text { result.items ≡ mfs_line s }
    ensures long { array_vec_len result ≡ 9 }
{
    let mut text = ArrayVec::<u8, 9>::new();
    put_bytes(&mut text, b"mfs ");
    put_hex(&mut text, s.core.faults.mfs);
    text.push(b'\n');
    text
}

// An entry, its kind letter, its number and its word: 12 bytes.
pub fn entry_line(kind: u8, number: u16, word: u16) -> ArrayVec<u8, 12>
    ensures text { result.items ≡ entry_line kind number word }
    ensures long { array_vec_len result ≡ 12 }
{
    let mut text = ArrayVec::<u8, 12>::new();
    text.push(kind);
    text.push(b' ');
    put_hex(&mut text, number);
    text.push(b' ');
    put_hex(&mut text, word);
    text.push(b'\n');
    text
}
