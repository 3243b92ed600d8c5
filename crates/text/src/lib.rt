// Text in a vector of bytes that lies in place, and numbers as text: put behind what is there, and read (`read`); the first bytes of a line (`first_bytes`).
// Each caller leaves room for what is put.
#![tactic(auto)]

ghost use Rattle.std.specs.Prelude.{◌≡◌, ◌++◌, ◌∷◌, ◌+◌, ◌<◌, ◌≤◌, length};
ghost use Rattle.arrayvec.specs.ArrayVec.{array_vec_len};
ghost use Rattle.text.specs.Texts.{digit, hex, decimal, numbered_line, Wrote, Text};

pub mod first_bytes;
pub mod read;

use arrayvec::ArrayVec;
use itoa::Buffer;

// Bytes put behind those of a text.
pub fn put_bytes<const N: usize>(out: &mut ArrayVec<u8, N>, bytes: &[u8])
    requires { array_vec_len out.old + length bytes.now ≤ N }
    ensures text { out.new.items ≡ out.old.items ++ bytes.now }
    ensures long { array_vec_len out.new ≡ array_vec_len out.old + length bytes.now }
{
    for byte in bytes {
        out.push(*byte);
    }
}

// A digit to the base sixteen.
pub fn digit(n: u16) -> u8
    requires { n < 16 }
    ensures { result ≡ digit n }
{
    if n < 10 {
        return (48 + n) as u8;
    }
    (55 + n) as u8
}

// A word in hexadecimal: four digits. They are made here, since the library's `{:04X}` writes through a Result, and this function cannot fail.
pub fn put_hex<const N: usize>(out: &mut ArrayVec<u8, N>, word: u16)
    requires { array_vec_len out.old + 4 ≤ N }
    ensures text { out.new.items ≡ out.old.items ++ hex word }
    ensures long { array_vec_len out.new ≡ array_vec_len out.old + 4 }
{
    out.push(digit(word / 4096));
    out.push(digit(word / 256 % 16));
    out.push(digit(word / 16 % 16));
    out.push(digit(word % 16));
}

// A number in decimal: at most ten digits.
pub fn put_decimal<const N: usize>(out: &mut ArrayVec<u8, N>, n: u32)
    requires { array_vec_len out.old + 10 ≤ N }
    ensures text { out.new.items ≡ out.old.items ++ decimal n }
    ensures short { array_vec_len out.new ≤ array_vec_len out.old + 10 }
{
    let mut digits = Buffer::new();
    put_bytes(out, digits.format(n).as_bytes());
}

// A message and a number, as a line.
pub fn put_numbered_line<const N: usize>(out: &mut ArrayVec<u8, N>, message: &[u8], number: u32)
    requires { array_vec_len out.old + length message.now + 11 ≤ N }
    ensures text { out.new.items ≡ out.old.items ++ numbered_line message.now number }
    ensures short { array_vec_len out.new ≤ array_vec_len out.old + length message.now + 11 }
{
    put_bytes(out, message);
    put_decimal(out, number);
    out.push(b'\n');
}

// Bytes put at a place of a list of any length, whose other bytes stay; the place after them. The program `test_cases` puts its text straight into a caller's
// 262,144 bytes so, of which `Text` promises that the others stay: a vector of that length would be filled with blanks for each of its cases.
pub fn copy(out: &mut [u8], at: usize, bytes: &[u8]) -> usize
    requires { at + length bytes.now ≤ length out.old }
    ensures { (Wrote out.old at bytes.now out.new result) × (result ≡ at + length bytes.now) }
{
    let end = at + bytes.len();
    out[at..end].copy_from_slice(bytes);
    end
}

// A text put at the start of a list of bytes, whose other bytes stay; how many bytes it has.
pub fn show<const N: usize>(text: &ArrayVec<u8, N>, out: &mut [u8]) -> usize
    requires { array_vec_len text.now ≤ length out.old }
    ensures { Text out.old text.now.items out.new result }
{
    let bytes = text.as_slice();
    out[..bytes.len()].copy_from_slice(bytes);
    bytes.len()
}
