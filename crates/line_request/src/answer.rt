// A request and its answer, put behind a text.
ghost use Rattle.std.specs.Prelude.{◌≡◌, ◌+◌, ◌≤◌, ◌++◌};
ghost use Rattle.arrayvec.specs.ArrayVec.{array_vec_len};
ghost use Rattle.line.specs.Lines.{line_of, read_line};
ghost use Rattle.line_request.specs.Requests.{words_asked, request_of, refused, print_text, words_text, answer_to};

use crate::Request;
use arrayvec::ArrayVec;
use line::{LineError, Words};
use text::read::word;
use text::{put_bytes, put_hex, put_numbered_line};

// Two words to print.
#[tactic(auto, unfolding(crate::specs::Requests::words_asked, crate::specs::Requests::printing))]
fn words_asked(line: &[u8]) -> Option<Request>
    ensures { result ≡ words_asked line.now }
{
    if line.len() != 11 || line[6] != b' ' {
        return None;
    }
    let w = word(line[2], line[3], line[4], line[5])?;
    let v = word(line[7], line[8], line[9], line[10])?;
    Some(Request::Print(w, v))
}

// What a line of the input asks; none where it is malformed.
#[tactic(auto, unfolding(crate::specs::Requests::request_of))]
fn request(line: &[u8]) -> Option<Request>
    ensures { result ≡ request_of line.now }
{
    if 65536 < line.len() {
        return None;
    }
    match line {
        [b'W', b' ', ..] => words_asked(line),
        [b'L', b' ', ..] => Some(Request::Read),
        _ => None,
    }
}

#[tactic(auto, unfolding(crate::specs::Requests::refused, text::specs::Texts::bytes_of))]
fn put_refused<const N: usize>(out: &mut ArrayVec<u8, N>, number: u32)
    requires { array_vec_len out.old + 41 ≤ N }
    ensures text { out.new.items ≡ out.old.items ++ refused number }
    ensures short { array_vec_len out.new ≤ array_vec_len out.old + 41 }
{
    put_numbered_line(out, b"refused ", number);
}

// The line of two words.
fn put_printed<const N: usize>(out: &mut ArrayVec<u8, N>, w: u16, v: u16)
    requires { array_vec_len out.old + 41 ≤ N }
    ensures text { out.new.items ≡ out.old.items ++ print_text (line_of w v) }
    ensures short { array_vec_len out.new ≤ array_vec_len out.old + 41 }
{
    match line::line(w, v) {
        Some(text) => {
            put_bytes(out, text.as_slice());
            out.push(b'\n');
        }
        None => put_refused(out, 14),
    }
}

// The words of a line.
#[tactic(auto, unfolding(crate::specs::Requests::words_text))]
fn put_words<const N: usize>(out: &mut ArrayVec<u8, N>, line: &[u8])
    requires { array_vec_len out.old + 41 ≤ N }
    ensures text { out.new.items ≡ out.old.items ++ words_text (read_line line.now) }
    ensures short { array_vec_len out.new ≤ array_vec_len out.old + 41 }
{
    match line::read(line) {
        Ok(Words::One(w)) => {
            put_hex(out, w);
            out.push(b'\n');
        }
        Ok(Words::Two(w, v)) => {
            put_hex(out, w);
            out.push(b' ');
            put_hex(out, v);
            out.push(b'\n');
        }
        Err(LineError::UnknownMnemonic) => put_refused(out, 14),
        Err(LineError::BadOperands) => put_refused(out, 15),
        Err(LineError::OutsideField) => put_refused(out, 16),
    }
}

// The answer to a line of the input: at most 41 bytes.
#[tactic(auto, unfolding(crate::specs::Requests::answer_to, crate::specs::Requests::answer_by, text::specs::Texts::bytes_of))]
pub(crate) fn put_answer<const N: usize>(out: &mut ArrayVec<u8, N>, line: &[u8], number: u32)
    requires { array_vec_len out.old + 41 ≤ N }
    ensures text { out.new.items ≡ out.old.items ++ answer_to number line.now }
    ensures short { array_vec_len out.new ≤ array_vec_len out.old + 41 }
{
    match request(line) {
        Some(Request::Print(w, v)) => put_printed(out, w, v),
        Some(Request::Read) => {
            let asked = &line[2..];
            put_words(out, asked);
        }
        None => put_numbered_line(out, b"malformed line ", number),
    }
}
