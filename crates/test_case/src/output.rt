// Text put into a buffer of 262,144 bytes from a place on; each function returns the place after it. Each caller leaves room for it. A case's
// text is at most 1,024 bytes of state and 12 for each word that has changed. The buffer with its places stays: `Text` promises of `input` that the bytes of the
// caller's array behind the text stay (docs/TRACE.md), and a vector of that length of its own would be filled with blanks for each of the 9,615 cases.
ghost use Rattle.std.specs.Prelude.{◌≡◌, ◌+◌, ◌*◌, ◌≤◌, ◌++◌, length, true};
ghost use Rattle.arrayvec.specs.ArrayVec.{array_vec_len};
ghost use Rattle.text.specs.Texts.{numbered_line, Wrote};
ghost use Rattle.test_case_line.specs.Texts.{entry_line};
ghost use Rattle.test_case.specs.Case.{changes, state_lines, Same};
ghost use Rattle.test_case.specs.Session.{said_if};

use arrayvec::ArrayVec;
use machine::State;
use report::put_report;
use test_case_line::output::{case_line, entry_line, mfs_line, remainder_line, time_line};
use text::{copy, put_bytes, put_numbered_line};

// A message of at most 200 bytes and a number.
pub(crate) fn put_message(out: &mut [u8; 262144], at: usize, message: &[u8], number: u32) -> usize
    requires { (at + 256 ≤ 262144) × (length message.now ≤ 200) }
    ensures { (Wrote out.old at (numbered_line message.now number) out.new result) × (result ≤ at + 256) }
{
    let mut line = ArrayVec::<u8, 256>::new();
    put_numbered_line(&mut line, message, number);
    copy(out, at, line.as_slice())
}

// The same where it is to be said.
pub(crate) fn put_if(
    out: &mut [u8; 262144],
    at: usize,
    said: bool,
    message: &[u8],
    number: u32,
) -> usize
    requires { (at + 256 ≤ 262144) × (length message.now ≤ 200) }
    ensures { (Wrote out.old at (said_if said message.now number) out.new result) × (result ≤ at + 256) }
{
    if said {
        return put_message(out, at, message, number);
    }
    at
}

// A case's number, the number of its run's answer, its steps, and the state after it, put behind a text: the remainders where they are to be shown, the memory
// fault status where it is not 0.
fn state_lines<const N: usize>(
    out: &mut ArrayVec<u8, N>,
    number: u32,
    answer: u32,
    steps: u32,
    timed: bool,
    state: State,
)
    requires { array_vec_len out.old + 263 ≤ N }
    ensures { out.new.items ≡ out.old.items ++ state_lines number answer steps timed state }
{
    put_bytes(out, case_line(number, answer).as_slice());
    put_report(out, steps, state);
    put_bytes(out, time_line(state).as_slice());
    if timed {
        put_bytes(out, remainder_line(state).as_slice());
    }
    if state.core.faults.mfs != 0 {
        put_bytes(out, mfs_line(state).as_slice());
    }
}

// The same at the start of the buffer.
pub(crate) fn put_state(
    out: &mut [u8; 262144],
    number: u32,
    answer: u32,
    steps: u32,
    timed: bool,
    state: State,
) -> usize
    ensures { (Wrote out.old 0 (state_lines number answer steps timed state) out.new result) × (result ≤ 1024) }
{
    let mut text = ArrayVec::<u8, 1024>::new();
    state_lines(&mut text, number, answer, steps, timed, state);
    copy(out, 0, text.as_slice())
}

// An entry.
fn put_entry(out: &mut [u8; 262144], at: usize, kind: u8, number: u16, word: u16) -> usize
    requires { at + 12 ≤ 262144 }
    ensures { (Wrote out.old at (entry_line kind number word) out.new result) × (result ≡ at + 12) }
{
    copy(out, at, entry_line(kind, number, word).as_slice())
}

// Whether no word has changed; false may come of any words. They are counted to the end, since several are then compared at once, as a loop with an exit is not.
fn is_same(before: &[u16], after: &[u16]) -> bool
    requires { (length before.now ≡ length after.now) × (length after.now ≤ 16384) }
    ensures { result ≡ true → Same before.now after.now (length after.now) }
{
    let mut changed: u32 = 0;
    for n in 0..after.len() {
        if before[n] != after[n] {
            changed += 1;
        }
    }
    changed == 0
}

// The entries of the words that have changed.
fn put_changes(out: &mut [u8; 262144], at: usize, kind: u8, before: &[u16], after: &[u16]) -> usize
    requires { (length before.now ≡ length after.now) × (length after.now ≤ 16384) × (at + 12 * length after.now ≤ 262144) }
    ensures { (Wrote out.old at (changes kind before.now after.now) out.new result) × (result ≤ at + 12 * length after.now) }
{
    if is_same(before, after) {
        return at;
    }
    let mut to = at;
    for n in 0..after.len() {
        if before[n] != after[n] {
            to = put_entry(out, to, kind, n as u16, after[n]);
        }
    }
    to
}

// The entries of all words that have changed: of memory, of page registers, of ports.
pub(crate) fn put_all_changes(
    out: &mut [u8; 262144],
    at: usize,
    words: &[u16; 16384],
    registers: &[u16; 512],
    lines: &[u16; 1024],
    memory: &[u16; 16384],
    pages: &[u16; 512],
    ports: &[u16; 1024],
) -> usize
    requires { at ≤ 1024 }
    ensures { Wrote out.old at (changes 77 words.now memory.now
        ++ (changes 80 registers.now pages.now ++ changes 79 lines.now ports.now)) out.new result }
{
    let at = put_changes(out, at, b'M', words, memory);
    let at = put_changes(out, at, b'P', registers, pages);
    put_changes(out, at, b'O', lines, ports)
}
