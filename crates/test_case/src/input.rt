// The input read byte by byte; what is to be written for a byte is put at the start of a buffer, and each function says how long it is.
ghost use Rattle.std.specs.Prelude.{◌≡◌};
ghost use Rattle.text.specs.Texts.{Text};
ghost use Rattle.test_case.specs.Session.{session_of, begun, on_run, on_entry, on_end, on_byte, on_last, closing, Turned};

use crate::case::{Case, made};
use crate::output::{put_all_changes, put_if, put_message, put_state};
use test_case_line::kind::Kind;
use test_case_line::{Entry, Malformed};
use text::first_bytes::FirstBytes;

// Where the reading stands: the present line, of which twelve bytes are kept, since an entry has eleven, so that a longer one is seen; the lines and the
// cases before it; whether the present case has an entry, and the case: one without an entry can be run too, so this is no Option of it.
#[derive(Clone, Copy)]
pub struct Reading {
    pub line: FirstBytes<12>,
    pub lines: u32,
    pub cases: u32,
    pub started: bool,
    pub present: Case,
}

impl Reading {
    // A new case after so many lines and cases: everything as after reset.
    #[tactic(auto, unfolding(crate::specs::Session::session_of, crate::specs::Session::begun))]
    pub fn begin(lines: u32, cases: u32) -> Reading
        ensures { session_of result ≡ begun lines cases }
    {
        Reading {
            line: FirstBytes::new(),
            lines,
            cases,
            started: false,
            present: Case::fresh(),
        }
    }

    // Runs the present case and makes its text; a new case starts.
    fn run_case(&mut self, steps: u32, out: &mut [u8; 262144]) -> usize
        ensures { Turned (on_run (session_of self.old) steps) out.old self.new out.new result }
    {
        let number = self.cases.wrapping_add(1);
        let before = self.present;
        let answer = self.present.run(steps);
        let refused = u32::from(run::number(answer));
        let at = put_state(
            out,
            number,
            refused,
            made(refused, steps),
            before.timed,
            self.present.state,
        );
        let end = put_all_changes(
            out,
            at,
            &before.memory,
            &before.pages,
            &before.ports,
            &self.present.memory,
            &self.present.pages,
            &self.present.ports,
        );
        *self = Reading::begin(self.lines, number);
        end
    }

    // An entry.
    #[tactic(auto, unfolding(crate::specs::Session::session_of, crate::specs::Session::on_entry, crate::specs::Session::with_entry))]
    fn on_entry(&mut self, entry: Entry, out: &mut [u8; 262144]) -> usize
        ensures { Turned (on_entry (session_of self.old) entry.kind entry.number entry.word) out.old self.new out.new result }
    {
        match entry.kind {
            Kind::Run => {
                let steps = u32::from(entry.number) * 65536 + u32::from(entry.word);
                self.run_case(steps, out)
            }
            _ => {
                self.started = true;
                self.present.enter(entry);
                0
            }
        }
    }

    // The end of a line.
    #[tactic(auto, unfolding(crate::specs::Session::session_of, crate::specs::Session::on_end, crate::specs::Session::next_line, crate::specs::Session::on_line, crate::specs::Session::one_more))]
    fn end_line(&mut self, out: &mut [u8; 262144]) -> usize
        ensures { Turned (on_end (session_of self.old)) out.old self.new out.new result }
    {
        self.lines = self.lines.wrapping_add(1);
        let read = test_case_line::lines::read(self.line.as_slice());
        self.line.clear();
        match read {
            Ok(None) => 0,
            Ok(Some(entry)) => self.on_entry(entry, out),
            Err(Malformed) => put_message(out, 0, b"malformed line ", self.lines),
        }
    }

    // One byte.
    #[tactic(auto, unfolding(crate::specs::Session::session_of, crate::specs::Session::on_byte, crate::specs::Session::with_byte))]
    pub fn take(&mut self, byte: u8, out: &mut [u8; 262144]) -> usize
        ensures { Turned (on_byte (session_of self.old) byte) out.old self.new out.new result }
    {
        if byte == b'\n' {
            return self.end_line(out);
        }
        self.line.keep(byte);
        0
    }

    // The end of the input: a last line may be without its newline.
    #[tactic(auto, unfolding(crate::specs::Session::session_of, crate::specs::Session::on_last))]
    pub fn finish(&mut self, out: &mut [u8; 262144]) -> usize
        ensures { Turned (on_last (session_of self.old)) out.old self.new out.new result }
    {
        if self.line.is_empty() {
            return 0;
        }
        self.end_line(out)
    }

    // The messages after it: a case without its run, and input that is left unread.
    pub fn close(&self, unread: bool, out: &mut [u8; 262144]) -> usize
        ensures { Text out.old (closing self.now.started self.now.cases unread self.now.lines) out.new result }
    {
        let number = self.cases.wrapping_add(1);
        let at = put_if(out, 0, self.started, b"unfinished case ", number);
        put_if(out, at, unread, b"unread after line ", self.lines)
    }
}
