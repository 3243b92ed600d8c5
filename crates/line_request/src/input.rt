// The input read byte by byte; what is to be written for a byte is put at the start of a buffer.
ghost use Rattle.std.specs.Prelude.{◌≡◌};
ghost use Rattle.line_request.specs.Session.{session_of, begun, on_end, on_byte, on_last, Turned};

use crate::answer::put_answer;
use arrayvec::ArrayVec;
use text::first_bytes::FirstBytes;
use text::show;

// Where the reading of the input stands: the present line, of which 65,537 bytes are kept, so that one of more than 65,536 is seen, and how many lines
// were before it.
#[derive(Clone, Copy)]
pub struct Reading {
    pub line: FirstBytes<65537>,
    pub lines: u32,
}

// `take` and `finish` stand in `test_case::input` once more: one generic pair needs a trait of three members for the few lines that both share.
impl Reading {
    // The start of the input.
    #[tactic(auto, unfolding(crate::specs::Session::session_of, crate::specs::Session::begun))]
    pub fn begin() -> Reading
        ensures { session_of result ≡ begun }
    {
        Reading {
            line: FirstBytes::new(),
            lines: 0,
        }
    }

    // The end of a line. How long the text is that is to be written for it, as in the two functions that follow. The caller's array stays: `Turned` promises
    // of `take` and `finish` that its other bytes stay too.
    #[tactic(auto, unfolding(crate::specs::Session::session_of, crate::specs::Session::on_end, crate::specs::Session::number_of))]
    fn end_line(&mut self, out: &mut [u8; 256]) -> usize
        ensures { Turned (on_end (session_of self.old)) out.old self.new out.new result }
    {
        self.lines = self.lines.wrapping_add(1);
        let mut text = ArrayVec::<u8, 41>::new();
        put_answer(&mut text, self.line.as_slice(), self.lines);
        self.line.clear();
        show(&text, out)
    }

    // One byte.
    #[tactic(auto, unfolding(crate::specs::Session::session_of, crate::specs::Session::on_byte, crate::specs::Session::with_byte))]
    pub fn take(&mut self, byte: u8, out: &mut [u8; 256]) -> usize
        ensures { Turned (on_byte (session_of self.old) byte) out.old self.new out.new result }
    {
        if byte == b'\n' {
            return self.end_line(out);
        }
        self.line.keep(byte);
        0
    }

    // The end of the input: a last line may be without its newline.
    #[tactic(auto, unfolding(crate::specs::Session::session_of, crate::specs::Session::on_last))]
    pub fn finish(&mut self, out: &mut [u8; 256]) -> usize
        ensures { Turned (on_last (session_of self.old)) out.old self.new out.new result }
    {
        if self.line.is_empty() {
            return 0;
        }
        self.end_line(out)
    }
}
