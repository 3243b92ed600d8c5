// Words of memory stored by their logical addresses. As for every lookup, callers have a group of four bits.
ghost use Rattle.std.specs.Prelude.{◌≡◌, ◌<◌, ◌≤◌, length};
ghost use Rattle.page.specs.Pages.{lookup};
ghost use Rattle.page.specs.Spans.{put_at, written};

use page::lookup::look_up;
use page::{Access, Span};

// The word v is stored at a logical address; a refused one keeps the memory.
pub fn write_word(key: u16, group: u16, memory: &mut [u16], pages: &[u16; 512], a: u16, v: u16)
    requires { group < 16 }
    ensures { memory.new ≡ put_at memory.old (lookup Access.Write key group pages.now (length memory.old) a) v }
{
    if let Ok(p) = look_up(Access::Write, key, group, pages, memory.len(), a) {
        memory[p] = v;
    }
}

// The words of a buffer go to the words of a span.
pub fn write_span(
    key: u16,
    group: u16,
    memory: &mut [u16],
    pages: &[u16; 512],
    buf: &[u16; 16],
    span: Span,
)
    requires { (group < 16) × (span.count ≤ 16) }
    ensures { memory.new ≡ written key group pages.now (length memory.old) span buf.now memory.old }
{
    let mut a = span.start;
    for number in 0..span.count {
        if number != span.hole {
            write_word(key, group, memory, pages, a, buf[number as usize]);
        }
        a = a.wrapping_add(span.stride);
    }
}
