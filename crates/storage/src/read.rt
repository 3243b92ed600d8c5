// Words of memory read by their logical addresses. As for every lookup, callers have a group of four bits.
ghost use Rattle.std.specs.Prelude.{◌≡◌, ◌<◌, ◌≤◌, length};
ghost use Rattle.page.specs.Pages.{lookup};
ghost use Rattle.page.specs.Spans.{got_at, read_from};

use page::lookup::look_up;
use page::{Access, Refusal, Span};

// The word at a logical address, or its refusal.
pub fn read_word(
    access: Access,
    key: u16,
    group: u16,
    memory: &[u16],
    pages: &[u16; 512],
    a: u16,
) -> Result<u16, Refusal>
    requires { group < 16 }
    ensures { result ≡ got_at memory.now (lookup access key group pages.now (length memory.now) a) }
{
    let p = look_up(access, key, group, pages, memory.len(), a)?;
    Ok(memory[p])
}

// The words of a span go into a buffer, each to its number.
pub fn read_span(
    key: u16,
    group: u16,
    memory: &[u16],
    pages: &[u16; 512],
    span: Span,
    buf: &mut [u16; 16],
)
    requires { (group < 16) × (span.count ≤ 16) }
    ensures { buf.new ≡ read_from key group pages.now (length memory.now) span memory.now span.count 0 span.start buf.old }
{
    let mut a = span.start;
    for number in 0..span.count {
        if number != span.hole {
            let word = read_word(Access::Read, key, group, memory, pages, a);
            buf[number as usize] = word.unwrap_or(0);
        }
        a = a.wrapping_add(span.stride);
    }
}
