// The words of a user's operation on at most three words: those read, checked and gathered at once, and those stored.
#![tactic(auto)]

ghost use Rattle.std.specs.Prelude.{◌≡◌, ◌<◌, ◌≤◌, length};
ghost use Rattle.page.specs.Spans.{checked, words_of, written};
ghost use Rattle.machine.specs.State.{key_of, group_of};
ghost use Rattle.machine.specs.Machine.{span_from};
ghost use Rattle.isa.specs.Effects.{three};
ghost use Rattle.operand_words.specs.Gathers.{gathered, from_third, from_second, stored_one};

use page::{Access, Refusal, Span};
use status_word::{group_of, key_of};
use storage::read::read_word;
use storage::write::write_word;

// The words read, 0 past their number.
#[derive(Clone, Copy)]
pub struct Words {
    pub x: u16,
    pub y: u16,
    pub z: u16,
}

// The third of k words, at the address c, after x and y.
fn gather_third(
    key: u16,
    group: u16,
    memory: &[u16],
    pages: &[u16; 512],
    c: u16,
    k: u16,
    x: u16,
    y: u16,
) -> Result<Words, Refusal>
    requires { group < 16 }
    ensures { result ≡ from_third key group pages.now (length memory.now) memory.now k x y c }
{
    if k <= 2 {
        return Ok(Words { x, y, z: 0 });
    }
    let z = read_word(Access::Read, key, group, memory, pages, c)?;
    Ok(Words { x, y, z })
}

// The second of k words, at the address a, after x, and what follows.
fn gather_second(
    key: u16,
    group: u16,
    memory: &[u16],
    pages: &[u16; 512],
    a: u16,
    k: u16,
    x: u16,
) -> Result<Words, Refusal>
    requires { group < 16 }
    ensures { result ≡ from_second key group pages.now (length memory.now) memory.now k x a }
{
    if k <= 1 {
        return Ok(Words { x, y: 0, z: 0 });
    }
    let y = read_word(Access::Read, key, group, memory, pages, a)?;
    gather_third(key, group, memory, pages, a.wrapping_add(1), k, x, y)
}

// At most three words from the address a on: checked and read at once. The first refusal ends it.
pub fn gather(
    key: u16,
    group: u16,
    memory: &[u16],
    pages: &[u16; 512],
    a: u16,
    k: u16,
) -> Result<Words, Refusal>
    requires { (group < 16) × (k ≤ 3) }
    ensures { result ≡ gathered (checked key group pages.now (length memory.now) (span_from a k) Access.Read)
        (words_of key group pages.now (length memory.now) (span_from a k) memory.now) }
{
    if k == 0 {
        return Ok(Words { x: 0, y: 0, z: 0 });
    }
    let x = read_word(Access::Read, key, group, memory, pages, a)?;
    gather_second(key, group, memory, pages, a.wrapping_add(1), k, x)
}

// v is stored as word number j of a span, whose address is a, where there is one.
fn store_at(
    key: u16,
    group: u16,
    memory: &mut [u16],
    pages: &[u16; 512],
    span: Span,
    j: u16,
    a: u16,
    v: u16,
)
    requires { group < 16 }
    ensures { memory.new ≡ stored_one key group pages.now (length memory.old) span j a v memory.old }
{
    if span.count <= j {
        return;
    }
    if j == span.hole {
        return;
    }
    write_word(key, group, memory, pages, a, v);
}

// Up to three words are stored in a span of at most three, by the key and the address state of SW.
pub fn store_words(
    sw: u16,
    memory: &mut [u16],
    pages: &[u16; 512],
    span: Span,
    x: u16,
    y: u16,
    z: u16,
)
    requires { span.count ≤ 3 }
    ensures { memory.new ≡ written (key_of sw) (group_of sw) pages.now (length memory.old) span (three x y z) memory.old }
{
    let key = key_of(sw);
    let group = group_of(sw);
    let b = span.start.wrapping_add(span.stride);
    let c = b.wrapping_add(span.stride);
    store_at(key, group, memory, pages, span, 0, span.start, x);
    store_at(key, group, memory, pages, span, 1, b, y);
    store_at(key, group, memory, pages, span, 2, c, z);
}
