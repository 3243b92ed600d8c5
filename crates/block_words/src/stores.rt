// The words that the operations on blocks store. Callers have a group of four bits.
ghost use Rattle.std.specs.Prelude.{◌≡◌, true, ◌+◌, ◌<◌, eqb, length, get_or};
ghost use Rattle.std.proofs.lemmas.List.Edits.{sets};
ghost use Rattle.page.specs.Spans.{written};
ghost use Rattle.decode.specs.Forms.{operation_of};
ghost use Rattle.isa.specs.Fields.{field_a, field_b, register, registers_from};
ghost use Rattle.isa.specs.Accesses.{moved_span, pushed_span, writes_of};
ghost use Rattle.isa.specs.Effects.{Context};
ghost use Rattle.isa.specs.Blocks.{moved_word, pushed_word, pushed_from};
ghost use Rattle.isa.specs.Execute.{executed};
ghost use Rattle.block_registers.specs.Operation.{is_block};

use addressing::fields::{field_a, field_b, get, less, registers_from};
use machine::Instruction;
use operand_spans::{all_from, moved_span, pushed_span};
use storage::write::write_span;

// Register j as PSHM stores it as word number i, which is at most 15.
#[tactic(auto, using(std::proofs::lemmas::Bool::Decides::nat_tests), unfolding(isa::specs::Blocks::pushed_word))]
pub fn pushed_word(regs: &[u16; 16], j: u16, i: u16) -> u16
    requires { i < 16 }
    ensures { result ≡ pushed_word regs.now j i }
{
    if j == 15 {
        return less(get(regs, 15), i + 1);
    }
    get(regs, j)
}

// The words that PSHM stores go into a buffer (5.54).
fn push_words(regs: &[u16; 16], n: Instruction, buf: &mut [u16; 16])
    ensures { buf.new ≡ sets buf.old 0
        (pushed_from regs.now (field_b n.first) (registers_from (field_a n.first) (field_b n.first)) 0) }
{
    let b = field_b(n.first);
    let k = registers_from(field_a(n.first), b);
    for i in 0..k {
        buf[i as usize] = pushed_word(regs, (16 + b - i) % 16, i);
    }
}

// PSHM's stores.
fn store_pushed(
    key: u16,
    group: u16,
    regs: &[u16; 16],
    memory: &mut [u16],
    pages: &[u16; 512],
    n: Instruction,
)
    requires { group < 16 }
    ensures { memory.new ≡ written key group pages.now (length memory.old) (pushed_span regs.now n)
        (pushed_from regs.now (field_b n.first) (registers_from (field_a n.first) (field_b n.first)) 0) memory.old }
{
    let mut words: [u16; 16] = [0; 16];
    push_words(regs, n, &mut words);
    write_span(key, group, memory, pages, &words, pushed_span(regs, n));
}

// MOV's store, of the first word of a buffer, for whatever else it sees.
fn store_moved(
    key: u16,
    group: u16,
    regs: &[u16; 16],
    memory: &mut [u16],
    pages: &[u16; 512],
    n: Instruction,
    buf: &[u16; 16],
)
    requires { group < 16 }
    ensures { (v : Context) → v.regs ≡ regs.now → memory.new ≡ written key group pages.now (length memory.old)
        (moved_span regs.now n (field_a n.first))
        (moved_word v n (get_or buf.now 0 0) (eqb (register v.regs (field_a n.first + 1)) 0)).words memory.old }
{
    write_span(
        key,
        group,
        memory,
        pages,
        buf,
        moved_span(regs, n, field_a(n.first)),
    );
}

// The stores of any of the operations, from the words read, for whatever else it sees.
#[tactic(auto, unfolding(isa::specs::Accesses::writes_of, isa::specs::Execute::executed, isa::specs::Blocks::stored_all, isa::specs::Blocks::rearranged, isa::specs::Blocks::pushed_all, block_registers::specs::Operation::is_block, isa::specs::Accesses::words_written))]
pub(crate) fn store_words(
    key: u16,
    group: u16,
    regs: &[u16; 16],
    memory: &mut [u16],
    pages: &[u16; 512],
    n: Instruction,
    buf: &[u16; 16],
)
    requires { (group < 16) × (is_block (operation_of n.form) ≡ true) }
    ensures { (v : Context) → v.regs ≡ regs.now
        → memory.new ≡ written key group pages.now (length memory.old) (writes_of regs.now n) (executed v n buf.now).words memory.old }
{
    // by the number of its paragraph, as `isa/Execute: executed` goes
    match n.form % 256 {
        47 => store_moved(key, group, regs, memory, pages, n, buf),
        50 => write_span(key, group, memory, pages, regs, all_from(n)),
        54 => store_pushed(key, group, regs, memory, pages, n),
        // LM, POPM and XWR store nothing
        _ => {}
    }
}
