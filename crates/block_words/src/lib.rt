// The operations on several registers or words at once (5.40, 5.44, 5.47, 5.50, 5.54, 5.90).
#![tactic(auto)]

ghost use Rattle.std.specs.Prelude.{◌≡◌, true, ◌≤◌, length};
ghost use Rattle.decode.specs.Forms.{operation_of};
ghost use Rattle.machine.specs.State.{joined, key_of, group_of};
ghost use Rattle.isa.specs.Mil1750.{context_of};
ghost use Rattle.isa.specs.Execute.{executed};
ghost use Rattle.isa.specs.Accesses.{reads_of};
ghost use Rattle.page.specs.Spans.{words_of};
ghost use Rattle.block_registers.specs.Operation.{is_block, Worked};

use block_registers::operation::rearrange;
use machine::{Core, Instruction};
use page::Span;
use status_word::{group_of, key_of};
use storage::read::read_span;

pub mod stores;

// One of these: its words are read from the span, then stored, then the registers are set. Its caller has found it to be one, and the span.
pub fn block(
    core: Core,
    regs: &mut [u16; 16],
    memory: &mut [u16],
    pages: &[u16; 512],
    n: Instruction,
    from: Span,
) -> Core
    requires { (is_block (operation_of n.form) ≡ true) × (from ≡ reads_of regs.old n) × (from.count ≤ 16) }
    ensures { Worked (joined core regs.old) memory.old pages.now n
        (executed (context_of (joined core regs.old)) n
        (words_of (key_of core.sw) (group_of core.sw) pages.now (length memory.old) (reads_of regs.old n) memory.old))
        (joined result regs.new) memory.new }
{
    let key = key_of(core.sw);
    let group = group_of(core.sw);
    let mut buf: [u16; 16] = [0; 16];
    read_span(key, group, memory, pages, from, &mut buf);
    stores::store_words(key, group, regs, memory, pages, n, &buf);
    rearrange(core, regs, n, &buf)
}
