// Registers, IC and CS after an operation on blocks, from the words read.
ghost use Rattle.std.specs.Prelude.{◌≡◌, ℕ, ◌+◌, ◌≤◌, true, List, length, drop, ◌==◌};
ghost use Rattle.decode.specs.Forms.{operation_of};
ghost use Rattle.machine.specs.State.{cs_of, joined};
ghost use Rattle.machine.specs.Machine.{next_of};
ghost use Rattle.machine.specs.Step.{affected};
ghost use Rattle.isa.specs.Fields.{field_a, field_b, register, registers_from};
ghost use Rattle.isa.specs.Blocks.{rearranged, loaded_all, popped_all, moved_word, pushed_all, exchanged_words};
ghost use Rattle.isa.specs.Mil1750.{context_of};
ghost use Rattle.isa.specs.Execute.{executed};
ghost use Rattle.block_registers.specs.Operation.{is_block};

use crate::registers::{exchange, load_all, move_on, pop_all, push_stack};
use addressing::fields::{field_a, field_b, get};
use effect::cs_of;
use machine::{Core, Instruction};
use status_word::{update, with_cs};

// IC and CS are set, with any registers and words to store.
#[tactic(auto, unfolding(machine::specs::Step::affected, isa::specs::Blocks::rearranged, isa::specs::Mil1750::context_of))]
fn settle(core: Core, ic: u16, cs: u16) -> Core
    ensures { (regs after ws : List ℕ) → joined result after ≡ affected (joined core regs) (rearranged (context_of (joined core regs)) after ic cs ws) }
{
    update(core, ic, with_cs(core.sw, cs), core.pi)
}

// On to the next instruction; CS is kept.
#[tactic(auto, unfolding(isa::specs::Mil1750::context_of))]
pub fn proceed(core: Core, n: Instruction) -> Core
    ensures { (regs after ws : List ℕ) → joined result after
        ≡ affected (joined core regs) (rearranged (context_of (joined core regs)) after (next_of n) (cs_of core.sw) ws) }
{
    settle(core, effect::following(n), cs_of(core.sw))
}

// LM (5.40) of the words from word number p on, which there are.
#[tactic(auto, unfolding(isa::specs::Blocks::loaded_all, isa::specs::Mil1750::context_of))]
pub fn load_multiple(
    core: Core,
    regs: &mut [u16; 16],
    n: Instruction,
    words: &[u16],
    p: usize,
) -> Core
    requires { p + (field_a n.first + 1) ≤ length words.now }
    ensures { joined result regs.new ≡ affected (joined core regs.old) (loaded_all (context_of (joined core regs.old)) n (drop p words.now)) }
{
    load_all(regs, n, words, p);
    proceed(core, n)
}

// POPM (5.44) of the words from word number p on, which there are.
#[tactic(auto, unfolding(isa::specs::Blocks::popped_all, isa::specs::Mil1750::context_of))]
pub fn pop_multiple(
    core: Core,
    regs: &mut [u16; 16],
    n: Instruction,
    words: &[u16],
    p: usize,
) -> Core
    requires { p + registers_from (field_a n.first) (field_b n.first) ≤ length words.now }
    ensures { joined result regs.new ≡ affected (joined core regs.old) (popped_all (context_of (joined core regs.old)) n (drop p words.now)) }
{
    pop_all(regs, n, words, p);
    proceed(core, n)
}

// MOV (5.47): IC stays while the count is then not zero.
#[tactic(auto, using(std::proofs::lemmas::Bool::Decides::nat_tests), unfolding(isa::specs::Blocks::moved_word, isa::specs::Mil1750::context_of))]
pub fn move_word(core: Core, regs: &mut [u16; 16], n: Instruction) -> Core
    ensures { (x : ℕ) → joined result regs.new ≡ affected (joined core regs.old)
        (moved_word (context_of (joined core regs.old)) n x (register regs.old (field_a n.first + 1) == 0)) }
{
    let a = field_a(n.first);
    if get(regs, a + 1) == 0 {
        return proceed(core, n);
    }
    move_on(regs, a, field_b(n.first));
    if get(regs, a + 1) == 0 {
        return proceed(core, n);
    }
    settle(core, n.ic, cs_of(core.sw))
}

// PSHM (5.54).
#[tactic(auto, unfolding(isa::specs::Blocks::pushed_all, isa::specs::Mil1750::context_of))]
pub fn push_multiple(core: Core, regs: &mut [u16; 16], n: Instruction) -> Core
    ensures { joined result regs.new ≡ affected (joined core regs.old) (pushed_all (context_of (joined core regs.old)) n) }
{
    push_stack(regs, n);
    proceed(core, n)
}

// XWR (5.90).
#[tactic(auto, unfolding(isa::specs::Blocks::exchanged_words, isa::specs::Mil1750::context_of))]
fn exchange_words(core: Core, regs: &mut [u16; 16], n: Instruction) -> Core
    ensures { joined result regs.new ≡ affected (joined core regs.old) (exchanged_words (context_of (joined core regs.old)) n) }
{
    let cs = exchange(regs, n);
    settle(core, effect::following(n), cs)
}

// Any of the operations. Its caller has found it to be one.
#[tactic(auto, unfolding(isa::specs::Fields::field_a, isa::specs::Fields::registers_from, isa::specs::Execute::executed, isa::specs::Mil1750::context_of, isa::specs::Blocks::stored_all, crate::specs::Operation::is_block))]
pub fn rearrange(core: Core, regs: &mut [u16; 16], n: Instruction, buf: &[u16; 16]) -> Core
    requires { is_block (operation_of n.form) ≡ true }
    ensures { joined result regs.new ≡ affected (joined core regs.old) (executed (context_of (joined core regs.old)) n buf.now) }
{
    // by the number of its paragraph, as `isa/Execute: executed` goes
    match n.form % 256 {
        40 => load_multiple(core, regs, n, buf, 0),
        44 => pop_multiple(core, regs, n, buf, 0),
        47 => move_word(core, regs, n),
        50 => proceed(core, n),
        54 => push_multiple(core, regs, n),
        90 => exchange_words(core, regs, n),
        _ => core,
    }
}
