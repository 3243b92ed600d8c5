// Words that lie one after another in memory: where they do, and stores there.
ghost use Rattle.std.specs.Prelude.{◌≡◌, ◌+◌, ◌-◌, ◌≤◌, ◌<◌, length};
ghost use Rattle.isa.specs.Blocks.{pushed_from};
ghost use Rattle.block_one_page.specs.Extents.{extent_of, stored_at};

use block_words::stores::pushed_word;
use page::Access;
use page::lookup::look_up;

// Where count words from the logical address a on lie, if all are of one page, open and inside the memory. Callers have
// a group of four bits, and ask for sixteen at most.
#[tactic(auto, using(std::proofs::lemmas::Bool::Decides::nat_tests), unfolding(crate::specs::Extents::fitting, crate::specs::Extents::extent_of))]
pub(crate) fn find_extent(
    access: Access,
    key: u16,
    group: u16,
    pages: &[u16; 512],
    size: usize,
    a: u16,
    count: u16,
) -> Option<usize>
    requires { (group < 16) × (count ≤ 16) }
    ensures { result ≡ extent_of access key group pages.now size a count }
{
    if 4096 < a % 4096 + count {
        return None;
    }
    let place = look_up(access, key, group, pages, size, a);
    let Ok(p) = place else {
        return None;
    };
    if size - p < count as usize {
        return None;
    }
    Some(p)
}

// STM: the first count registers go to the words from p on.
pub(crate) fn store_extent(regs: &[u16; 16], memory: &mut [u16], p: usize, count: u16)
    requires { (count ≤ 16) × (p + count ≤ length memory.old) }
    ensures { memory.new ≡ stored_at (λ j. p + j) regs.now count 0 memory.old }
{
    let count = count as usize;
    memory[p..p + count].copy_from_slice(&regs[..count]);
}

// PSHM: count registers from b downwards go to the words from p downwards.
#[tactic(auto, unfolding(crate::specs::Extents::stored_at))]
pub(crate) fn push_extent(regs: &[u16; 16], memory: &mut [u16], p: usize, b: u16, count: u16)
    requires { (b < 16) × (count ≤ 16) × (count ≤ p + 1) × (p < length memory.old) }
    ensures { memory.new ≡ stored_at (λ j. p - j) (pushed_from regs.now b count 0) count 0 memory.old }
{
    for i in 0..count {
        memory[p - i as usize] = pushed_word(regs, (16 + b - i) % 16, i);
    }
}
