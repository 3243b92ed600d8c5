// The words of an operand that may be in memory.
ghost use Rattle.std.specs.Prelude.{◌≡◌, ℕ, ◌%◌, ◌<◌, length};
ghost use Rattle.page.specs.Spans.{checked, words_of};
ghost use Rattle.decode.specs.Forms.{operation_of};
ghost use Rattle.isa.specs.Accesses.{at_operand};
ghost use Rattle.form_table.specs.FormNumbers.{path_of, need_of, number_of};
ghost use Rattle.operand_words.specs.Gathers.{gathered};

use form_table::read_count;
use machine::Instruction;
use operand_words::{Words, gather};
use page::{Access, Refusal};

// The words at the derived address that an operation with a path of its own reads, checked and read: as many as it needs, and none where the mode has its operand elsewhere.
pub fn read_operand(
    key: u16,
    group: u16,
    memory: &[u16],
    pages: &[u16; 512],
    n: Instruction,
    number: u32,
) -> Result<Words, Refusal>
    requires { (group < 16) × (number ≡ number_of n.form) × (0 < path_of (operation_of n.form)) }
    ensures { (k : ℕ) → need_of (operation_of n.form) % 4 ≡ k
        → result ≡ gathered (checked key group pages.now (length memory.now) (at_operand n k) Access.Read)
        (words_of key group pages.now (length memory.now) (at_operand n k) memory.now) }
{
    gather(key, group, memory, pages, n.address, read_count(n, number))
}
