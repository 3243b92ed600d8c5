// What an operation on at most three words does: IC, CS, PI and the words to store, and how its registers are filled.
#![tactic(auto)]

ghost use Rattle.std.specs.Prelude.{◌≡◌};
ghost use Rattle.float.specs.Float.{overflows, underflows};
ghost use Rattle.machine.specs.State.{cs_of};
ghost use Rattle.machine.specs.Machine.{next_of};
ghost use Rattle.isa.specs.Fields.{with_register};
ghost use Rattle.isa.specs.Effects.{fixed_overflow, float_faults};
ghost use Rattle.effect.specs.Work.{filled};

use float::FloatFault;
use machine::Instruction;
use std::num::wrapping_add_u16;

pub mod shapes;

// What an operation sees besides registers and memory: SW and PI before it, and its instruction.
#[derive(Clone, Copy)]
pub struct Before {
    pub sw: u16,
    pub pi: u16,
    pub n: Instruction,
}

// The registers that get values: none, or those from a number on, which comes first; R0 follows R15.
#[derive(Clone, Copy)]
pub enum Registers {
    Kept,
    One(u16, u16),
    Two(u16, u16, u16),
    Three(u16, u16, u16, u16),
}

// The registers that get values; IC, CS and PI afterwards; three words to store, 0 where there is none.
// A contract that says `worked regs r ≡ ..`, for any registers, gives all that the operation does. Open is what does nothing: multiples of 16 in a register's number.
#[derive(Clone, Copy)]
pub struct Work {
    pub registers: Registers,
    pub ic: u16,
    pub cs: u16,
    pub pi: u16,
    pub words: [u16; 3],
}

// The address of the next instruction.
pub fn following(n: Instruction) -> u16
    ensures { result ≡ next_of n }
{
    wrapping_add_u16(n.ic, n.form / 4096)
}

// CS of a status word.
pub fn cs_of(sw: u16) -> u16
    ensures { result ≡ cs_of sw }
{
    sw / 4096
}

// PI bit 4, where there is fixed point overflow.
pub fn fixed_overflow(overflow: bool) -> u16
    ensures { result ≡ fixed_overflow overflow }
{
    if overflow { 0x0800 } else { 0 }
}

// PI bit 3 or 6, where there is floating point overflow or underflow.
pub fn float_faults(fault: Option<FloatFault>) -> u16
    ensures { result ≡ float_faults (overflows fault) (underflows fault) }
{
    match fault {
        Some(FloatFault::Overflow) => 0x1000,
        Some(FloatFault::Underflow) => 0x0200,
        None => 0,
    }
}

// Register k gets a value.
fn put(regs: &mut [u16; 16], k: usize, x: u16)
    ensures { regs.new ≡ with_register regs.old k x }
{
    regs[k % 16] = x;
}

// The registers get their values.
pub fn apply(regs: &mut [u16; 16], e: Work)
    ensures { regs.new ≡ filled regs.old e }
{
    match e.registers {
        Registers::Kept => {}
        Registers::One(k, only) => put(regs, k as usize, only),
        Registers::Two(k, first, last) => {
            put(regs, k as usize, first);
            put(regs, k as usize + 1, last);
        }
        Registers::Three(k, first, second, third) => {
            put(regs, k as usize, first);
            put(regs, k as usize + 1, second);
            put(regs, k as usize + 2, third);
        }
    }
}
