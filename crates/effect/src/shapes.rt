// The shapes of what an operation does, from the instruction and SW and PI before it. Whatever the registers hold, each is the shape of the definitions;
// one that does not need SW is so for every SW.
ghost use Rattle.std.specs.Prelude.{◌≡◌, ℕ, List, ◌∷◌, []};
ghost use Rattle.isa.specs.Effects.{effect, into_registers, single, double, loaded, tested, stored, modified, replaced, nothing};
ghost use Rattle.effect.specs.Work.{context, worked, first_of, values_of};

use crate::{Before, Registers, Work, cs_of, following};
use word::pair::{high, low};
use word::status::status;

impl Before {
    // Registers get values, on to the address ic, CS is set, PI bits are added, words are stored.
    pub fn effect(self, r: Registers, ic: u16, cs: u16, bits: u16, words: [u16; 3]) -> Work
        ensures { (regs : List ℕ) (sw : ℕ) → worked regs result ≡ effect (context regs sw self.pi) (first_of r) (values_of r) ic cs bits words }
    {
        Work {
            registers: r,
            ic,
            cs,
            pi: self.pi | bits,
            words,
        }
    }

    // Registers get values, CS is set, PI bits are added.
    pub fn into_registers(self, r: Registers, cs: u16, bits: u16) -> Work
        ensures { (regs : List ℕ) (sw : ℕ) → worked regs result ≡ into_registers (context regs sw self.pi) self.n (first_of r) (values_of r) cs bits }
    {
        self.effect(r, following(self.n), cs, bits, [0, 0, 0])
    }

    // Register k gets a word, and CS its status.
    pub fn single(self, k: u16, x: u16) -> Work
        ensures { (regs : List ℕ) (sw : ℕ) → worked regs result ≡ single (context regs sw self.pi) self.n k x }
    {
        self.into_registers(Registers::One(k, x), status(x), 0)
    }

    // Registers k and k + 1 get a double word, and CS its status.
    pub fn double(self, k: u16, x: u32) -> Work
        ensures { (regs : List ℕ) (sw : ℕ) → worked regs result ≡ double (context regs sw self.pi) self.n k x }
    {
        self.into_registers(Registers::Two(k, high(x), low(x)), status(x), 0)
    }

    // Register k gets a word.
    pub fn loaded(self, k: u16, x: u16) -> Work
        ensures { (regs : List ℕ) → worked regs result ≡ loaded (context regs self.sw self.pi) self.n k x }
    {
        self.into_registers(Registers::One(k, x), cs_of(self.sw), 0)
    }

    // A word is stored, CS is set, PI bits are added.
    pub fn modified(self, x: u16, cs: u16, bits: u16) -> Work
        ensures { (regs : List ℕ) (sw : ℕ) → worked regs result ≡ modified (context regs sw self.pi) self.n x cs bits }
    {
        self.effect(Registers::Kept, following(self.n), cs, bits, [x, 0, 0])
    }

    // CS is set.
    pub fn tested(self, cs: u16) -> Work
        ensures { (regs : List ℕ) (sw : ℕ) → worked regs result ≡ tested (context regs sw self.pi) self.n cs }
    {
        self.into_registers(Registers::Kept, cs, 0)
    }

    // Up to three words are stored.
    pub fn stored(self, x: u16, y: u16, z: u16) -> Work
        ensures { (regs : List ℕ) → worked regs result ≡ stored (context regs self.sw self.pi) self.n x y z }
    {
        self.effect(
            Registers::Kept,
            following(self.n),
            cs_of(self.sw),
            0,
            [x, y, z],
        )
    }

    // A word replaces the operand, in register RB or in memory.
    pub fn replaced(self, x: u16) -> Work
        ensures { (regs : List ℕ) → worked regs result ≡ replaced (context regs self.sw self.pi) self.n x }
    {
        if self.n.form / 256 % 16 == 1 {
            return self.loaded(self.n.first % 16, x);
        }
        self.stored(x, 0, 0)
    }

    // Nothing: on to the next instruction.
    pub fn nothing(self) -> Work
        ensures { (regs : List ℕ) → worked regs result ≡ nothing (context regs self.sw self.pi) self.n }
    {
        self.stored(0, 0, 0)
    }
}
