// The packed state: a state as 256 words, in the layout of the C interface (specs/Packed.antt, `layout`).
// 0 to 15 are R0 to R15; a word that no part has is not looked at, and 0 in a packed state.
#![tactic(auto)]

ghost use Rattle.std.specs.Prelude.{◌≡◌, ◌/◌, ◌%◌, ◌<◌, ◌≤◌, cond, eqb, length};
ghost use Rattle.packed.specs.Packed.{size, marks_of, unpacked, packed};

use machine::{Clock, Core, Faults, State};

// How many words there are.
pub const SIZE: usize = 256;
// The words of the parts after R0 to R15; the counter has two, the high one first.
const IC: usize = 16;

const SW: usize = 17;

const MK: usize = 18;

const PI: usize = 19;

const FT: usize = 20;

const MARKS: usize = 21;

const TIMER_A: usize = 22;

const TIMER_B: usize = 23;

const REMAINDER_A: usize = 24;

const REMAINDER_B: usize = 25;

const MFS: usize = 26;

const COUNTER: usize = 32;
// The marks, by the weights of their bits.
const ENABLED: u16 = 1;

const HOLD: u16 = 2;

const A_RUNS: u16 = 4;

const B_RUNS: u16 = 8;

// Whether the bit of a weight, which no caller gives as 0, is one in a word.
fn marked(word: u16, weight: u16) -> bool
    requires { 0 < weight }
    ensures { result ≡ eqb (word / weight % 2) 1 }
{
    word / weight % 2 == 1
}

// The weight of a mark that is on, else 0.
fn mark(on: bool, weight: u16) -> u16
    ensures { (result ≡ cond on weight 0) × (result ≤ weight) }
{
    if on { weight } else { 0 }
}

// The word of the marks.
pub fn marks(s: State) -> u16
    ensures { result ≡ marks_of s }
{
    mark(s.core.enabled, ENABLED)
        + mark(s.core.hold, HOLD)
        + mark(s.clock.taon, A_RUNS)
        + mark(s.clock.tbon, B_RUNS)
}

// The state that 256 words stand for. Callers have exactly so many, here and below.
pub fn unpack(words: &[u16]) -> State
    requires { length words.now ≡ size }
    ensures { result ≡ unpacked words.now }
{
    let mut regs = [0u16; 16];
    regs.copy_from_slice(&words[..16]);
    let on = words[MARKS];
    let faults = Faults {
        ft: words[FT],
        mfs: words[MFS],
    };
    let core = Core {
        ic: words[IC],
        sw: words[SW],
        mk: words[MK],
        pi: words[PI],
        faults,
        enabled: marked(on, ENABLED),
        hold: marked(on, HOLD),
    };
    let clock = Clock {
        ta: words[TIMER_A],
        tb: words[TIMER_B],
        rema: words[REMAINDER_A],
        remb: words[REMAINDER_B],
        taon: marked(on, A_RUNS),
        tbon: marked(on, B_RUNS),
        count: 65536 * u32::from(words[COUNTER]) + u32::from(words[COUNTER + 1]),
    };
    State { regs, core, clock }
}

// The 256 words of a state: nothing of what they held stays.
pub fn pack(s: State, words: &mut [u16])
    requires { length words.old ≡ size }
    ensures { words.new ≡ packed s }
{
    let mut all = [0u16; SIZE];
    all[IC] = s.core.ic;
    all[SW] = s.core.sw;
    all[MK] = s.core.mk;
    all[PI] = s.core.pi;
    all[FT] = s.core.faults.ft;
    all[MARKS] = marks(s);
    all[TIMER_A] = s.clock.ta;
    all[TIMER_B] = s.clock.tb;
    all[REMAINDER_A] = s.clock.rema;
    all[REMAINDER_B] = s.clock.remb;
    all[MFS] = s.core.faults.mfs;
    all[COUNTER] = (s.clock.count / 65536) as u16;
    all[COUNTER + 1] = (s.clock.count % 65536) as u16;
    all[..16].copy_from_slice(&s.regs);
    words.copy_from_slice(&all);
}
