// Deferred ticks: several made at once, in which no timer passes its end but in the last.
ghost use Rattle.std.specs.Prelude.{◌≡◌, ◌+◌, ◌*◌, ◌<◌, ◌≤◌, true};
ghost use Rattle.clock.specs.Deferred.{Deferrable, after_ticks, ticks_left, deferrable_of};

use crate::time::elapse;
use machine::Clock;
use std::num::wrapping_add_u32;

// The clock after n ticks of so many tenths together.
#[tactic(auto, using(std::proofs::lemmas::Bool::Decides::nat_tests), unfolding(crate::specs::Deferred::after_ticks, machine::specs::State::with_count))]
pub fn tick_by(clock: Clock, n: u32, tenths: u64) -> Clock
    ensures { result ≡ after_ticks n tenths clock }
{
    if n == 0 {
        return clock;
    }
    Clock {
        count: wrapping_add_u32(clock.count, n),
        ..elapse(clock, tenths)
    }
}

// At most n ticks of at most `longest` tenths in which a timer that is t tenths after 0000, where it runs, does not pass `end`.
#[tactic(auto, using(std::proofs::lemmas::Bool::Decides::nat_tests), unfolding(crate::specs::Deferred::ticks_left))]
fn ticks_left(on: bool, t: u32, end: u32, longest: u32, n: u32) -> u32
    requires { 0 < longest }
    ensures { (result ≡ ticks_left on t end longest n) × (result ≤ n) × (on ≡ true → 0 < result → t + longest * result ≤ end) }
{
    if !on {
        return n;
    }
    if end < t {
        return 0;
    }
    n.min((end - t) / longest)
}

// At most n ticks of at most `longest` tenths that can be deferred.
#[tactic(auto, unfolding(crate::specs::Deferred::deferrable_of))]
pub fn deferrable(clock: Clock, longest: u32, n: u32) -> u32
    requires { 0 < longest }
    ensures { (result ≡ deferrable_of clock longest n) × (result ≤ n) × (0 < result → Deferrable (longest * result) clock) }
{
    let a = u32::from(clock.ta) * 100 + u32::from(clock.rema);
    let b = u32::from(clock.tb) * 1000 + u32::from(clock.remb);
    let first = ticks_left(clock.taon, a, 6553599, longest, n);
    ticks_left(clock.tbon, b, 65535999, longest, first)
}
