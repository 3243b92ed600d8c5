// The end of a step: a fault, the hold mark, its duration, the counter and the timers, one tick or several at once (Scope, "One step", 2, 3 and 6).
#![tactic(auto)]

pub mod deferred;
pub mod durations;
pub mod time;
