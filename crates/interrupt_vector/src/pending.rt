// Which interrupt is entered (4.6; Scope, "One step", 1).
ghost use Rattle.std.specs.Prelude.{◌≡◌, ◌<◌, MatchOption};
ghost use Rattle.machine.specs.declared.Core.{Core};
ghost use Rattle.machine.specs.Entries.{takeable, chosen};

// The interrupts that may be entered, for any core with these parts: 0 and 5 always, 1 by its mask bit, others while enabled.
#[tactic(auto, unfolding(machine::specs::Entries::takeable))]
fn take(enabled: bool, mk: u16) -> u16
    ensures { (c : Core) → c.enabled ≡ enabled → c.mk ≡ mk → result ≡ takeable c }
{
    if enabled {
        0x8400 | mk
    } else {
        0x8400 | (mk & 0x4000)
    }
}

// The interrupt to enter, if any, for any core with these parts: the leading zeros of the takeable pending bits.
pub fn choose(hold: bool, enabled: bool, mk: u16, pi: u16) -> Option<u16>
    ensures { (c : Core) → c.hold ≡ hold → c.enabled ≡ enabled → c.mk ≡ mk → c.pi ≡ pi
        → MatchOption result (chosen c ≡ 16) (λ n. (n ≡ chosen c) × (n < 16)) }
{
    if hold {
        return None;
    }
    let n = (pi & take(enabled, mk)).leading_zeros() as u16;
    if n < 16 { Some(n) } else { None }
}
