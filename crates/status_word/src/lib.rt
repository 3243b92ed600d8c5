// The fields of the status word (4.4.2.2), IC, and what every operation changes of the core.
#![tactic(auto)]

ghost use Rattle.std.specs.Prelude.{◌≡◌, ◌+◌, ◌<◌};
ghost use Rattle.page.specs.Spans.{wrapped};
ghost use Rattle.machine.specs.State.{key_of, group_of, with_cs, updated};

use machine::Core;
use std::num::wrapping_add_u16;

// PS, bits 8 to 11: the key.
#[tactic(auto, unfolding(machine::specs::State::key_of))]
pub fn key_of(sw: u16) -> u16
    ensures { (result ≡ key_of sw) × (result < 16) }
{
    sw / 16 % 16
}

// AS, bits 12 to 15: the group of page registers.
#[tactic(auto, unfolding(machine::specs::State::group_of))]
pub fn group_of(sw: u16) -> u16
    ensures { (result ≡ group_of sw) × (result < 16) }
{
    sw % 16
}

// SW with another CS.
pub fn with_cs(sw: u16, cs: u16) -> u16
    ensures { result ≡ with_cs sw cs }
{
    cs % 16 * 4096 + sw % 4096
}

// IC and n words on.
#[tactic(auto, unfolding(page::specs::Spans::wrapped))]
pub fn advance(ic: u16, n: u16) -> u16
    ensures { result ≡ wrapped (ic + n) }
{
    wrapping_add_u16(ic, n)
}

// The core with IC, SW and PI changed.
#[tactic(auto, unfolding(machine::specs::State::with_ic, machine::specs::State::with_sw, machine::specs::State::with_pi))]
pub fn update(core: Core, ic: u16, sw: u16, pi: u16) -> Core
    ensures { result ≡ updated core ic sw pi }
{
    Core { ic, sw, pi, ..core }
}
