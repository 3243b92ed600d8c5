// The duration of a step, by the list that a run is lent.
ghost use Rattle.std.specs.Prelude.{◌≡◌, ◌/◌, ◌<◌, slice_index, Ok};
ghost use Rattle.machine.specs.Step.{timed_by};
ghost use Rattle.clock.specs.Deferred.{longest_of};

// The duration of a step that fetched the first word of an instruction, whatever came of it.
#[tactic(auto, unfolding(machine::specs::Step::timed_by))]
pub fn duration_of(durations: &[u16; 257], first: u16) -> u64
    ensures { (result ≡ slice_index durations.now (timed_by (Ok first))) × (timed_by (Ok first) ≡ first / 256) × (result < 65536) }
{
    u64::from(durations[(first / 256) as usize])
}

// The duration of a step that fetched none.
pub fn entry_duration(durations: &[u16; 257]) -> u64
    ensures { (result ≡ slice_index durations.now 256) × (result < 65536) }
{
    u64::from(durations[256])
}

// The longest duration, or 1 where all are 0.
#[tactic(auto, unfolding(crate::specs::Deferred::longest_to, crate::specs::Deferred::longest_of))]
pub fn longest(durations: &[u16]) -> u32
    ensures { (result ≡ longest_of durations.now) × (0 < result) × (result < 65536) }
{
    let mut most: u16 = 1;
    for d in durations {
        most = most.max(*d);
    }
    u32::from(most)
}
