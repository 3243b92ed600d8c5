// A case, and its run.
ghost use Rattle.std.specs.Prelude.{◌≡◌, Bool, if◌then◌else◌, nat_eq};
ghost use Rattle.machine.specs.Machine.{machine, Became};
ghost use Rattle.machine.specs.Runs.{answer_of, answer_in, state_in};
ghost use Rattle.test_case.specs.Case.{case, case_of, fresh, lent, case_run, ran};

use machine::{RunError, State};

// How many words of memory, page registers, ports and durations the run of a case is lent.
#[derive(Clone, Copy)]
pub struct Lengths {
    pub memory: u16,
    pub pages: u16,
    pub ports: u16,
    pub durations: u16,
}

// The machine before the run, the durations, how much of all this the run is lent, and whether an entry names a duration: the durations are there and
// are lent where none does, so this is no Option of them.
#[derive(Clone, Copy)]
pub struct Case {
    pub state: State,
    pub memory: [u16; 16384],
    pub pages: [u16; 512],
    pub ports: [u16; 1024],
    pub durations: [u16; 257],
    pub lengths: Lengths,
    pub timed: bool,
}

// The steps that a run has made, by the number of its answer, which the text shows beside them (`test_case/Case: case_text`): a refused one makes none.
pub(crate) fn made(answer: u32, steps: u32) -> u32
    ensures { result ≡ (if nat_eq answer 0 then steps else 0) }
{
    if answer == 0 { steps } else { 0 }
}

// A run that is lent the first words of each list. The lists are not taken as parts of a case, since the check does not follow slices of several of its arrays.
fn run_part(
    state: State,
    lengths: Lengths,
    steps: u32,
    memory: &mut [u16],
    pages: &mut [u16],
    ports: &mut [u16],
    durations: &[u16],
) -> Result<State, RunError>
    ensures { (timed : Bool) →
        (answer_in result ≡ answer_of (lent (case (machine state memory.old pages.old ports.old) durations.now lengths timed))
        (case_run (case (machine state memory.old pages.old ports.old) durations.now lengths timed) steps))
        × Became (ran (case (machine state memory.old pages.old ports.old) durations.now lengths timed) steps)
        (state_in result state) memory.new pages.new ports.new }
{
    let m = usize::from(lengths.memory).min(memory.len());
    let g = usize::from(lengths.pages).min(pages.len());
    let o = usize::from(lengths.ports).min(ports.len());
    let d = usize::from(lengths.durations).min(durations.len());
    run::run(
        state,
        &mut memory[..m],
        &mut pages[..g],
        &mut ports[..o],
        &durations[..d],
        steps,
    )
}

impl Case {
    // A case without an entry: everything as after reset, and all of it lent.
    pub(crate) fn fresh() -> Case
        ensures { case_of result ≡ fresh }
    {
        let mut memory = [0; 16384];
        let mut pages = [0; 512];
        let mut ports = [0; 1024];
        let state = reset::reset(&mut memory, &mut pages, &mut ports);
        let lengths = Lengths {
            memory: 16384,
            pages: 512,
            ports: 1024,
            durations: 257,
        };
        Case {
            state,
            memory,
            pages,
            ports,
            durations: [100; 257],
            lengths,
            timed: false,
        }
    }

    // Its run, which is lent the first words of each list: the answer. The case has then the state and the lists that the run leaves.
    #[tactic(auto, unfolding(crate::specs::Case::case_of))]
    pub(crate) fn run(&mut self, steps: u32) -> Result<(), RunError>
        ensures answer { result ≡ answer_of (lent (case_of self.old)) (case_run (case_of self.old) steps) }
        ensures left { Became (ran (case_of self.old) steps) self.new.state self.new.memory self.new.pages self.new.ports }
    {
        self.state = run_part(
            self.state,
            self.lengths,
            steps,
            &mut self.memory,
            &mut self.pages,
            &mut self.ports,
            &self.durations,
        )?;
        Ok(())
    }
}
