// What an entry sets.
ghost use Rattle.std.specs.Prelude.{◌≡◌};
ghost use Rattle.test_case.specs.Case.{case_of, lending, with_duration, entered};

use crate::case::{Case, Lengths};
use test_case_line::kind::{Kind, Lent};
use test_case_line::{Entry, set};

impl Lengths {
    // How many words of a list the run is lent.
    fn lend(&mut self, list: Lent, word: u16)
        ensures { self.new ≡ lending self.old list word }
    {
        match list {
            Lent::Memory => self.memory = word,
            Lent::Pages => self.pages = word,
            Lent::Ports => self.ports = word,
            Lent::Durations => self.durations = word,
        }
    }
}

// A duration, or all of them.
#[tactic(auto, unfolding(crate::specs::Case::with_duration))]
fn set_duration(durations: &mut [u16; 257], number: u16, word: u16)
    ensures { durations.new ≡ with_duration durations.old number word }
{
    if number == 257 {
        *durations = [word; 257];
    } else {
        set::put(durations, number, word);
    }
}

impl Case {
    // Any entry but a run.
    #[tactic(auto, unfolding(crate::specs::Case::case_of, crate::specs::Case::entered, crate::specs::Case::changed))]
    pub(crate) fn enter(&mut self, entry: Entry)
        ensures { case_of self.new ≡ entered (case_of self.old) entry.kind entry.number entry.word }
    {
        let number = entry.number;
        let word = entry.word;
        match entry.kind {
            Kind::Length => self.lengths.lend(Lent::of(number), word),
            Kind::Duration => {
                set_duration(&mut self.durations, number, word);
                self.timed = true;
            }
            Kind::Memory => set::put(&mut self.memory, number, word),
            Kind::Page => set::put(&mut self.pages, number, word),
            Kind::Port => set::put(&mut self.ports, number, word),
            Kind::State | Kind::Run => self.state = set::state(self.state, number, word),
        }
    }
}
