// The kinds of entries, by their letters, and the lists that a run is lent, by their numbers.
ghost use Rattle.std.specs.Prelude.{◌≡◌, ◌≤◌};
ghost use Rattle.test_case_line.specs.Kinds.{kind_of, size_of};
ghost use Rattle.test_case_line.specs.Lent.{lent_of, words_of};

use crate::Malformed;

// A word of the state, of memory, a page register, a port, a duration, how many words of a list the run is lent, the run.
#[derive(Clone, Copy, Debug, PartialEq, Eq)]
pub enum Kind {
    State,
    Memory,
    Page,
    Port,
    Duration,
    Length,
    Run,
}

impl TryFrom<u8> for Kind {
    type Error = Malformed;

    ghost try_from_gives = { λ letter r. r ≡ kind_of letter };

    #[tactic(auto, unfolding(crate::specs::Kinds::kind_of))]
    fn try_from(letter: u8) -> Result<Self, Malformed> {
        match letter {
            b'S' => Ok(Kind::State),
            b'M' => Ok(Kind::Memory),
            b'P' => Ok(Kind::Page),
            b'O' => Ok(Kind::Port),
            b'D' => Ok(Kind::Duration),
            b'L' => Ok(Kind::Length),
            b'G' => Ok(Kind::Run),
            _ => Err(Malformed),
        }
    }
}

impl Kind {
    // How many numbers there are of it.
    pub(crate) fn size(self) -> u32
        ensures value { result ≡ size_of self }
        ensures within { result ≤ 65536 }
    {
        match self {
            Kind::State => 29,
            Kind::Memory => 16384,
            Kind::Page => 512,
            Kind::Port => 1024,
            Kind::Duration => 258,
            Kind::Length => 4,
            Kind::Run => 65536,
        }
    }
}

// A list of which a run is lent the first words.
#[derive(Clone, Copy, Debug, PartialEq, Eq)]
pub enum Lent {
    Memory,
    Pages,
    Ports,
    Durations,
}

impl Lent {
    // The list of a number; from 3 on that of the durations.
    pub fn of(number: u16) -> Lent
        ensures { result ≡ lent_of number }
    {
        match number {
            0 => Lent::Memory,
            1 => Lent::Pages,
            2 => Lent::Ports,
            _ => Lent::Durations,
        }
    }

    // How many words there are in it.
    pub(crate) fn words(self) -> u16
        ensures { result ≡ words_of self }
    {
        match self {
            Lent::Memory => 16384,
            Lent::Pages => 512,
            Lent::Ports => 1024,
            Lent::Durations => 257,
        }
    }
}
