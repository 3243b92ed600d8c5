// What an entry sets: a word of the state by its number, or a word that is lent.
ghost use Rattle.std.specs.Prelude.{◌≡◌, set};
ghost use Rattle.test_case_line.specs.Fields.{place_of, with_word};

use machine::State;
use packed::{pack, unpack};

// A word at its number; one that is not there is left out.
pub fn put(words: &mut [u16], number: u16, word: u16)
    ensures { words.new ≡ set words.old number word }
{
    let i = number as usize;
    if i < words.len() {
        words[i] = word;
    }
}

// The packed word that the number of an entry names.
fn place(number: u16) -> u16
    ensures { result ≡ place_of number }
{
    match number {
        24 => 32,
        25 => 33,
        26 => 24,
        27 => 25,
        28 => 26,
        _ => number,
    }
}

// A word of the state.
pub fn state(s: State, number: u16, word: u16) -> State
    ensures { result ≡ with_word s number word }
{
    let mut words = [0u16; packed::SIZE];
    pack(s, &mut words);
    put(&mut words, place(number), word);
    unpack(&words)
}
