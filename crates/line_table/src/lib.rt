// The mnemonics of section 5 as one constant table of entries, found by a first word or by a name; and the parts of an entry.
#![tactic(auto)]

mod entries;
pub mod name;
mod names;
pub mod parts;

ghost use Rattle.std.specs.Prelude.{◌≡◌, true, ◌<◌, ◌≤◌, length};
ghost use Rattle.line_operand.specs.Numerals.{lacks};
ghost use Rattle.line_table.specs.Boxes.{box_named};
ghost use Rattle.line_table.specs.Entries.{filled, entry_in, entry_of, word_at, Listed};

use entries::ENTRIES;
use names::{BEGINNINGS, NAMES};

// What the table keeps of a box: its mnemonic's four bytes, filled up with blanks; its operands by their numbers, 0 where there is none; and its first word
// with the fields 0. The operands are numbers, not shapes: the borrow checker covers no static of structs that hold arrays of structs or enums.
#[derive(Clone, Copy)]
pub struct Entry {
    pub name: [u8; 4],
    pub operands: [u8; 3],
    pub base: u16,
}

// The entry at a place of the table. Every caller has a place below 289.
fn entry_at(i: usize) -> Option<Entry>
    requires { i < 289 }
    ensures { result ≡ entry_of (word_at i) }
{
    ENTRIES[i]
}

// The entry of a word under FF.
fn special(w: u16) -> Option<Entry>
    requires { 65280 ≤ w }
    ensures { result ≡ entry_of w }
{
    if w == 0xFF00 {
        return entry_at(255);
    }
    if w == 0xFFFF {
        return entry_at(288);
    }
    None
}

// The entry of the box that claims a first word.
pub fn by_word(w: u16) -> Option<Entry>
    ensures { result ≡ entry_of w }
{
    let op = w / 256;
    if op / 4 == 16 {
        return entry_at((256 + w / 16 % 16) as usize);
    }
    if op == 0x4A {
        return entry_at((272 + w % 16) as usize);
    }
    if op == 0xFF {
        return special(w);
    }
    entry_at(op as usize)
}

// A text of at most four bytes filled up with blanks.
fn filled(text: &[u8]) -> [u8; 4]
    requires { length text.now ≤ 4 }
    ensures { result ≡ filled text.now }
{
    let mut name = *b"    ";
    name[..text.len()].copy_from_slice(text);
    name
}

// The mnemonics that begin with a letter, with the places of their entries; none for any other byte.
fn beginning(letter: u8) -> &'static [([u8; 4], u16)]
    ensures { Listed letter result.now }
{
    if letter < b'A' {
        return &[];
    }
    if b'Z' < letter {
        return &[];
    }
    let i = (letter - b'A') as usize;
    &NAMES[BEGINNINGS[i] as usize..BEGINNINGS[i + 1] as usize]
}

// The entry of the box with a name. Every caller has cut the name at the first blank.
pub fn by_name(text: &[u8]) -> Option<Entry>
    requires { lacks 32 text.now ≡ true }
    ensures { result ≡ entry_in (box_named text.now) }
{
    if 4 < text.len() {
        return None;
    }
    let name = filled(text);
    for &(other, place) in beginning(name[0]) {
        if other == name {
            return entry_at(place as usize);
        }
    }
    None
}
