// The mnemonic of an entry.
ghost use Rattle.std.specs.Prelude.{◌≡◌, ◌≤◌};
ghost use Rattle.arrayvec.specs.ArrayVec.{array_vec_len};
ghost use Rattle.line_table.specs.Entries.{letters};

use crate::Entry;
use arrayvec::ArrayVec;

// The name of an entry without the blanks that fill it up, at the start of a vector with room for a whole line, so that it is not copied into one.
pub fn letters(entry: Entry) -> ArrayVec<u8, 40>
    ensures text { result.items ≡ letters entry.name }
    ensures short { array_vec_len result ≤ 4 }
{
    let mut text = ArrayVec::<u8, 40>::new();
    for byte in &entry.name {
        if *byte != b' ' {
            text.push(*byte);
        }
    }
    text
}
