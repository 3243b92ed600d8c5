// The call that reads a line.
ghost use Rattle.line.specs.Lines.{read_line};
ghost use Rattle.capi.specs.LineCalls.{LineRead};

use line::{LineError, Words};

// Reading: what line::read does, on a line of any length; the words are put into `words`, and how many they are where `count` points.
// The refusals stay numbers: C is given 14, 15 or 16 (docs/USING.md).
#[tactic(auto, unfolding(line::specs::Lines::read_number, crate::specs::LineCalls::words_left, crate::specs::LineCalls::count_left))]
#[unsafe(no_mangle)]
pub extern "C" fn twin1750_read(line: &[u8], words: &mut [u16; 2], count: &mut usize) -> u32
    ensures { LineRead (read_line line.now) words.old words.new count.old count.new result }
{
    match line::read(line) {
        Ok(Words::One(first)) => {
            *words = [first, 0];
            *count = 1;
            0
        }
        Ok(Words::Two(first, second)) => {
            *words = [first, second];
            *count = 2;
            0
        }
        Err(LineError::UnknownMnemonic) => 14,
        Err(LineError::BadOperands) => 15,
        Err(LineError::OutsideField) => 16,
    }
}
