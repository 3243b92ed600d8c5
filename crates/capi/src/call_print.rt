// The call that prints the line of an instruction.
ghost use Rattle.line.specs.Lines.{line_of};
ghost use Rattle.capi.specs.LineCalls.{LinePrinted};

// Printing: what line::print does; the length of the line is put where `length` points.
#[unsafe(no_mangle)]
pub extern "C" fn twin1750_print(
    first: u16,
    second: u16,
    line: &mut [u8; 256],
    length: &mut usize,
) -> u32
    ensures { LinePrinted (line_of first second) line.old line.new length.old length.new result }
{
    match line::print(first, second, line) {
        Some(n) => {
            *length = n;
            0
        }
        None => 14,
    }
}
