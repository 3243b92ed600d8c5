// The program `test_cases` (docs/TEST-CASES.md): reads the cases on standard input byte by byte, and writes the text that each byte brings.
#![tactic(auto)]

use std::io;
use stream::for_each_byte;
use test_case::input::Reading;

fn main(rt: HostRuntime) -> io::Result<()> {
    let mut out = [0u8; 262144];
    let mut reading = Reading::begin(0, 0);
    let ended = for_each_byte(&mut rt.stdin(), |byte| {
        let end = reading.take(byte, &mut out);
        rt.write_all(&out[..end])
    })?;
    let end = reading.finish(&mut out);
    rt.write_all(&out[..end])?;
    let end = reading.close(!ended, &mut out);
    rt.write_all(&out[..end])
}
