// The program `lines` (docs/USING.md): reads requests on standard input byte by byte, two words to print or a line to read, and writes the answer to each.
#![tactic(auto)]

use line_request::input::Reading;
use std::io;
use stream::for_each_byte;

fn main(rt: HostRuntime) -> io::Result<()> {
    let mut out = [0u8; 256];
    let mut reading = Reading::begin();
    for_each_byte(&mut rt.stdin(), |byte| {
        let end = reading.take(byte, &mut out);
        rt.write_all(&out[..end])
    })?;
    let end = reading.finish(&mut out);
    rt.write_all(&out[..end])
}
