// The program (Scope, "The program"): loads the image on standard input, runs 1,000 steps and writes its report, or the number of a refusal.
#![tactic(auto)]

use std::io;
use stream::read_full;

fn main(rt: HostRuntime) -> io::Result<()> {
    // lists of their own, not parts of a struct, since `program::text_for` is lent them so
    let mut memory = [0u16; 16384];
    let mut pages = [0u16; 512];
    let mut ports = [0u16; 1024];
    let mut out = [0u8; 256];
    // one byte more than an image may have, so that a longer one is seen
    let mut input = [0u8; 32769];
    let n = read_full(&mut rt.stdin(), &mut input);
    let end = program::text_for(&input[..n], &mut memory, &mut pages, &mut ports, &mut out);
    rt.write_all(&out[..end])
}
