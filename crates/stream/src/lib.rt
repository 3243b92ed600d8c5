// Reading from a stream of bytes into a buffer, and handing its bytes on one by one.
#![tactic(auto)]

ghost use Rattle.std.specs.Prelude.{List, ℕ, length, take, ◌≤◌, OnOk};
ghost use Rattle.std.specs.Io.KnownBytes.{Consumes};
ghost use Rattle.std.specs.List.{FoldsTo};

use std::io;
use std::io::Read;

// Reads until the buffer is full, the input ends or a read fails, and says how many bytes stand at its start: those that the stream had next, and has no
// more. What is behind them in the buffer is left free, and whether the input ended or a read failed.
pub fn read_full<R: Read>(from: &mut R, buf: &mut [u8]) -> usize
    ensures within { result ≤ length buf.new }
    ensures bytes { Consumes (R.remaining from.old) (R.remaining from.new) (take result buf.new) }
{
    // counted by hand, since std's `read_exact` does not say how many bytes stand in the buffer where a read fails, as `bytes` does
    let mut done: usize = 0;
    while done < buf.len() {
        match from.read(&mut buf[done..]) {
            Ok(n) => {
                if n == 0 {
                    return done;
                }
                done += n;
            }
            Err(_) => return done,
        }
    }
    done
}

// Hands bytes on, one by one in their order, until one is refused.
fn feed<F: FnMut(u8) -> io::Result<()>>(bytes: &[u8], hear: &mut F) -> io::Result<()>
    requires { F.IsAlwaysCallable hear.old }
    ensures callable { F.IsAlwaysCallable hear.new }
    ensures in_order { OnOk result (FoldsTo (λ p x q. F.step p x (Ok tt) q) hear.old bytes.now hear.new) }
{
    for byte in bytes {
        hear(*byte)?;
    }
    Ok(())
}

// Reads the input in pieces, and hands its bytes on, one by one in their order, until one is refused; then whether the input ended. A proved loop has to
// end, so the pieces are counted: 1,000,000 of them are 32 gigabytes.
pub fn for_each_byte<R: Read, F: FnMut(u8) -> io::Result<()>>(
    from: &mut R,
    mut hear: F,
) -> io::Result<bool>
    requires { F.IsAlwaysCallable hear }
    ensures { OnOk result ((bytes : List ℕ) × (last : F) × Consumes (R.remaining from.old) (R.remaining from.new) bytes
        × FoldsTo (λ p x q. F.step p x (Ok tt) q) hear bytes last) }
{
    let mut piece = [0u8; 32768];
    'pieces: for _ in 0..1000000 {
        let n = read_full(from, &mut piece);
        feed(&piece[..n], &mut hear)?;
        if n < piece.len() {
            return Ok(true);
        }
    }
    Ok(false)
}
