// The first bytes of a line: as many as there is room for are kept. The kit's `ArrayVec` is not `Copy`, and writes over all that it held where it is cleared.
ghost use Rattle.std.specs.Prelude.{◌≡◌, [], ◌==◌, ◌≤◌, length};
ghost use Rattle.text.specs.FirstBytes.{kept};

use std::marker::Model;

#[derive(Clone, Copy)]
pub struct FirstBytes<const N: usize> {
    bytes: [u8; N],
    count: usize,
}

impl<const N: usize> Model for FirstBytes<N> {
    ghost use Rattle.std.specs.Prelude.{◌≡◌, ◌≤◌, ◌++◌, length, take, drop};
    ghost use Rattle.std.proofs.Common.{arith, take-append-drop, length-take-le};
    ghost use Rattle.text.specs.FirstBytes.{FirstBytes as Kept};

    ghost Value = { Kept };

    ghost view = { λ l. record { items = take l.count l.bytes; spare = drop l.count l.bytes } };

    ghost invariant = { λ l. (l.count ≤ N) × (length l.bytes ≡ N) };

    ghost inverse = { λ l. record { bytes = l.items ++ l.spare; count = length l.items } };

    ghost inverse_ok = { λ l h i. record {
      bytes = take-append-drop l.count l.bytes i;
      count = length-take-le l.count l.bytes (omega (arith, h.0, h.1)) i;
    } };
}

impl<const N: usize> FirstBytes<N> {
    // No byte of a line.
    pub fn new() -> Self
        ensures { result.items ≡ [] }
    {
        FirstBytes {
            bytes: [0; N],
            count: 0,
        }
    }

    // The next byte of the line, which is left out where N bytes are kept.
    #[inline]
    #[tactic(auto, unfolding(crate::specs::FirstBytes::kept))]
    pub fn keep(&mut self, byte: u8)
        ensures { self.new.items ≡ kept N self.old.items byte }
    {
        if self.count < N {
            self.bytes[self.count] = byte;
            self.count += 1;
        }
    }

    #[inline]
    pub fn is_empty(&self) -> bool
        ensures { result ≡ (length self.now.items == 0) }
    {
        self.count == 0
    }

    // The bytes that are kept.
    #[inline]
    pub fn as_slice(&self) -> &[u8]
        ensures value { result.now ≡ self.now.items }
        ensures fits { length result.now ≤ N }
    {
        &self.bytes[..self.count]
    }

    // The start of the next line.
    #[inline]
    pub fn clear(&mut self)
        ensures { self.new.items ≡ [] }
    {
        self.count = 0;
    }
}

#[cfg(test)]
mod tests {
    use crate::first_bytes::FirstBytes;

    // A third byte where two are kept is left out; the next line begins with its own first byte.
    #[test]
    fn first_two_of_three(rt: HostRuntime) {
        let mut line = FirstBytes::<2>::new();
        for byte in b"ABC" {
            line.keep(*byte);
        }
        assert_eq!(rt; line.as_slice(), b"AB".as_slice());
        line.clear();
        line.keep(b'D');
        assert_eq!(rt; line.as_slice(), b"D".as_slice());
    }
}
