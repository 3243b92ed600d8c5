// Words of two widths: 16 bits, single precision, and 32 bits, double precision. What differs only in the width is written once over them.
ghost use Rattle.std.specs.Prelude.{◌≡◌, ℕ, ◌+◌, ◌-◌, ◌*◌, ◌%◌, ◌^◌, ◌≤◌, ◌<◌};

// A word as wide as its type.
pub trait Word: Copy {
    // How many bits it has.
    const WIDTH: u16;

    // The weight of its sign bit.
    const SIGN: u64;

    // What zero is where a whole number, also one below zero, is held in a u64.
    const OFFSET: u64;

    ghost WIDTH: { ℕ };

    ghost SIGN: { ℕ };

    ghost OFFSET: { ℕ };

    // How many bits more than the word the offset has.
    ghost spare: { ℕ };

    // The number that its bits make.
    ghost number: { Self → ℕ };

    // The number that its bits make.
    fn number(self) -> u64
        ensures value { result ≡ number self }
        ensures fits { result < 2 ^ WIDTH };

    // The word of the low bits of a number.
    fn kept(n: u64) -> Self
        ensures { number result ≡ n % 2 ^ WIDTH };

    // The whole number that it stands for, plus the weight of the sign bit.
    final fn excess(self) -> u64
        ensures value { result ≡ (number self + 2 ^ (WIDTH - 1)) % 2 ^ WIDTH }
        ensures fits { number self < 2 ^ WIDTH }
        ensures below { result < 2 * SIGN }
    {
        Self::kept(self.number() + Self::SIGN).number()
    }

    ghost has_sign: { 1 ≤ WIDTH };

    ghost at_most_32: { WIDTH ≤ 32 };

    ghost sign_is: { SIGN ≡ 2 ^ (WIDTH - 1) };

    ghost all_is: { 2 ^ WIDTH ≡ 2 * SIGN };

    ghost sign_small: { SIGN ≤ 0x8000_0000 };

    ghost offset_is: { OFFSET ≡ 2 ^ (spare + WIDTH) };

    ghost offset_large: { 0x1_0000_0000 ≤ OFFSET };

    ghost offset_small: { OFFSET ≤ 0x8000_0000_0000_0000 };

    ghost squares_fit: { SIGN * SIGN < OFFSET };
}
