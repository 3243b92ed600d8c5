// Words of 32 bits: double precision.
ghost use Rattle.std.specs.Prelude.{◌≡◌, refl};
ghost use Rattle.std.proofs.Common.{rules};

use crate::width::Word;

impl Word for u32 {
    const WIDTH: u16 = 32;

    const SIGN: u64 = 0x8000_0000;

    const OFFSET: u64 = 0x8000_0000_0000_0000;

    ghost WIDTH = { 32 };

    ghost SIGN = { 0x8000_0000 };

    ghost OFFSET = { 0x8000_0000_0000_0000 };

    ghost spare = { 31 };

    ghost number = { λ n. n };

    ghost has_sign = { Prim.search rules };

    ghost at_most_32 = { Prim.search rules };

    ghost sign_is = { refl };

    ghost all_is = { refl };

    ghost sign_small = { Prim.search rules };

    ghost offset_is = { refl };

    ghost offset_large = { Prim.search rules };

    ghost offset_small = { Prim.search rules };

    ghost squares_fit = { Prim.search rules };

    fn number(self) -> u64 {
        u64::from(self)
    }

    fn kept(n: u64) -> u32 {
        (n % 0x1_0000_0000) as u32
    }
}
