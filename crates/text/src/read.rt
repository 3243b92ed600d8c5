// A word read: four hexadecimal digits.
ghost use Rattle.std.specs.Prelude.{◌≡◌, ◌<◌, IfSome};
ghost use Rattle.text.specs.Texts.{digit_of, word_of};

// The value of a hexadecimal digit, letters capital; none for any other byte.
fn digit(byte: u8) -> Option<u16>
    ensures value { result ≡ digit_of byte }
    ensures below { IfSome result (λ n. n < 16) }
{
    match byte {
        b'0'..=b'9' => Some((byte - b'0') as u16),
        b'A'..=b'F' => Some((byte - b'A') as u16 + 10),
        _ => None,
    }
}

// The word of four hexadecimal digits; none where one of them is none.
pub fn word(a: u8, b: u8, c: u8, d: u8) -> Option<u16>
    ensures { result ≡ word_of a b c d }
{
    Some(digit(a)? * 4096 + digit(b)? * 256 + digit(c)? * 16 + digit(d)?)
}
