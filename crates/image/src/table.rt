// The table of an image: words, numbers and entries, most significant byte first.
ghost use Rattle.std.specs.Prelude.{◌≡◌, ◌+◌, ◌*◌, ◌<◌, ◌≤◌, length};
ghost use Rattle.image.specs.Image.{word_at, long_at, count_of, entry_at, words_before, end_of};

use crate::Entry;

// The word of two bytes from byte i on. The image has them: callers have asked for its length, here and below.
pub fn word_at(image: &[u8], i: usize) -> u16
    requires { i + 2 ≤ length image.now }
    ensures { result ≡ word_at image.now i }
{
    u16::from_be_bytes([image[i], image[i + 1]])
}

// The number of four bytes from byte i on.
fn long_at(image: &[u8], i: usize) -> u32
    requires { i + 4 ≤ length image.now }
    ensures { result ≡ long_at image.now i }
{
    u32::from_be_bytes([image[i], image[i + 1], image[i + 2], image[i + 3]])
}

// The number of entries.
pub fn count(image: &[u8]) -> usize
    requires { 2 ≤ length image.now }
    ensures { (result ≡ count_of image.now) × (result < 65536) }
{
    usize::from(word_at(image, 0))
}

// Entry k of the table.
pub fn entry_at(image: &[u8], k: usize) -> Entry
    requires { 12 + 10 * k ≤ length image.now }
    ensures { result ≡ entry_at image.now k }
{
    Entry {
        kind: word_at(image, 2 + 10 * k),
        start: long_at(image, 4 + 10 * k),
        words: long_at(image, 8 + 10 * k),
    }
}

// The word after those that an entry fills.
pub(crate) fn end(e: Entry) -> u64
    ensures { result ≡ end_of e }
{
    u64::from(e.start) + u64::from(e.words)
}

// The words of the first n bodies. No caller has more than 64, whose lengths of 32 bits do not wrap.
pub(crate) fn words_before(image: &[u8], n: usize) -> usize
    requires { (2 + 10 * n ≤ length image.now) × (n ≤ 64) }
    ensures { (result ≡ words_before image.now n) × (result ≤ 4294967296 * n) }
{
    let mut total: usize = 0;
    for k in 0..n {
        total += entry_at(image, k).words as usize;
    }
    total
}
