// The questions to an image and to the memory, page registers and ports lent for it, in their order (Scope, "Questions at the door").
ghost use Rattle.std.specs.Prelude.{◌≡◌, ◌+◌, ◌*◌, ◌≤◌, length};
ghost use Rattle.image.specs.Image.{share, shares_earlier, number_of, entry_answer, entries_answer, table_answer, image_answer, admission};

use crate::table::{count, end, entry_at, words_before};
use crate::{Entry, LoadError, Target};
use machine::check_sizes;

// The Scope's number of an answer; 0: the image is accepted.
pub fn number(answer: Result<(), LoadError>) -> u16
    ensures { result ≡ number_of answer }
{
    match answer {
        Ok(()) => 0,
        Err(LoadError::BadSize(size)) => size.number(),
        Err(LoadError::NoCount) => 6,
        Err(LoadError::ManyEntries) => 7,
        Err(LoadError::ShortTable) => 8,
        Err(LoadError::BadKind) => 9,
        Err(LoadError::BadRange) => 10,
        Err(LoadError::SharedWord) => 11,
        Err(LoadError::BadBodies) => 12,
    }
}

// Whether two entries share a word.
fn shares(e: Entry, f: Entry) -> bool
    ensures { result ≡ share e f }
{
    e.kind == f.kind && u64::from(e.start) < end(f) && u64::from(f.start) < end(e)
}

// Whether an entry shares a word with one of the first k, which are within the table, as entries are below.
fn shares_earlier(image: &[u8], e: Entry, k: usize) -> bool
    requires { 2 + 10 * k ≤ length image.now }
    ensures { result ≡ shares_earlier image.now e k }
{
    for i in 0..k {
        if shares(e, entry_at(image, i)) {
            return true;
        }
    }
    false
}

// The questions to entry k.
fn check_entry(image: &[u8], memory: usize, k: usize) -> Result<(), LoadError>
    requires { 12 + 10 * k ≤ length image.now }
    ensures { result ≡ entry_answer memory image.now k }
{
    let e = entry_at(image, k);
    let target = Target::try_from(e.kind)?;
    if e.words < 1 {
        return Err(LoadError::BadRange);
    }
    if (target.size(memory) as u64) < end(e) {
        return Err(LoadError::BadRange);
    }
    if shares_earlier(image, e, k) {
        return Err(LoadError::SharedWord);
    }
    Ok(())
}

// The questions to the first n entries.
fn check_entries(image: &[u8], memory: usize, n: usize) -> Result<(), LoadError>
    requires { 2 + 10 * n ≤ length image.now }
    ensures { result ≡ entries_answer memory image.now n 0 }
{
    for k in 0..n {
        check_entry(image, memory, k)?;
    }
    Ok(())
}

// The questions to a table and its bodies. Its caller has found that there are two bytes.
fn check_table(image: &[u8], memory: usize) -> Result<(), LoadError>
    requires { 2 ≤ length image.now }
    ensures { result ≡ table_answer memory image.now }
{
    let n = count(image);
    if 64 < n {
        return Err(LoadError::ManyEntries);
    }
    let end = 2 + 10 * n;
    if image.len() < end {
        return Err(LoadError::ShortTable);
    }
    check_entries(image, memory, n)?;
    if image.len() != end + 2 * words_before(image, n) {
        return Err(LoadError::BadBodies);
    }
    Ok(())
}

// The questions to an image: one of no bytes is asked no more.
fn check_image(image: &[u8], memory: usize) -> Result<(), LoadError>
    ensures { result ≡ image_answer memory image.now }
{
    if image.is_empty() {
        return Ok(());
    }
    if image.len() < 2 {
        return Err(LoadError::NoCount);
    }
    check_table(image, memory)
}

// All questions, those to the sizes first.
pub fn check(image: &[u8], memory: usize, pages: usize, ports: usize) -> Result<(), LoadError>
    ensures { result ≡ admission image.now memory pages ports }
{
    check_sizes(memory, pages, ports)?;
    check_image(image, memory)
}
