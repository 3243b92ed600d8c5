// Shifts by a count in a register (5.18 to 5.23). The condition status is that of the value.
ghost use Rattle.std.specs.Prelude.{◌≡◌, true};
ghost use Rattle.twos_complement.specs.Whole.{signed};
ghost use Rattle.shift.specs.Shift.{count_of, logical_by, arithmetic_by, circular_by, numbered, plain, outcome};

use crate::{Count, Shifted, places};
use word::width::Word;

// Where a count word moves a word of the given width.
fn count_of(width: u16, count: u16) -> Count
    ensures { result ≡ count_of width (signed 16 count) }
{
    if count < 0x8000 {
        if count <= width {
            Count::Left(count)
        } else {
            Count::Beyond
        }
    } else {
        let back = !count + 1;
        if back <= width {
            Count::Right(back)
        } else {
            Count::Beyond
        }
    }
}

// A shifted word without overflow.
fn plain<W: Word>(value: W) -> Shifted<W>
    ensures { numbered W.number result ≡ plain (W.number value) }
{
    Shifted {
        value,
        overflow: false,
    }
}

// A word that is not shifted, as the count is too large.
fn unmoved<W: Word>(value: W) -> Shifted<W>
    ensures { numbered W.number result ≡ outcome (W.number value) true }
{
    Shifted {
        value,
        overflow: true,
    }
}

// The three shifts match on the count themselves: two closures for the directions would each need clauses of their own.

// Logical (5.18, 5.21).
pub fn logical<W: Word>(a: W, count: u16) -> Shifted<W>
    ensures { numbered W.number result ≡ logical_by W.WIDTH (W.number a) count }
{
    match count_of(W::WIDTH, count) {
        Count::Left(n) => plain(places::left(a, n)),
        Count::Right(n) => plain(places::right(a, n)),
        Count::Beyond => unmoved(a),
    }
}

// Arithmetic (5.19, 5.22).
pub fn arithmetic<W: Word>(a: W, count: u16) -> Shifted<W>
    ensures { numbered W.number result ≡ arithmetic_by W.WIDTH (W.number a) count }
{
    match count_of(W::WIDTH, count) {
        Count::Left(n) => Shifted {
            value: places::left(a, n),
            overflow: places::sign_changes(a, n),
        },
        Count::Right(n) => plain(places::arith(a, n)),
        Count::Beyond => unmoved(a),
    }
}

// Cyclic (5.20, 5.23).
pub fn circular<W: Word>(a: W, count: u16) -> Shifted<W>
    ensures { numbered W.number result ≡ circular_by W.WIDTH (W.number a) count }
{
    match count_of(W::WIDTH, count) {
        Count::Left(n) => plain(places::cyclic(a, n)),
        Count::Right(n) => plain(places::cyclic(a, W::WIDTH - n)),
        Count::Beyond => unmoved(a),
    }
}
