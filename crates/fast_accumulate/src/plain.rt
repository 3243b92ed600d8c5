// A word or a double word that is loaded as it is.
ghost use Rattle.std.specs.Prelude.{◌≡◌};
ghost use Rattle.fixed_add.specs.Fixed.{numbered};
ghost use Rattle.fast_accumulate.specs.Paths.{plain};

use fixed_add::Outcome;
use word::status::status;
use word::width::Word;

// A word as it is, and its status.
pub(crate) fn plain<W: Word>(x: W) -> Outcome<W>
    ensures { numbered W.number result ≡ plain W.WIDTH (W.number x) }
{
    Outcome {
        value: x,
        cs: status(x),
        overflow: false,
    }
}
