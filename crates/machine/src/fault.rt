// Faults: refusals in a row, and what a fault leaves in the fault registers.
ghost use Rattle.std.specs.Prelude.{◌≡◌};
ghost use Rattle.machine.specs.Faults.{followed, recorded};

use crate::Faults;
use page::Refusal;

// One more refusal, after earlier ones.
pub fn follow(earlier: Refusal, b: Refusal) -> Refusal
    ensures { result ≡ followed earlier b }
{
    Refusal {
        ft: earlier.ft | b.ft,
        mfs: b.mfs,
    }
}

// The fault registers after a fault.
pub fn after_fault(faults: Faults, b: Refusal) -> Faults
    ensures { result ≡ recorded faults b }
{
    if b.ft & 0x8080 == 0 {
        return Faults {
            ft: faults.ft | b.ft,
            mfs: faults.mfs,
        };
    }
    Faults {
        ft: faults.ft | b.ft,
        mfs: b.mfs,
    }
}
