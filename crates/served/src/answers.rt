//! The answers of all fronts as one.
ghost use Rattle.std.specs.Prelude.{◌≡◌, ◌≤◌, ℕ, Some, length, slice_get, Ok};
ghost use Rattle.server_words.specs.declared.limits.TheConstants.{MAX_BATCHES};
ghost use Rattle.fronts.specs.Totals.{IsUpTo};
ghost use Rattle.served.specs.FrontRuns.{SumsUp};

use fronts::{ServeFault, Totals};

/// The sum of the totals, or the fault of a front: out of memory, if any ran out of it.
pub fn sum_up(answers: &[Result<Totals, ServeFault>]) -> Result<Totals, ServeFault>
    requires few { length answers.now ≤ 64 }
    requires small { (f : ℕ) (totals : Totals) → slice_get answers.now f ≡ Some (Ok totals) → IsUpTo MAX_BATCHES totals }
    ensures { SumsUp answers.now result }
{
    let mut totals = Totals::none();
    let mut failed = false;
    for answer in answers {
        match answer {
            Ok(one) => totals.add(*one),
            Err(ServeFault::Net) => failed = true,
            Err(ServeFault::NoMemory) => return Err(ServeFault::NoMemory),
        }
    }
    if failed {
        Err(ServeFault::Net)
    } else {
        Ok(totals)
    }
}
