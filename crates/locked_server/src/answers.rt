//! The answers of all fronts as one.
ghost use Rattle.std.specs.Prelude.{◌≡◌, ◌≤◌, ℕ, Some, Ok, length, slice_get};
ghost use Rattle.server_words.specs.declared.limits.TheConstants.{MAX_BATCHES, MOST_FRONTS};
ghost use Rattle.fronts.specs.Totals.{IsUpTo};
ghost use Rattle.locked_server.specs.Running.{IsFaultOf, SumsUpBeside};

use fronts::{ServeFault, Totals};
use served::sum_up;

// The fault of a front of connections, where there is one: out of memory of any is that of all.
fn fault_of(streams: &[Result<(), ServeFault>]) -> Result<(), ServeFault>
    ensures { IsFaultOf streams.now result }
{
    let mut failed = false;
    for answer in streams {
        match answer {
            Ok(()) => {}
            Err(ServeFault::Net) => failed = true,
            Err(ServeFault::NoMemory) => return Err(ServeFault::NoMemory),
        }
    }
    if failed { Err(ServeFault::Net) } else { Ok(()) }
}

/// The sum of the totals, or the fault of a front of either kind: out of memory of any is that of all.
pub(crate) fn sum_up_beside(
    streams: &[Result<(), ServeFault>],
    fronts: &[Result<Totals, ServeFault>],
) -> Result<Totals, ServeFault>
    requires few { length fronts.now ≤ MOST_FRONTS }
    requires small { (f : ℕ) (totals : Totals) → slice_get fronts.now f ≡ Some (Ok totals) → IsUpTo MAX_BATCHES totals }
    ensures { SumsUpBeside streams.now fronts.now result }
{
    let totals = sum_up(fronts);
    match fault_of(streams) {
        Ok(()) => totals,
        Err(ServeFault::NoMemory) => Err(ServeFault::NoMemory),
        Err(ServeFault::Net) => match totals {
            Err(ServeFault::NoMemory) => Err(ServeFault::NoMemory),
            _ => Err(ServeFault::Net),
        },
    }
}
