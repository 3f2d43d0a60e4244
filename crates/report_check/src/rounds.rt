//! Where rounds end.
ghost use Rattle.std.specs.Prelude.{◌≡◌, ◌⊎◌, ◌<◌, ◌≤◌, length, IfOk};
ghost use Rattle.report_check.specs.Moments.{AreRounds, IsRound, StartsRound};

use mica_trace::TraceLine;
use outside::NoMemory;
use std::alloc::Global;

// The end of the round that begins at the place: behind its sync, or the end of the trace.
fn round_end(trace: &[TraceLine], from: usize) -> usize
    requires within { from < length trace.now }
    requires starts { StartsRound trace.now from }
    ensures round { IsRound trace.now from result }
    ensures some { from < result }
    ensures next { (StartsRound trace.now result) ⊎ (result ≡ length trace.now) }
{
    for place in from..trace.len() {
        if trace[place].is_sync() {
            return place + 1;
        }
    }
    trace.len()
}

/// Where each round ends.
pub fn round_ends(alloc: Global, trace: &[TraceLine]) -> Result<Vec<usize>, NoMemory>
    ensures { IfOk result (λ ends. AreRounds trace.now 0 ends.items) }
{
    let mut ends = Vec::new(alloc);
    let mut from = 0;
    while from < trace.len() {
        let to = round_end(trace, from);
        ends.push(to)?;
        from = to;
    }
    Ok(ends)
}
