//! The line that tells the totals of a server.
ghost use Rattle.std.specs.Prelude.{◌≡◌, string_bytes, IfOk};
ghost use Rattle.served.specs.TotalsText.{totals_text};

use fronts::Totals;
use outside::NoMemory;
use std::alloc::Global;

/// The line of what the fronts of a server received.
pub fn totals_line(alloc: Global, totals: Totals) -> Result<String, NoMemory>
    ensures { IfOk result (λ line. string_bytes line ≡ totals_text totals) }
{
    let Totals {
        batches,
        requests,
        bad,
    } = totals;
    match format!(in alloc; "batches {batches} requests {requests} bad {bad}\n") {
        Ok(line) => Ok(line),
        Err(_) => Err(NoMemory),
    }
}
