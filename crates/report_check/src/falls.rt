//! Where the stamps of a reader fall.
ghost use Rattle.std.specs.Prelude.{◌≡◌, ℕ, length, IfOk};
ghost use Rattle.partition_model.specs.Options.{IsValid};
ghost use Rattle.report_check.specs.Judged.{IsFirstFall};
ghost use Rattle.report_check.specs.Shared.{AreLinesOf};

use crate::asked::{is_get, printed_stamp};
use crate::sharing::OwnLine;
use mica_trace::{Line, TraceLine};
use outside::NoMemory;
use partition_model::Options;
use std::alloc::Global;

/// The first get of the partition whose lines these are with a stamp below that of an earlier one of its reader, by its place.
pub fn first_fall(
    alloc: Global,
    options: &Options,
    trace: &[TraceLine],
    report: &[Line],
    lines: &[OwnLine],
) -> Result<Option<usize>, NoMemory>
    requires valid { IsValid options.now }
    requires own { (p : ℕ) × AreLinesOf options.now p trace.now 0 (length trace.now) lines.now }
    requires same { length report.now ≡ length trace.now }
    ensures { IfOk result (λ fall. (p : ℕ) → AreLinesOf options.now p trace.now 0 (length trace.now) lines.now → IsFirstFall options.now p trace.now report.now fall) }
{
    let mut last = vec![in alloc; 0u64; options.readers as usize]?;
    for at in 0..lines.len() {
        let own = lines[at];
        if is_get(&trace[own.place]) {
            let reader = (own.gets % options.readers) as usize;
            let stamp = printed_stamp(&report[own.place]);
            if stamp < last[reader] {
                return Ok(Some(own.place));
            }
            last[reader] = stamp;
        }
    }
    Ok(None)
}
