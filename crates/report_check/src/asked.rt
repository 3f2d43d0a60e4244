//! The gets of a round, in the order of their stamps.
ghost use Rattle.std.specs.Prelude.{◌≡◌, ◌≤◌, ◌<◌, length, IfOk};
ghost use Rattle.std.specs.List.{AllByRecursion};
ghost use Rattle.mica_trace.specs.ReportGrammar.{printed_stamp};
ghost use Rattle.mica_trace.specs.RoundReport.{is_get};
ghost use Rattle.mica_trace.specs.Rounds.{partition_in};
ghost use Rattle.report_check.specs.Settling.{AreGetsAmong, StampsRise};

use crate::sharing::OwnLine;
use mica_trace::{Line, TraceLine, TraceOp};
use mica_words::partition_of;
use outside::NoMemory;
use partition_model::Options;
use std::alloc::Global;

/// A get: the stamp that is printed for it, and its place.
#[derive(Clone, Copy)]
pub struct Asked {
    pub stamp: u64,
    pub place: usize,
}

/// Whether a line is a get.
pub fn is_get(line: &TraceLine) -> bool
    ensures { result ≡ is_get line.now }
{
    matches!(line.op, TraceOp::Get)
}

/// The partition of a line's key.
pub fn partition_in(options: &Options, line: &TraceLine) -> u32
    requires { 1 ≤ options.now.partitions }
    ensures { result ≡ partition_in options.now line.now }
{
    partition_of(
        options.hashing.key_hash(line.key.bytes()),
        options.partitions,
    )
}

/// The stamp of a line, and 0 where it has none.
pub fn printed_stamp(line: &Line) -> u64
    ensures { result ≡ printed_stamp line.now }
{
    match line {
        Line::Wrote { stamp, .. } | Line::Hit { stamp, .. } | Line::Miss { stamp } => *stamp,
        Line::Sync => 0,
    }
}

/// The gets among the lines of a partition, in the order of their stamps.
pub fn gets_among(
    alloc: Global,
    trace: &[TraceLine],
    report: &[Line],
    lines: &[OwnLine],
) -> Result<Vec<Asked>, NoMemory>
    requires within { AllByRecursion (λ own. own.place < length trace.now) lines.now }
    requires same { length report.now ≡ length trace.now }
    ensures all { IfOk result (λ asked. AreGetsAmong trace.now report.now lines.now asked.items) }
    ensures rising { IfOk result (λ asked. StampsRise asked.items) }
{
    let mut asked = Vec::new(alloc);
    for at in 0..lines.len() {
        let place = lines[at].place;
        if is_get(&trace[place]) {
            asked.push(Asked {
                stamp: printed_stamp(&report[place]),
                place,
            })?;
        }
    }
    asked.sort_by_key(|get| get.stamp)?;
    Ok(asked)
}
