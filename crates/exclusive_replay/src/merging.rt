//! What the owners printed, in the order of the trace.
ghost use Rattle.std.specs.Prelude.{◌≡◌, ◌<◌, ◌∷◌, [], ℕ, List, false, Some, IfOk, map, length, slice_get};
ghost use Rattle.std.specs.Vec.Iter.{into_iter_items};
ghost use Rattle.partition_model.specs.Options.{IsValid};
ghost use Rattle.mica_trace.specs.declared.report.Line.{Line};
ghost use Rattle.mica_trace.specs.TraceGrammar.{is_sync};
ghost use Rattle.mica_trace.specs.Rounds.{partition_in};
ghost use Rattle.mica_trace.specs.ExactReport.{ExactReport};
ghost use Rattle.exclusive_replay.specs.Merged.{AreReplied, TakesNext};

use mica_trace::{Line, Report, Trace, TraceLine};
use mica_words::partition_of;
use outside::NoMemory;
use partition_model::Options;
use std::alloc::Global;
use std::vec::IntoIter;

// The next of a partition's lines.
fn next_line(lines: &mut IntoIter<Line, Global>) -> Line
    requires { 0 < length (into_iter_items lines.old) }
    ensures { into_iter_items lines.old ≡ result ∷ into_iter_items lines.new }
{
    match lines.next() {
        Some(line) => line,
        None => unreachable!(),
    }
}

// What is printed for a line: a sync, or the next line of its partition's owner.
fn next_for(options: &Options, line: &TraceLine, printed: &mut [IntoIter<Line, Global>]) -> Line
    requires valid { IsValid options.now }
    requires many { length printed.old ≡ options.now.partitions }
    requires some { is_sync line.now ≡ false → (own : List Line)
        → slice_get (map (λ it. into_iter_items it) printed.old) (partition_in options.now line.now) ≡ Some own → 0 < length own }
    ensures { TakesNext options.now line.now (map (λ it. into_iter_items it) printed.old) (map (λ it. into_iter_items it) printed.new) result }
{
    if line.is_sync() {
        return Line::Sync;
    }
    let partition = partition_of(
        options.hashing.key_hash(line.key.bytes()),
        options.partitions,
    );
    next_line(&mut printed[partition as usize])
}

/// The exact report of a trace, by what each partition's owner printed for its lines. The report has none yet.
pub(crate) fn merge(
    options: &Options,
    trace: &Trace,
    printed: &mut [IntoIter<Line, Global>],
    mut report: Report,
) -> Result<Report, NoMemory>
    requires valid { IsValid options.now }
    requires none { report ≡ [] }
    requires replied { AreReplied options.now (λ p. []) trace.now (map (λ it. into_iter_items it) printed.old) }
    ensures { IfOk result (ExactReport options.now trace.now) }
{
    for line in trace.lines() {
        report.push(next_for(options, line, printed))?;
    }
    Ok(report)
}
