//! The command `check`.
ghost use Rattle.std.specs.Prelude.{◌≡◌, ◌≢◌, ◌<◌, List, length, option_map, false, IfOk, IfSome, MatchResult};
ghost use Rattle.partition_model.specs.Options.{IsValid};
ghost use Rattle.served.specs.NetRun.{NetFacts};
ghost use Rattle.partition_table.specs.declared.tables.KeptSeat.{KeptSeat};
ghost use Rattle.mica_cmd.specs.Outside.{outside, source_facts, LinkFacts};
ghost use Rattle.server_words.specs.Output.{sink_facts, with_line_feed};
ghost use Rattle.mica_cmd.specs.Findings.{Finds, FindsOfReport, FindsBehind, finding_text, status_of};
ghost use Rattle.mica_cmd.specs.Promise.{KeepsPromise, IsTold};
ghost use Rattle.mica_cmd.specs.Promises.{check_promise};

use crate::Status;
use crate::check_parts::split_at_check;
use crate::finding::Finding;
use crate::input::read_source;
use crate::output::write_due;
use mica_trace::{ReportFault, Trace, TraceFault, read_report, read_trace};
use outside::{NoMemory, Sink, Source};
use partition_model::Options;
use report_check::check_report;
use std::alloc::Global;

/// Judges the report that the source gives behind a trace and a line `check`, and prints what is found.
pub fn check_command<S: Source, K: Sink>(
    alloc: Global,
    options: &Options,
    source: &mut S,
    sink: &mut K,
) -> Status
    requires open { S.has_ended source.old ≡ false }
    requires valid { IsValid options.now }
    ensures { (net : NetFacts) → (kept : List KeptSeat) → (link : LinkFacts) → KeepsPromise (check_promise options.now)
        (outside (source_facts S.Source source.old) (sink_facts K.Sink sink.old) net kept link)
        (outside (source_facts S.Source source.new) (sink_facts K.Sink sink.new) net kept link) result }
{
    let bytes = match read_source(alloc, source, sink) {
        Ok(bytes) => bytes,
        Err(status) => return status,
    };
    match find(alloc, options, bytes.as_slice()) {
        Ok(finding) => tell(alloc, sink, finding),
        Err(NoMemory) => Status::NoMemory,
    }
}

// What a fault of a trace says.
fn refused(fault: TraceFault) -> Result<Finding, NoMemory>
    ensures { MatchResult result (λ finding. (finding ≡ Finding.NoTrace fault) × (fault ≢ TraceFault.NoMemory))
        (λ _. fault ≡ TraceFault.NoMemory) }
{
    if fault == TraceFault::NoMemory {
        Err(NoMemory)
    } else {
        Ok(Finding::NoTrace(fault))
    }
}

fn find_of_report(
    alloc: Global,
    options: &Options,
    trace: &Trace,
    text: &[u8],
) -> Result<Finding, NoMemory>
    requires valid { IsValid options.now }
    requires few { length text.now < 4294967296 }
    ensures { IfOk result (FindsOfReport options.now trace.now text.now) }
{
    let report = match read_report(alloc, text) {
        Ok(report) => report,
        Err(ReportFault::BadLine(number)) => return Ok(Finding::BadReport(number)),
        Err(ReportFault::NoMemory) => return Err(NoMemory),
    };
    let verdict = check_report(alloc, options, trace, &report)?;
    Ok(Finding::of(verdict))
}

fn find_behind(
    alloc: Global,
    options: &Options,
    trace: &Trace,
    behind: Option<&[u8]>,
) -> Result<Finding, NoMemory>
    requires valid { IsValid options.now }
    requires few { IfSome behind (λ text. length text.now < 4294967296) }
    ensures { IfOk result (FindsBehind options.now trace.now (option_map (λ text. text.now) behind.entry)) }
{
    match behind {
        Some(text) => find_of_report(alloc, options, trace, text),
        None => Ok(Finding::NoReport),
    }
}

fn find(alloc: Global, options: &Options, bytes: &[u8]) -> Result<Finding, NoMemory>
    requires valid { IsValid options.now }
    requires few { length bytes.now < 4294967296 }
    ensures { IfOk result (Finds options.now bytes.now) }
{
    let (before, behind) = split_at_check(bytes);
    match read_trace(alloc, before) {
        Ok(trace) => find_behind(alloc, options, &trace, behind),
        Err(fault) => refused(fault),
    }
}

fn tell<K: Sink>(alloc: Global, sink: &mut K, finding: Finding) -> Status
    ensures { IsTold (status_of finding) (with_line_feed (finding_text finding)) (sink_facts K.Sink sink.old) (sink_facts K.Sink sink.new) result }
{
    let status = finding.status();
    match format!(in alloc; "{finding}\n") {
        Ok(line) => write_due(sink, line.as_bytes(), status),
        Err(_) => Status::NoMemory,
    }
}
