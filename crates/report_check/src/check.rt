//! The verdict on a report.
ghost use Rattle.std.specs.Prelude.{◌≡◌, ◌↔◌, ◌<◌, ◌≤◌, ◌+◌, ◌^◌, ℕ, length, IfOk};
ghost use Rattle.std.specs.List.{AllZip, AllByRecursion};
ghost use Rattle.partition_model.specs.Options.{IsValid};
ghost use Rattle.mica_trace.specs.TraceGrammar.{IsTraceLine};
ghost use Rattle.mica_trace.specs.LawfulReport.{IsLineFor, LawfulReport};
ghost use Rattle.report_check.specs.FirstUnlawful.{IsVerdict, IsUnlawfulAt};
ghost use Rattle.report_check.specs.Found.{AreFound, with_judged, with_fall};

use crate::falls::first_fall;
use crate::fits::first_misfit;
use crate::partition::{Judged, judge_partition};
use crate::rounds::round_ends;
use crate::settling::earlier;
use crate::sharing::share_out;
use mica_trace::{Line, MAX_LINES, Report, Trace, TraceLine};
use outside::NoMemory;
use partition_model::Options;
use std::alloc::Global;

/// What is found of a report. Lines count from 1.
#[derive(Clone, Copy, PartialEq, Eq)]
pub enum Verdict {
    Lawful,
    /// The first line that breaks a rule.
    Unlawful(u32),
}

/// The first wrong write and the first wrong get that were found, by their places.
#[derive(Clone, Copy)]
pub struct Found {
    pub write: Option<usize>,
    pub get: Option<usize>,
}

// With what the writes and answers of one partition more come to.
fn with_judged(found: Found, judged: Judged) -> Found
    ensures { result ≡ with_judged found judged }
{
    match judged {
        Judged::Wrong(place) => Found {
            write: earlier(found.write, place),
            get: found.get,
        },
        Judged::Run(Some(place)) => Found {
            write: found.write,
            get: earlier(found.get, place),
        },
        Judged::Run(None) => found,
    }
}

// With the first get of one partition more whose stamp falls, if there is one.
fn with_fall(found: Found, fall: Option<usize>) -> Found
    ensures { result ≡ with_fall found fall }
{
    match fall {
        Some(place) => Found {
            write: found.write,
            get: earlier(found.get, place),
        },
        None => found,
    }
}

// What is found of all partitions.
fn judge_all(
    alloc: Global,
    options: &Options,
    trace: &[TraceLine],
    report: &[Line],
) -> Result<Found, NoMemory>
    requires valid { IsValid options.now }
    requires lines { AllZip IsLineFor trace.now report.now }
    requires fit { AllByRecursion IsTraceLine trace.now }
    requires few { length trace.now < 2 ^ 32 }
    ensures { IfOk result (AreFound options.now options.now.partitions trace.now report.now) }
{
    let mut found = Found {
        write: None,
        get: None,
    };
    let ends = round_ends(alloc, trace)?;
    let shared = share_out(alloc, options, trace)?;
    for p in 0..options.partitions {
        let lines = shared[p as usize].as_slice();
        let judged = judge_partition(alloc, options, trace, report, ends.as_slice(), lines)?;
        let fall = first_fall(alloc, options, trace, report, lines)?;
        found = with_fall(with_judged(found, judged), fall);
    }
    Ok(found)
}

// The verdict on the line at a place, counted from 0.
fn unlawful(place: usize) -> Verdict
    requires { place ≤ MAX_LINES }
    ensures { result ≡ Verdict.Unlawful (place + 1) }
{
    Verdict::Unlawful(place as u32 + 1)
}

fn verdict_of(
    alloc: Global,
    options: &Options,
    trace: &[TraceLine],
    report: &[Line],
) -> Result<Verdict, NoMemory>
    requires valid { IsValid options.now }
    requires fit { AllByRecursion IsTraceLine trace.now }
    requires few { length trace.now ≤ MAX_LINES }
    ensures { IfOk result (IsVerdict options.now trace.now report.now) }
{
    if let Some(place) = first_misfit(trace, report) {
        return Ok(unlawful(place));
    }
    let found = judge_all(alloc, options, trace, report)?;
    if let Some(place) = found.write {
        return Ok(unlawful(place));
    }
    match found.get {
        Some(place) => Ok(unlawful(place)),
        None => Ok(Verdict::Lawful),
    }
}

/// Judges a report: `Lawful` exactly where it is lawful, and `Unlawful` with exactly the first line that breaks a rule.
pub fn check_report(
    alloc: Global,
    options: &Options,
    trace: &Trace,
    report: &Report,
) -> Result<Verdict, NoMemory>
    requires { IsValid options.now }
    ensures lawful { IfOk result (λ verdict. (verdict ≡ Verdict.Lawful) ↔ LawfulReport options.now trace.now report.now) }
    ensures unlawful { IfOk result (λ verdict. (n : ℕ) → (verdict ≡ Verdict.Unlawful n) ↔ IsUnlawfulAt options.now trace.now report.now n) }
{
    let verdict = verdict_of(alloc, options, trace.lines(), report.lines())?;
    Ok(verdict)
}
