//! Judges the writes and the answers of one partition.
ghost use Rattle.std.specs.Prelude.{◌≡◌, ◌≤◌, ◌<◌, ℕ, [], length, IfOk, MatchBool, nat_le, position};
ghost use Rattle.std.specs.List.{AllZip, AllByRecursion, position_or_len};
ghost use Rattle.partition_model.specs.declared.options.Options.{Options};
ghost use Rattle.partition_model.specs.History.{History};
ghost use Rattle.partition_model.specs.Options.{IsValid};
ghost use Rattle.partition_model.specs.Run.{IsRunFrom};
ghost use Rattle.mica_trace.specs.TraceGrammar.{IsTraceLine};
ghost use Rattle.mica_trace.specs.LawfulReport.{IsLineFor};
ghost use Rattle.report_check.specs.Judged.{IsBeforeRound, IsJudged, IsJudgedRound, step_at, LeavesMissed, TakesStep};
ghost use Rattle.report_check.specs.Machines.{IsAfter};
ghost use Rattle.report_check.specs.Moments.{AreRounds};
ghost use Rattle.report_check.specs.Shared.{AreLinesOf};

use crate::asked::{Asked, gets_among};
use crate::machine::Machine;
use crate::settling::{Settling, earlier, judge};
use crate::sharing::OwnLine;
use mica_trace::{Line, TraceLine};
use outside::NoMemory;
use partition_model::{ItemBuf, Options};
use std::alloc::Global;

/// What is found of a partition, by places: its first wrong write, or, where its writes are a run of the machine, its
/// first get that is not answered as at a moment of its round.
#[derive(Clone, Copy)]
pub enum Judged {
    Wrong(usize),
    Run(Option<usize>),
}

/// Takes the step that is printed for a line, if the machine may take it, and says whether it may. A line that is no
/// write has none to take.
fn take_step(
    alloc: Global,
    line: &TraceLine,
    printed: &Line,
    machine: &mut Machine,
) -> Result<bool, NoMemory>
    requires fit { IsTraceLine line.now }
    requires stands { IsLineFor line.now printed.now }
    requires after { (options : Options) × (history : History) × IsAfter options history machine.old }
    ensures { IfOk result (λ may. (options : Options) (history : History) → IsAfter options history machine.old
        → MatchBool may (TakesStep options history line.now printed.now machine.new)
        (¬ (IsRunFrom options history (step_at line.now printed.now)))) }
{
    match printed {
        Line::Wrote { op, outcome, stamp } => {
            let (key, value) = (line.key.bytes(), line.value.bytes());
            let may = machine.take(alloc, *op, key, value, *outcome)?;
            Ok(may && machine.stamp() == *stamp)
        }
        Line::Hit { .. } | Line::Miss { .. } | Line::Sync => Ok(true),
    }
}

// The first of the gets that are left, if it stands before the one that was missed.
fn first_missed(asked: &[Asked], settling: Settling) -> Option<usize>
    requires { settling.next ≤ length asked.now }
    ensures { LeavesMissed asked.now settling result }
{
    let mut missed = settling.missed;
    for at in settling.next..asked.len() {
        missed = earlier(missed, asked[at].place);
    }
    missed
}

// Goes through one round of a partition, whose lines there these are. The machine stands before it.
fn judge_round(
    alloc: Global,
    trace: &[TraceLine],
    report: &[Line],
    lines: &[OwnLine],
    machine: &mut Machine,
    out: &mut ItemBuf,
) -> Result<Judged, NoMemory>
    requires lines { AllZip IsLineFor trace.now report.now }
    requires fit { AllByRecursion IsTraceLine trace.now }
    requires within { AllByRecursion (λ own. own.place < length trace.now) lines.now }
    requires before { (options : Options) × (p : ℕ) × (from : ℕ) × (to : ℕ) × IsBeforeRound options p trace.now report.now from to lines.now machine.old }
    ensures { IfOk result (λ judged. (options : Options) (p from to : ℕ) → IsBeforeRound options p trace.now report.now from to lines.now machine.old
        → IsJudgedRound options p trace.now report.now from to machine.new judged) }
{
    let asked = gets_among(alloc, trace, report, lines)?;
    let none = Settling {
        next: 0,
        missed: None,
    };
    let mut settling = judge(machine, trace, report, asked.as_slice(), none, out);
    for at in 0..lines.len() {
        let place = lines[at].place;
        if !take_step(alloc, &trace[place], &report[place], machine)? {
            return Ok(Judged::Wrong(place));
        }
        settling = judge(machine, trace, report, asked.as_slice(), settling, out);
    }
    Ok(Judged::Run(first_missed(asked.as_slice(), settling)))
}

// How many of the lines stand before the place.
fn count_before(lines: &[OwnLine], place: usize) -> usize
    ensures { result ≡ position_or_len (λ own. nat_le place own.place) lines.now }
{
    match first_from(lines, place) {
        Some(at) => at,
        None => lines.len(),
    }
}

// The first of the lines that stands at the place or behind it.
fn first_from(lines: &[OwnLine], place: usize) -> Option<usize>
    ensures { result ≡ position (λ own. nat_le place own.place) lines.now }
{
    lines.iter().position(|own| place <= own.place)
}

/// Goes through each round of the partition whose lines these are once, by the machine.
pub fn judge_partition(
    alloc: Global,
    options: &Options,
    trace: &[TraceLine],
    report: &[Line],
    ends: &[usize],
    lines: &[OwnLine],
) -> Result<Judged, NoMemory>
    requires valid { IsValid options.now }
    requires lines { AllZip IsLineFor trace.now report.now }
    requires fit { AllByRecursion IsTraceLine trace.now }
    requires ends { AreRounds trace.now 0 ends.now }
    requires own { (p : ℕ) × AreLinesOf options.now p trace.now 0 (length trace.now) lines.now }
    ensures { IfOk result (λ judged. (p : ℕ) → AreLinesOf options.now p trace.now 0 (length trace.now) lines.now → IsJudged options.now p trace.now report.now judged) }
{
    let mut machine = Machine::new(alloc, options)?;
    let mut out = ItemBuf::new(alloc)?;
    let mut missed = None;
    let mut first = 0;
    for round in 0..ends.len() {
        let rest = &lines[first..];
        let count = count_before(rest, ends[round]);
        let here = &rest[..count];
        match judge_round(alloc, trace, report, here, &mut machine, &mut out)? {
            Judged::Wrong(place) => return Ok(Judged::Wrong(place)),
            Judged::Run(found) => {
                if missed.is_none() {
                    missed = found;
                }
            }
        }
        first += count;
    }
    Ok(Judged::Run(missed))
}
