//! The first walk: which line of a report stands for no line of the trace.
ghost use Rattle.std.specs.Prelude.{◌↔◌, ◌≤◌, length, IfSome, IsTrue, MatchOption};
ghost use Rattle.std.specs.List.{AllZip};
ghost use Rattle.mica_trace.specs.Rounds.{op_of};
ghost use Rattle.mica_trace.specs.LawfulReport.{IsKindOf, IsLineFor, IsReplyTo};
ghost use Rattle.report_check.specs.FirstUnlawful.{IsFirst, IsMisfit};

use mica_trace::{Line, TraceLine, TraceOp};
use partition_model::Op;

fn is_reply_to(asked: TraceOp, replied: Op) -> bool
    ensures { IsTrue result ↔ IsReplyTo (op_of asked) replied }
{
    match replied {
        Op::Put => matches!(asked, TraceOp::Put),
        Op::Add => matches!(asked, TraceOp::Add),
        Op::Touch => matches!(asked, TraceOp::Touch),
        Op::Del => matches!(asked, TraceOp::Del),
    }
}

// Whether it is the kind of line that the operation has.
fn is_kind_of(asked: TraceOp, printed: &Line) -> bool
    ensures { IsTrue result ↔ IsKindOf asked printed.now }
{
    match printed {
        Line::Wrote { op, .. } => is_reply_to(asked, *op),
        Line::Hit { .. } | Line::Miss { .. } => matches!(asked, TraceOp::Get),
        Line::Sync => matches!(asked, TraceOp::Sync),
    }
}

// Whether the line of a report stands for the line of the trace.
fn stands_for(line: &TraceLine, printed: &Line) -> bool
    ensures { IsTrue result ↔ IsLineFor line.now printed.now }
{
    printed.is_report_line() && is_kind_of(line.op, printed)
}

/// The place of the first line that stands for no line of the trace, or the end of the shorter list.
pub fn first_misfit(trace: &[TraceLine], report: &[Line]) -> Option<usize>
    ensures first { MatchOption result (AllZip IsLineFor trace.now report.now) (IsFirst (IsMisfit trace.now report.now)) }
    ensures within { IfSome result (λ place. place ≤ length trace.now) }
{
    let shorter = trace.len().min(report.len());
    for place in 0..shorter {
        if !stands_for(&trace[place], &report[place]) {
            return Some(place);
        }
    }
    if trace.len() == report.len() {
        None
    } else {
        Some(shorter)
    }
}
