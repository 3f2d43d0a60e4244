//! Reports and their lines.
ghost use Rattle.std.specs.Prelude.{◌≡◌, ◌↔◌, ◌≤◌, ◌<◌, ◌∷◌, ◌++◌, [], length, vec_len, slice_get, string_bytes, IfOk, IsTrue, OnOk, OnErr};
ghost use Rattle.std.specs.Option.{option_copied};
ghost use Rattle.mica_trace.specs.ReportGrammar.{report_line_text, HasOutcome, IsReportLine, op_word, outcome_words};

use crate::append::append_line;
use crate::read::is_value;
use itoa::Buffer;
use outside::{Bytes, NoMemory};
use partition_model::{Op, Outcome};
use std::alloc::Global;
use std::marker::Model;

/// A line of a report.
#[derive(Drop)]
pub enum Line {
    Wrote {
        op: Op,
        outcome: Outcome,
        stamp: u64,
    },
    Hit {
        stamp: u64,
        value: Bytes,
    },
    Miss {
        stamp: u64,
    },
    Sync,
}

impl Line {
    /// Whether a report may have it: its outcome is one of its operation's, its value one of a trace's.
    pub fn is_report_line(&self) -> bool
        ensures { IsTrue result ↔ IsReportLine self.now }
    {
        match self {
            Line::Wrote { op, outcome, .. } => has_outcome(*op, *outcome),
            Line::Hit { value, .. } => is_value(value.bytes()),
            Line::Miss { .. } | Line::Sync => true,
        }
    }
}

// Whether it is one of the outcomes that the operation may have.
fn has_outcome(op: Op, outcome: Outcome) -> bool
    ensures { IsTrue result ↔ HasOutcome op outcome }
{
    match op {
        Op::Put => matches!(
            outcome,
            Outcome::Stored | Outcome::FullSpare | Outcome::FullBlock | Outcome::Worn
        ),
        Op::Add => matches!(
            outcome,
            Outcome::Stored
                | Outcome::Exists
                | Outcome::FullSpare
                | Outcome::FullBlock
                | Outcome::Worn
        ),
        Op::Touch => matches!(outcome, Outcome::Touched | Outcome::Absent | Outcome::Worn),
        Op::Del => matches!(outcome, Outcome::Deleted | Outcome::Absent | Outcome::Worn),
    }
}

/// A list of lines.
#[derive(Drop)]
pub struct Report {
    lines: Vec<Line>,
}

impl Model for Report {
    ghost use Rattle.std.specs.Prelude.{List, length, ◌<◌, ◌^◌};
    ghost use Rattle.mica_trace.specs.declared.report.Line.{Line};

    ghost Value = { List Line };

    ghost view = { λ r. r.lines.items };

    ghost invariant = { λ r. length r.lines.items < 2 ^ 32 };
}

impl Report {
    /// The report of these lines.
    pub fn of(lines: Vec<Line>) -> Self
        requires { length lines.items < 4294967296 }
        ensures { result ≡ lines.items }
    {
        Report { lines }
    }

    /// No lines, with room for this many.
    pub fn with_capacity(alloc: Global, lines: u32) -> Result<Self, NoMemory>
        ensures { IfOk result (λ report. report ≡ []) }
    {
        Ok(Report {
            lines: Vec::with_capacity(alloc, lines as usize)?,
        })
    }

    /// Adds a line at the end.
    pub fn push(&mut self, line: Line) -> Result<(), NoMemory>
        requires { length self.old < 4294967295 }
        ensures ok { OnOk result (self.new ≡ self.old ++ line ∷ []) }
        ensures err { OnErr result (self.new ≡ self.old) }
    {
        self.lines.push(line)?;
        Ok(())
    }

    /// How many lines there are.
    pub fn len(&self) -> u32
        ensures { result ≡ length self.now }
    {
        self.lines.len() as u32
    }

    /// All lines, in order.
    pub fn lines(&self) -> &[Line]
        ensures { result.now ≡ self.now }
    {
        self.lines.as_slice()
    }

    /// The line of this number, from 0.
    pub fn line(&self, number: u32) -> Option<&Line>
        ensures { option_copied result ≡ slice_get self.now number }
    {
        self.lines.get(number as usize)
    }
}

fn op_text(op: Op) -> &'static str
    ensures { result.now ≡ op_word op }
{
    match op {
        Op::Put => "put",
        Op::Add => "add",
        Op::Touch => "touch",
        Op::Del => "del",
    }
}

fn outcome_text(outcome: Outcome) -> &'static str
    ensures { result.now ≡ outcome_words outcome }
{
    match outcome {
        Outcome::Stored => "stored",
        Outcome::Deleted => "deleted",
        Outcome::Absent => "absent",
        Outcome::Touched => "touched",
        Outcome::FullSpare => "full spare",
        Outcome::FullBlock => "full block",
        Outcome::Worn => "worn",
        Outcome::Exists => "exists",
    }
}

/// Appends the line's text and a line feed. Where memory runs out, nothing is appended.
pub fn put_report_line(line: &Line, out: &mut Vec<u8>) -> Result<(), NoMemory>
    requires { IsReportLine line.now }
    ensures ok { OnOk result (out.new.items ≡ out.old.items ++ report_line_text line.now ++ 10 ∷ []) }
    ensures err { OnErr result (out.new.items ≡ out.old.items) }
{
    let mut digits = Buffer::new();
    match line {
        Line::Wrote { op, outcome, stamp } => {
            let stamp = digits.format(*stamp).as_bytes();
            let (op, outcome) = (op_text(*op).as_bytes(), outcome_text(*outcome).as_bytes());
            append_line(out, &[op, b" ".as_slice(), stamp, b" ".as_slice(), outcome])
        }
        Line::Hit { stamp, value } => {
            let stamp = digits.format(*stamp).as_bytes();
            append_line(
                out,
                &[
                    b"get ".as_slice(),
                    stamp,
                    b" hit ".as_slice(),
                    value.bytes(),
                ],
            )
        }
        Line::Miss { stamp } => {
            let stamp = digits.format(*stamp).as_bytes();
            append_line(out, &[b"get ".as_slice(), stamp, b" miss".as_slice()])
        }
        Line::Sync => append_line(out, &[b"sync".as_slice()]),
    }
}
