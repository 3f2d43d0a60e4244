//! What the command `check` finds.
ghost use Rattle.std.specs.Prelude.{◌≡◌};
ghost use Rattle.mica_cmd.specs.Findings.{finding_by, status_of};

use crate::Status;
use mica_trace::TraceFault;
use report_check::Verdict;
use std::fmt;

/// What is found of the bytes that a judge of reports reads. Lines count from 1.
#[derive(Clone, Copy)]
pub enum Finding {
    /// The report is lawful for the trace.
    Lawful,
    /// The first line of the report that breaks a rule.
    Unlawful(u32),
    /// There is no line `check`.
    NoReport,
    /// The first line behind it that is no report line.
    BadReport(u32),
    /// What stands before it is no trace.
    NoTrace(TraceFault),
}

impl fmt::Display for Finding {
    ghost use Rattle.std.specs.Prelude.{Some};
    ghost use Rattle.mica_cmd.specs.Findings.{finding_text};

    ghost output = { λ finding. Some (finding_text finding) };

    fn fmt<W: fmt::Write>(&self, f: &mut fmt::Formatter<W>) -> fmt::Result {
        match self {
            Finding::Lawful => f.write_str("lawful"),
            Finding::Unlawful(number) => write!(f, "unlawful line {number}"),
            Finding::NoReport => f.write_str("no report"),
            Finding::BadReport(number) => write!(f, "bad report line {number}"),
            Finding::NoTrace(fault) => fmt::Display::fmt(fault, f),
        }
    }
}

impl Finding {
    /// What a verdict on a report says.
    pub fn of(verdict: Verdict) -> Self
        ensures { result ≡ finding_by verdict }
    {
        match verdict {
            Verdict::Lawful => Finding::Lawful,
            Verdict::Unlawful(number) => Finding::Unlawful(number),
        }
    }

    /// The status that it ends with.
    pub fn status(self) -> Status
        ensures { result ≡ status_of self }
    {
        match self {
            Finding::Lawful => Status::Done,
            Finding::Unlawful(_) => Status::Unlawful,
            Finding::NoReport | Finding::BadReport(_) => Status::ReportRefused,
            Finding::NoTrace(_) => Status::TraceRefused,
        }
    }
}
