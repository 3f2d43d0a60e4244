//! Reads reports.
ghost use Rattle.std.specs.Prelude.{◌≡◌, ◌≢◌, ◌<◌, ◌∷◌, ◌++◌, ℕ, List, length, codes, IfOk, IfErr, IsErrOf, MatchOption};
ghost use Rattle.std.specs.Fmt.{decimal};
ghost use Rattle.partition_model.specs.declared.write.Outcome.{Outcome};
ghost use Rattle.mica_trace.specs.ReportGrammar.{HasOutcome, outcome_words, op_word, IsStamp, SpellsLine, SpellsNoLine, IsReport, RefusesReport};

use crate::read::is_value;
use crate::split::{after_word, split_at_byte};
use crate::{Line, Report};
use itoa::Buffer;
use outside::{Bytes, NoMemory};
use partition_model::{Op, Outcome};
use std::alloc::Global;
use std::error::Error;
use std::{fmt, str};

/// Why bytes are no report. Lines count from 1.
#[derive(Clone, Copy, Debug, PartialEq, Eq)]
pub enum ReportFault {
    BadLine(u32),
    NoMemory,
}

impl fmt::Display for ReportFault {
    fn fmt<W: fmt::Write>(&self, f: &mut fmt::Formatter<W>) -> fmt::Result {
        match self {
            ReportFault::BadLine(number) => write!(f, "bad report line {number}"),
            ReportFault::NoMemory => fmt::Display::fmt(&NoMemory, f),
        }
    }
}

impl Error for ReportFault {}

impl From<NoMemory> for ReportFault {
    ghost use Rattle.mica_trace.specs.declared.report_reader.ReportFault.TheVariants.{NoMemory};

    ghost from_gives = { λ _ e. e ≡ NoMemory };

    fn from(_: NoMemory) -> Self {
        ReportFault::NoMemory
    }
}

// Why a text is not read as a line.
enum LineFault {
    Bad,
    NoMemory,
}

impl From<NoMemory> for LineFault {
    ghost use Rattle.mica_trace.specs.declared.report_reader.LineFault.TheVariants.{NoMemory};

    ghost from_gives = { λ _ e. e ≡ NoMemory };

    fn from(_: NoMemory) -> Self {
        LineFault::NoMemory
    }
}

// The number whose digits these are. A sign or a leading zero is not as a number is printed.
fn stamp_of(digits: &[u8]) -> Option<u64>
    ensures { MatchOption result ((n : ℕ) → IsStamp n → digits.now ≢ decimal n)
        (λ n. IsStamp n × (digits.now ≡ decimal n)) }
{
    let number: u64 = str::from_utf8(digits).ok()?.parse().ok()?;
    if Buffer::new().format(number).as_bytes() == digits {
        Some(number)
    } else {
        None
    }
}

// The stamp at the front, and what stands behind it and a space.
fn split_stamp(text: &[u8]) -> Option<(u64, &[u8])>
    ensures { MatchOption result ((n : ℕ) (reply : List ℕ) → IsStamp n → text.now ≢ decimal n ++ 32 ∷ reply)
        (λ found. IsStamp found.0 × (text.now ≡ decimal found.0 ++ 32 ∷ found.1.now)) }
{
    let (digits, reply) = split_at_byte(text, b' ')?;
    Some((stamp_of(digits)?, reply))
}

fn put_outcome(words: &[u8]) -> Option<Outcome>
    ensures { MatchOption result ((o : Outcome) → HasOutcome Op.Put o → words.now ≢ outcome_words o)
        (λ o. HasOutcome Op.Put o × (words.now ≡ outcome_words o)) }
{
    if words == b"stored".as_slice() {
        Some(Outcome::Stored)
    } else if words == b"full spare".as_slice() {
        Some(Outcome::FullSpare)
    } else if words == b"full block".as_slice() {
        Some(Outcome::FullBlock)
    } else if words == b"worn".as_slice() {
        Some(Outcome::Worn)
    } else {
        None
    }
}

// An add has the outcomes of a put, and one more.
fn add_outcome(words: &[u8]) -> Option<Outcome>
    ensures { MatchOption result ((o : Outcome) → HasOutcome Op.Add o → words.now ≢ outcome_words o)
        (λ o. HasOutcome Op.Add o × (words.now ≡ outcome_words o)) }
{
    if words == b"exists".as_slice() {
        Some(Outcome::Exists)
    } else {
        put_outcome(words)
    }
}

fn touch_outcome(words: &[u8]) -> Option<Outcome>
    ensures { MatchOption result ((o : Outcome) → HasOutcome Op.Touch o → words.now ≢ outcome_words o)
        (λ o. HasOutcome Op.Touch o × (words.now ≡ outcome_words o)) }
{
    if words == b"touched".as_slice() {
        Some(Outcome::Touched)
    } else if words == b"absent".as_slice() {
        Some(Outcome::Absent)
    } else if words == b"worn".as_slice() {
        Some(Outcome::Worn)
    } else {
        None
    }
}

fn del_outcome(words: &[u8]) -> Option<Outcome>
    ensures { MatchOption result ((o : Outcome) → HasOutcome Op.Del o → words.now ≢ outcome_words o)
        (λ o. HasOutcome Op.Del o × (words.now ≡ outcome_words o)) }
{
    if words == b"deleted".as_slice() {
        Some(Outcome::Deleted)
    } else if words == b"absent".as_slice() {
        Some(Outcome::Absent)
    } else if words == b"worn".as_slice() {
        Some(Outcome::Worn)
    } else {
        None
    }
}

// The outcome of the operation whose words these are.
fn outcome_of(op: Op, words: &[u8]) -> Option<Outcome>
    ensures { MatchOption result ((o : Outcome) → HasOutcome op o → words.now ≢ outcome_words o)
        (λ o. HasOutcome op o × (words.now ≡ outcome_words o)) }
{
    match op {
        Op::Put => put_outcome(words),
        Op::Add => add_outcome(words),
        Op::Touch => touch_outcome(words),
        Op::Del => del_outcome(words),
    }
}

// The line of a write, whose stamp and outcome these are.
fn read_wrote(op: Op, text: &[u8]) -> Result<Line, LineFault>
    ensures found { IfOk result (SpellsLine (op_word op ++ 32 ∷ text.now)) }
    ensures bad { IsErrOf result LineFault.Bad → SpellsNoLine (op_word op ++ 32 ∷ text.now) }
{
    let Some((stamp, words)) = split_stamp(text) else {
        return Err(LineFault::Bad);
    };
    match outcome_of(op, words) {
        Some(outcome) => Ok(Line::Wrote { op, outcome, stamp }),
        None => Err(LineFault::Bad),
    }
}

// The line of a get, whose stamp and answer these are.
fn read_got(alloc: Global, text: &[u8]) -> Result<Line, LineFault>
    ensures found { IfOk result (SpellsLine (codes "get " ++ text.now)) }
    ensures bad { IsErrOf result LineFault.Bad → SpellsNoLine (codes "get " ++ text.now) }
{
    let Some((stamp, answer)) = split_stamp(text) else {
        return Err(LineFault::Bad);
    };
    if answer == b"miss".as_slice() {
        return Ok(Line::Miss { stamp });
    }
    match after_word(answer, b"hit ") {
        Some(value) if is_value(value) => Ok(Line::Hit {
            stamp,
            value: Bytes::copy(alloc, value)?,
        }),
        _ => Err(LineFault::Bad),
    }
}

fn read_report_line(alloc: Global, text: &[u8]) -> Result<Line, LineFault>
    ensures found { IfOk result (SpellsLine text.now) }
    ensures bad { IsErrOf result LineFault.Bad → SpellsNoLine text.now }
{
    if text == b"sync".as_slice() {
        return Ok(Line::Sync);
    }
    if let Some(rest) = after_word(text, b"get ") {
        return read_got(alloc, rest);
    }
    if let Some(rest) = after_word(text, b"put ") {
        return read_wrote(Op::Put, rest);
    }
    if let Some(rest) = after_word(text, b"add ") {
        return read_wrote(Op::Add, rest);
    }
    if let Some(rest) = after_word(text, b"touch ") {
        return read_wrote(Op::Touch, rest);
    }
    match after_word(text, b"del ") {
        Some(rest) => read_wrote(Op::Del, rest),
        None => Err(LineFault::Bad),
    }
}

/// Reads a report, without regard to a trace. It looks at the lines in order, and refuses at the first that is no report
/// line, as the last one is where it lacks its line feed.
pub fn read_report(alloc: Global, from: &[u8]) -> Result<Report, ReportFault>
    requires { length from.now < 4294967296 }
    ensures report { IfOk result (IsReport from.now) }
    ensures refused { IfErr result (RefusesReport from.now) }
{
    let mut report = Report::with_capacity(alloc, 0)?;
    let mut rest = from;
    while !rest.is_empty() {
        let number = report.len() + 1;
        let Some((text, after)) = split_at_byte(rest, b'\n') else {
            return Err(ReportFault::BadLine(number));
        };
        let line = match read_report_line(alloc, text) {
            Ok(line) => line,
            Err(LineFault::Bad) => return Err(ReportFault::BadLine(number)),
            Err(LineFault::NoMemory) => return Err(ReportFault::NoMemory),
        };
        report.push(line)?;
        rest = after;
    }
    Ok(report)
}
