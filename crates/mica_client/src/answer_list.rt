//! The answers so far: the lines of the report that is to come, each at its place, and which of them are known.
ghost use Rattle.std.specs.Prelude.{◌≡◌, ◌<◌, ◌≤◌, length, map, slice_get, slice_set, All, Some, IfOk};
ghost use Rattle.mica_client.specs.Answers.{unanswered, is_answered, AnswerIsKnown};

use mica_trace::{Line, Report, TraceLine};
use outside::NoMemory;
use std::alloc::Global;
use std::marker::Model;

/// An answer for each line of a trace. One that is not known has a sync in its place, so the lines are the report in the end.
#[derive(Drop)]
pub struct AnswerList {
    lines: Vec<Line>,
    known: Vec<bool>,
}

impl Model for AnswerList {
    ghost use Rattle.std.specs.Prelude.{◌≡◌, length};
    ghost use Rattle.mica_client.specs.Answers.{KnownLines, answers_of};

    ghost Value = { KnownLines };

    ghost view = { λ a. answers_of a.known.items a.lines.items };

    ghost invariant = { λ a. length a.known.items ≡ length a.lines.items };
}

// The test at a place, if there is one.
fn test_at(tests: &[bool], place: usize) -> Option<bool>
    ensures { result ≡ slice_get tests.now place }
{
    tests.get(place).copied()
}

impl AnswerList {
    /// The answers before any reply: a sync needs none.
    pub fn unanswered(alloc: Global, trace: &[TraceLine]) -> Result<AnswerList, NoMemory>
        ensures { IfOk result (λ answers. answers ≡ unanswered trace.now) }
    {
        let mut lines = Vec::with_capacity(alloc, trace.len())?;
        let mut known = Vec::with_capacity(alloc, trace.len())?;
        for line in trace {
            lines.push(Line::Sync)?;
            known.push(line.is_sync())?;
        }
        Ok(AnswerList { lines, known })
    }

    /// Whether a ticket has its answer.
    #[tactic(auto, using(crate::proofs::Known::known_at))]
    pub fn is_answered(&self, ticket: u32) -> bool
        ensures { result ≡ is_answered self.now ticket }
    {
        test_at(self.known.as_slice(), ticket.saturating_sub(1) as usize).unwrap_or(false)
    }

    /// Puts an answer at its place, from 0.
    #[tactic(auto, using(crate::proofs::Known::length_answers, crate::proofs::Known::set_answer))]
    pub fn set(&mut self, place: usize, line: Line)
        requires { place < length self.old }
        ensures { self.new ≡ slice_set self.old place (Some line) }
    {
        self.lines[place] = line;
        self.known[place] = true;
    }

    /// The report, where each answer is known.
    #[tactic(auto, using(crate::proofs::Known::length_answers, crate::proofs::Known::all_lines_known))]
    pub fn into_report(self) -> Report
        requires few { length self ≤ 100000 }
        requires known { All AnswerIsKnown self }
        ensures { self ≡ map (λ line. Some line) result }
    {
        Report::of(self.lines)
    }
}
