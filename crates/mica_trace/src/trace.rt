//! A trace: lines within the limits.
ghost use Rattle.std.specs.Prelude.{◌≡◌, ◌≤◌, List, length, vec_len, slice_get};
ghost use Rattle.std.specs.Option.{option_copied};

use crate::TraceLine;
use std::marker::Model;

/// A list of lines, each of them one that a trace may have.
#[derive(Drop)]
pub struct Trace<'a> {
    lines: Vec<TraceLine<'a>>,
}

impl<'a> Model for Trace<'a> {
    ghost use Rattle.std.specs.Prelude.{List, length, ◌≤◌};
    ghost use Rattle.std.specs.List.{AllByRecursion};
    ghost use Rattle.mica_trace.specs.declared.line.TraceLine.{TraceLine};
    ghost use Rattle.mica_trace.specs.TraceGrammar.{IsTraceLine, IsWithinLimits};

    ghost Value = { List TraceLine };

    ghost view = { λ t. t.lines.items };

    ghost invariant = { λ t. AllByRecursion IsTraceLine t.lines.items × IsWithinLimits t.lines.items };
}

impl<'a> Trace<'a> {
    ghost use Rattle.std.specs.Prelude.{None, Some, IfSome};
    ghost use Rattle.std.specs.List.{AllByRecursion};
    ghost use Rattle.mica_trace.specs.TraceGrammar.{IsTraceLine, IsWithinLimits};

    /// The trace of these lines, which it keeps.
    pub fn of(lines: Vec<TraceLine<'a>>) -> Trace<'a>
        requires lines { AllByRecursion IsTraceLine lines.items }
        requires few { IsWithinLimits lines.items }
        ensures { result ≡ lines.entry.items }
    {
        Trace { lines }
    }

    /// How many lines there are.
    pub fn len(&self) -> u32
        ensures { result ≡ length self.now }
    {
        self.lines.len() as u32
    }

    /// All lines, in order.
    pub fn lines(&self) -> &[TraceLine<'a>]
        ensures same { result.now ≡ self.now }
        ensures lines { AllByRecursion IsTraceLine self.now }
        ensures within { IsWithinLimits self.now }
    {
        self.lines.as_slice()
    }

    /// The line of this number, from 0.
    pub fn line(&self, number: u32) -> Option<&TraceLine<'a>>
        ensures { option_copied result ≡ slice_get self.now number }
    {
        self.lines.get(number as usize)
    }
}
