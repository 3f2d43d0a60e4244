//! Prints traces.
ghost use Rattle.std.specs.Prelude.{◌≡◌, ◌≤◌, ◌∷◌, ◌++◌, [], length, OnOk, OnErr};
ghost use Rattle.std.specs.List.{AllByRecursion};
ghost use Rattle.mica_trace.specs.TraceGrammar.{IsTraceLine, IsWithinLimits, line_text, trace_text};

use crate::append::append_line;
use crate::{Trace, TraceLine, TraceOp};
use outside::NoMemory;

fn put_line(line: &TraceLine, out: &mut Vec<u8>) -> Result<(), NoMemory>
    requires { IsTraceLine line.now }
    ensures ok { OnOk result (out.new.items ≡ out.old.items ++ line_text line.now ++ 10 ∷ []) }
    ensures err { OnErr result (out.new.items ≡ out.old.items) }
{
    let (key, value) = (line.key.bytes(), line.value.bytes());
    match line.op {
        TraceOp::Put => append_line(out, &[b"put ".as_slice(), key, b" ".as_slice(), value]),
        TraceOp::Add => append_line(out, &[b"add ".as_slice(), key, b" ".as_slice(), value]),
        TraceOp::Del => append_line(out, &[b"del ".as_slice(), key]),
        TraceOp::Touch => append_line(out, &[b"touch ".as_slice(), key]),
        TraceOp::Get => append_line(out, &[b"get ".as_slice(), key]),
        TraceOp::Sync => append_line(out, &[b"sync".as_slice()]),
    }
}

// How many bytes the text of a trace with these lines has.
fn text_len(lines: &[TraceLine]) -> usize
    requires lines { AllByRecursion IsTraceLine lines.now }
    requires within { IsWithinLimits lines.now }
    ensures { result ≡ length (trace_text lines.now) }
{
    let mut len = 0;
    for line in lines {
        let (key, value) = (line.key.bytes().len(), line.value.bytes().len());
        len += match line.op {
            TraceOp::Put | TraceOp::Add => 6 + key + value,
            TraceOp::Del | TraceOp::Get => 5 + key,
            TraceOp::Touch => 7 + key,
            TraceOp::Sync => 5,
        };
    }
    len
}

/// Appends the trace's text, in which each line ends with a line feed. Where memory runs out, nothing is appended.
pub fn put_trace(trace: &Trace, out: &mut Vec<u8>) -> Result<(), NoMemory>
    ensures ok { OnOk result (out.new.items ≡ out.old.items ++ trace_text trace.now) }
    ensures err { OnErr result (out.new.items ≡ out.old.items) }
{
    let lines = trace.lines();
    let start = out.len();
    out.reserve(text_len(lines))?;
    for line in lines {
        if put_line(line, out).is_err() {
            out.truncate(start);
            return Err(NoMemory);
        }
    }
    Ok(())
}
