//! Prints the summary of a trace and its report.
ghost use Rattle.std.specs.Prelude.{◌≡◌, ◌++◌, ◌≤◌, length, IfOk, OnOk, OnErr};
ghost use Rattle.partition_model.specs.Options.{IsValid};
ghost use Rattle.mica_trace.specs.LawfulReport.{LawfulReport};
ghost use Rattle.mica_commands.specs.Summary.{is_op, is_outcome, has_outcome, ops_in, outcomes_in, stamps_by, last_stamps, number_line, counts_text, stamps_text, summary_text};

use itoa::Buffer;
use mica_trace::{Line, Report, Trace, TraceLine, TraceOp};
use mica_words::partition_of;
use outside::NoMemory;
use partition_model::{Options, Outcome};
use std::alloc::Global;

fn is_op(op: TraceOp, other: TraceOp) -> bool
    ensures { result ≡ is_op op other }
{
    op == other
}

fn is_outcome(outcome: Outcome, other: Outcome) -> bool
    ensures { result ≡ is_outcome outcome other }
{
    outcome == other
}

fn has_outcome(outcome: Outcome, line: &Line) -> bool
    ensures { result ≡ has_outcome outcome line.now }
{
    match line {
        Line::Wrote {
            outcome: printed,
            ..
        } => is_outcome(outcome, *printed),
        _ => false,
    }
}

// How many lines of the trace have the operation.
fn ops_in(trace: &[TraceLine], op: TraceOp) -> usize
    ensures { result ≡ ops_in trace.now op }
{
    trace.iter().filter(|line| is_op(op, line.op)).count()
}

// How many lines of the report have the outcome.
fn outcomes_in(report: &[Line], outcome: Outcome) -> usize
    ensures { result ≡ outcomes_in report.now outcome }
{
    report
        .iter()
        .filter(|line| has_outcome(outcome, line))
        .count()
}

// Gives the partition of a write the stamp that is printed for it.
fn note_stamp(options: &Options, line: &TraceLine, printed: &Line, stamps: &mut Vec<u64>)
    requires some { 1 ≤ options.now.partitions }
    requires all { length stamps.old.items ≡ options.now.partitions }
    ensures { stamps.new.items ≡ stamps_by options.now stamps.old.items line.now printed.now }
{
    if let Line::Wrote { stamp, .. } = printed {
        let partition = partition_of(
            options.hashing.key_hash(line.key.bytes()),
            options.partitions,
        );
        stamps[partition as usize] = *stamp;
    }
}

// The stamp of each partition's last write.
fn last_stamps(
    alloc: Global,
    options: &Options,
    trace: &[TraceLine],
    report: &[Line],
) -> Result<Vec<u64>, NoMemory>
    requires some { 1 ≤ options.now.partitions }
    requires same { length trace.now ≡ length report.now }
    ensures { IfOk result (λ stamps. stamps.items ≡ last_stamps options.now trace.now report.now) }
{
    let mut stamps = vec![in alloc; 0; options.partitions as usize]?;
    for (place, line) in trace.iter().enumerate() {
        note_stamp(options, line, &report[place], &mut stamps);
    }
    Ok(stamps)
}

// Appends a line of a name and a number. Where memory runs out, a part may stand there.
fn put_number(text: &mut Vec<u8>, name: &[u8], number: u64) -> Result<(), NoMemory>
    ensures { OnOk result (text.new.items ≡ text.old.items ++ number_line name.now number) }
{
    text.extend_from_slice(name)?;
    text.push(b' ')?;
    text.extend_from_slice(Buffer::new().format(number).as_bytes())?;
    text.push(b'\n')?;
    Ok(())
}

fn put_ops(
    text: &mut Vec<u8>,
    name: &[u8],
    trace: &[TraceLine],
    op: TraceOp,
) -> Result<(), NoMemory>
    ensures { OnOk result (text.new.items ≡ text.old.items ++ number_line name.now (ops_in trace.now op)) }
{
    put_number(text, name, ops_in(trace, op) as u64)
}

fn put_outcomes(
    text: &mut Vec<u8>,
    name: &[u8],
    report: &[Line],
    outcome: Outcome,
) -> Result<(), NoMemory>
    ensures { OnOk result (text.new.items ≡ text.old.items ++ number_line name.now (outcomes_in report.now outcome)) }
{
    put_number(text, name, outcomes_in(report, outcome) as u64)
}

fn counts_text(alloc: Global, trace: &[TraceLine], report: &[Line]) -> Result<Vec<u8>, NoMemory>
    ensures { IfOk result (λ text. text.items ≡ counts_text trace.now report.now) }
{
    let mut text = Vec::new(alloc);
    put_number(&mut text, b"lines", trace.len() as u64)?;
    put_ops(&mut text, b"puts", trace, TraceOp::Put)?;
    put_ops(&mut text, b"dels", trace, TraceOp::Del)?;
    put_ops(&mut text, b"gets", trace, TraceOp::Get)?;
    put_outcomes(&mut text, b"stored", report, Outcome::Stored)?;
    put_outcomes(&mut text, b"deleted", report, Outcome::Deleted)?;
    put_outcomes(&mut text, b"absent", report, Outcome::Absent)?;
    put_outcomes(&mut text, b"full-spare", report, Outcome::FullSpare)?;
    put_outcomes(&mut text, b"full-block", report, Outcome::FullBlock)?;
    put_outcomes(&mut text, b"worn", report, Outcome::Worn)?;
    Ok(text)
}

fn put_stamps(text: &mut Vec<u8>, stamps: &[u64]) -> Result<(), NoMemory>
    ensures { OnOk result (text.new.items ≡ text.old.items ++ stamps_text 0 stamps.now) }
{
    for (partition, stamp) in stamps.iter().enumerate() {
        text.extend_from_slice(b"stamp ")?;
        put_number(text, Buffer::new().format(partition).as_bytes(), *stamp)?;
    }
    Ok(())
}

fn summary_of(
    alloc: Global,
    options: &Options,
    trace: &[TraceLine],
    report: &[Line],
) -> Result<Vec<u8>, NoMemory>
    requires some { 1 ≤ options.now.partitions }
    requires same { length trace.now ≡ length report.now }
    ensures { IfOk result (λ text. text.items ≡ summary_text options.now trace.now report.now) }
{
    let stamps = last_stamps(alloc, options, trace, report)?;
    let mut text = counts_text(alloc, trace, report)?;
    put_stamps(&mut text, stamps.as_slice())?;
    Ok(text)
}

/// Appends the summary of a trace and its report. Where memory runs out, nothing is appended.
pub fn put_summary(
    options: &Options,
    trace: &Trace,
    report: &Report,
    out: &mut Vec<u8>,
) -> Result<(), NoMemory>
    requires valid { IsValid options.now }
    requires lawful { LawfulReport options.now trace.now report.now }
    ensures ok { OnOk result (out.new.items ≡ out.old.items ++ summary_text options.now trace.now report.now) }
    ensures err { OnErr result (out.new.items ≡ out.old.items) }
{
    let alloc = *out.allocator();
    let text = summary_of(alloc, options, trace.lines(), report.lines())?;
    out.extend_from_slice(text.as_slice())?;
    Ok(())
}
