//! A report's text, made in parts side by side, and written.
ghost use Rattle.std.specs.Prelude.{◌≡◌, ◌≤◌, ◌<◌, ◌*◌, ℕ, length, take, IfSome, IfOk, OnOk, OnErr};
ghost use Rattle.std.specs.List.{AllByRecursion};
ghost use Rattle.std.specs.Io.KnownBytes.{Appends};
ghost use Rattle.outside.specs.Faults.{Rose};
ghost use Rattle.mica_trace.specs.ReportGrammar.{report_text, IsReportLine};
ghost use Rattle.mica_trace.specs.TextParts.{part_of, joined, AreTexts};

use crate::{Line, Report, put_report_line};
use outside::{Bytes, Failed, NoMemory, Sink, write_all};
use std::alloc::Global;
use std::sync::Wait;
use std::thread::{Threads, for_each_mut};

// The most bytes of a line without a value, with its line feed.
const SHORT_LINE: usize = "put 18446744073709551615 full block\n".len();

// The least lines of a part but the last: the text of fewer is not worth a thread of its own.
const PART_LINES: usize = 4_096;

// Room for the text of the lines, so that it never grows.
fn room_for(lines: &[Line]) -> usize {
    let mut room = 0usize;
    for line in lines {
        let value_len = match line {
            Line::Hit { value, .. } => value.bytes().len(),
            Line::Wrote { .. } | Line::Miss { .. } | Line::Sync => 0,
        };
        room = room.saturating_add(value_len).saturating_add(SHORT_LINE);
    }
    room
}

// The text of the lines.
fn text_of(alloc: Global, lines: &[Line]) -> Result<Vec<u8>, NoMemory>
    requires { AllByRecursion IsReportLine lines.now }
    ensures { IfOk result (λ text. text.items ≡ report_text lines.now) }
{
    let mut text = Vec::with_capacity(alloc, room_for(lines))?;
    for line in lines {
        put_report_line(line, &mut text)?;
    }
    Ok(text)
}

// The text of the part of this number, where each has so many lines and the last one those that are left. None where
// memory runs out.
fn text_of_part(alloc: Global, report: &Report, part: usize, size: usize) -> Option<Bytes>
    requires lines { AllByRecursion IsReportLine report.now }
    requires within { part * size ≤ length report.now }
    ensures { IfSome result (λ text. text ≡ report_text (part_of size report.now part)) }
{
    let rest = &report.lines()[part * size..];
    match text_of(alloc, &rest[..size.min(rest.len())]) {
        Ok(text) => Some(text.into()),
        Err(_) => None,
    }
}

// The texts of the report's parts, side by side in threads: None in the place of one for which there was no memory.
fn make_texts<W: Threads + Wait + Sync>(
    rt: &W,
    alloc: Global,
    report: &Report,
    size: usize,
    threads: usize,
) -> Result<Vec<Option<Bytes>>, NoMemory>
    requires some { (0 < size) × (0 < threads) }
    requires lines { AllByRecursion IsReportLine report.now }
    ensures many { IfOk result (λ texts. length report.now ≤ length texts.items * size) }
    ensures made { IfOk result (λ texts. AreTexts size report.now texts.items) }
{
    let parts = report.lines().len().div_ceil(size);
    let mut texts = Vec::with_capacity(alloc, parts)?;
    for _ in 0..parts {
        texts.push_reserved(None);
    }
    for_each_mut(
        rt,
        texts.as_mut_slice(),
        threads,
        &|part, text|
            requires { AllByRecursion IsReportLine report.now × (part * size ≤ length report.now) }
            ensures { IfSome text.exit.now (λ t. t ≡ report_text (part_of size report.entry.now part)) }
        {
            *text = text_of_part(alloc, report, part, size);
        },
    );
    Ok(texts)
}

/// The report's text in parts, each of many lines, made side by side in as many threads.
pub fn texts_of<W: Threads + Wait + Sync>(
    rt: &W,
    alloc: Global,
    report: &Report,
    threads: usize,
) -> Result<Vec<Bytes>, NoMemory>
    requires some { 0 < threads }
    requires lines { AllByRecursion IsReportLine report.now }
    ensures { IfOk result (λ texts. joined texts.items ≡ report_text report.now) }
{
    let size = report.lines().len().div_ceil(threads).max(PART_LINES);
    let mut texts = Vec::new(alloc);
    for made in make_texts(rt, alloc, report, size, threads)? {
        match made {
            Some(text) => texts.push(text)?,
            None => return Err(NoMemory),
        }
    }
    Ok(texts)
}

/// Writes the texts, one after another.
pub fn write_texts<K: Sink>(sink: &mut K, texts: &[Bytes]) -> Result<(), Failed>
    ensures ok { OnOk result (Appends (K.taken sink.old) (K.taken sink.new) (joined texts.now)) }
    ensures prefix { OnErr result ((n : ℕ) × (n < length (joined texts.now))
        × Appends (K.taken sink.old) (K.taken sink.new) (take n (joined texts.now))) }
    ensures cause { OnErr result (Rose (K.faults sink.old) (K.faults sink.new)) }
    ensures never_fall { K.faults sink.old ≤ K.faults sink.new }
{
    for text in texts {
        write_all(sink, text.bytes())?;
    }
    Ok(())
}
