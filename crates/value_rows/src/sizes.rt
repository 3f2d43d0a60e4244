//! Sizes of partitions for so much memory, and the bytes that they take; traces and reports.

ghost use Rattle.std.specs.Prelude.{◌≡◌, ◌<◌, length};
ghost use Rattle.std.specs.List.{AllByRecursion};
ghost use Rattle.mica_trace.specs.ReportGrammar.{IsPrintable};

use crate::text::{first_word, mode_of, number, options_of, say};
use mica_trace::{Report, ReportFault, put_report_line, put_trace, read_report, read_trace};
use mica_words::Hashing;
use outside::NoMemory;
use partition_model::{Mode, Options};
use partition_sizes::{LEAST_MEMORY, MOST_MEMORY, bytes_of, sizes_for, start_bytes};
use std::alloc::Global;

/// The sizes for so much memory in a mode, and the bytes that partitions of these sizes take.
fn sized(alloc: Global, mode: Mode, memory: u64) -> Result<String, NoMemory> {
    if !(LEAST_MEMORY..=MOST_MEMORY).contains(&memory) {
        return Ok(String::from_str(alloc, "no memory for it\n")?);
    }
    let sizes = sizes_for(mode, memory);
    let (partitions, buckets, spares, words) = (
        sizes.partitions,
        sizes.buckets,
        sizes.spares,
        sizes.words,
    );
    let options = Options {
        mode,
        partitions,
        buckets,
        spares,
        words,
        readers: 1,
        tries: 1,
        wear: 1,
        hashing: Hashing::Fnv1a,
    };
    let bytes = if partitions <= 64 {
        bytes_of(&options)
    } else {
        0
    };
    Ok(format!(in alloc; "{partitions} {buckets} {spares} {words} {bytes}\n")?)
}

/// Partitions, buckets, spare buckets and words for so much memory in a mode, and the bytes that these take.
pub fn sizes(alloc: Global, lines: &str, into: &mut Vec<u8>) -> Result<(), NoMemory> {
    for line in lines.lines() {
        let (mode, memory) = first_word(line);
        match (mode_of(mode), number(memory)) {
            (Some(mode), Some(memory)) => say(into, sized(alloc, mode, memory)?.as_str())?,
            _ => say(into, "no size\n")?,
        }
    }
    Ok(())
}

/// The bytes of a partition with these options, and those of its start.
pub fn start(alloc: Global, words: &str, into: &mut Vec<u8>) -> Result<(), NoMemory> {
    let Some(options) = options_of(words) else {
        return say(into, "no options\n");
    };
    if options.partitions > 64 {
        return Ok(());
    }
    let (bytes, start) = (bytes_of(&options), start_bytes(&options));
    say(into, format!(in alloc; "{bytes} {start}\n")?.as_str())
}

/// A trace that is read and put again.
pub fn trace(alloc: Global, text: &[u8], into: &mut Vec<u8>) -> Result<(), NoMemory> {
    let Ok(trace) = read_trace(alloc, text) else {
        return say(into, "no trace\n");
    };
    let mut again = Vec::new(alloc);
    put_trace(&trace, &mut again)?;
    into.extend_from_slice(again.as_slice())?;
    Ok(())
}

fn print(alloc: Global, report: &Report, into: &mut Vec<u8>) -> Result<(), NoMemory>
    requires { AllByRecursion IsPrintable report.now }
{
    let lines = report.len();
    say(into, format!(in alloc; "{lines} lines\n")?.as_str())?;
    for line in report.lines() {
        put_report_line(line, into)?;
    }
    Ok(())
}

/// How many lines a report has, and its lines, read and printed again; or the first line that is none.
pub fn report(alloc: Global, text: &[u8], into: &mut Vec<u8>) -> Result<(), NoMemory> {
    if text.len() >= 4_294_967_296 {
        return Ok(());
    }
    match read_report(alloc, text) {
        Ok(report) => print(alloc, &report, into),
        Err(ReportFault::BadLine(line)) => {
            say(into, format!(in alloc; "bad line {line}\n")?.as_str())
        }
        Err(ReportFault::NoMemory) => Err(NoMemory),
    }
}
