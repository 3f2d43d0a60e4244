//! The command `ask`.
ghost use Rattle.std.specs.Prelude.{◌≡◌, false, List};
ghost use Rattle.std.specs.List.{AllByRecursion};
ghost use Rattle.served.specs.NetRun.{NetFacts};
ghost use Rattle.partition_table.specs.declared.tables.KeptSeat.{KeptSeat};
ghost use Rattle.mica_trace.specs.ReportGrammar.{report_text, IsReportLine};
ghost use Rattle.server_words.specs.AskOptions.{IsValidAsk};
ghost use Rattle.mica_cmd.specs.Outside.{outside, source_facts, link_facts};
ghost use Rattle.server_words.specs.Output.{sink_facts};
ghost use Rattle.mica_cmd.specs.Promise.{KeepsPromise, IsTold};
ghost use Rattle.mica_cmd.specs.Promises.{ask_promise, fault_status, IsToldFault};

use crate::Status;
use crate::input::read_input;
use crate::output::write_due;
use mica_client::{AskFault, AskOptions, Link, ask};
use mica_trace::{Report, texts_of, write_texts};
use outside::{NoMemory, Sink, Source};
use std::alloc::Global;
use std::sync::Wait;
use std::thread::Threads;

/// Asks a server for the trace that the source gives, and prints the report of its replies.
pub fn ask_command<W: Threads + Wait + Sync, S: Source, K: Sink, L: Link>(
    rt: &W,
    alloc: Global,
    options: &AskOptions,
    source: &mut S,
    sink: &mut K,
    link: &mut L,
) -> Status
    requires open { S.has_ended source.old ≡ false }
    requires valid { IsValidAsk options.now }
    ensures { (net : NetFacts) → (kept : List KeptSeat) → KeepsPromise (ask_promise options.now)
        (outside (source_facts S.Source source.old) (sink_facts K.Sink sink.old) net kept (link_facts L.Link link.old))
        (outside (source_facts S.Source source.new) (sink_facts K.Sink sink.new) net kept (link_facts L.Link link.new)) result }
{
    let mut text = Vec::new(alloc);
    let trace = match read_input(alloc, source, sink, &mut text) {
        Ok(trace) => trace,
        Err(status) => return status,
    };
    match ask(alloc, options, &trace, link) {
        Ok(report) => print_report(rt, alloc, &report, sink),
        Err(fault) => tell_fault(alloc, fault, sink),
    }
}

fn print_report<W: Threads + Wait + Sync, K: Sink>(
    rt: &W,
    alloc: Global,
    report: &Report,
    sink: &mut K,
) -> Status
    requires lines { AllByRecursion IsReportLine report.now }
    ensures { IsTold Status.Done (report_text report.now) (sink_facts K.Sink sink.old) (sink_facts K.Sink sink.new) result }
{
    let texts = match texts_of(rt, alloc, report, 1) {
        Ok(texts) => texts,
        Err(NoMemory) => return Status::NoMemory,
    };
    match write_texts(sink, texts.as_slice()) {
        Ok(()) => Status::Done,
        Err(_) => Status::WriteFault,
    }
}

fn status_of(fault: AskFault) -> Status
    ensures { result ≡ fault_status fault }
{
    match fault {
        AskFault::Link => Status::LinkFault,
        AskFault::NoMemory => Status::NoMemory,
        AskFault::Unread
        | AskFault::Stranger(_)
        | AskFault::Double(_)
        | AskFault::Wrong(_)
        | AskFault::Lost => Status::ReplyRefused,
    }
}

// Writes the line that names why there is no report; where memory ran out, there is none.
fn tell_fault<K: Sink>(alloc: Global, fault: AskFault, sink: &mut K) -> Status
    ensures { IsToldFault fault (sink_facts K.Sink sink.old) (sink_facts K.Sink sink.new) result }
{
    if fault == AskFault::NoMemory {
        return Status::NoMemory;
    }
    match format!(in alloc; "{fault}\n") {
        Ok(line) => write_due(sink, line.as_bytes(), status_of(fault)),
        Err(_) => Status::NoMemory,
    }
}
