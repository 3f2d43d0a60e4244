//! The reading of the source, which every command that uses it begins with.
ghost use Rattle.std.specs.Prelude.{◌≡◌, IfOk, IfErr, OnOk, false};
ghost use Rattle.mica_cmd.specs.Outside.{source_facts};
ghost use Rattle.server_words.specs.Output.{sink_facts};
ghost use Rattle.mica_cmd.specs.Headline.{ReadsWhole};
ghost use Rattle.mica_cmd.specs.Promise.{WritesDue};
ghost use Rattle.mica_cmd.specs.Input.{NoneByBytes, NoneByTrace, IsRefusedWith, IsDueOfInput, IsDueOfTrace, ReadsInput, GivesTrace};

use crate::Status;
use crate::output::write_due;
use mica_commands::MAX_SOURCE_LEN;
use mica_trace::{Trace, TraceFault, read_trace};
use outside::{ReadFault, Sink, Source, read_up_to};
use std::alloc::Global;

/// The bytes of the source, read to its end. Where they can't be had, what is due is written, and the answer is its status.
pub fn read_source<S: Source, K: Sink>(
    alloc: Global,
    source: &mut S,
    sink: &mut K,
) -> Result<Vec<u8>, Status>
    requires open { S.has_ended source.old ≡ false }
    ensures all { IfOk result (λ bytes. ReadsWhole (source_facts S.Source source.old) (source_facts S.Source source.new) bytes.items) }
    ensures unwritten { OnOk result (sink.new ≡ sink.old) }
    ensures stopped { IfErr result (λ status. WritesDue (IsDueOfInput NoneByBytes (source_facts S.Source source.old) (source_facts S.Source source.new))
        (sink_facts K.Sink sink.old) (sink_facts K.Sink sink.new) status) }
    ensures reads { ReadsInput (source_facts S.Source source.old) (source_facts S.Source source.new) }
{
    match read_up_to(alloc, source, MAX_SOURCE_LEN) {
        Ok(bytes) => Ok(bytes),
        Err(ReadFault::Failed) => Err(write_due(sink, b"read fault\n", Status::ReadFault)),
        Err(ReadFault::Long) => Err(write_due(sink, b"trace too long\n", Status::TraceLong)),
        Err(ReadFault::NoMemory) => Err(Status::NoMemory),
    }
}

// Writes the line that names why a trace is refused.
fn refuse<K: Sink>(alloc: Global, sink: &mut K, fault: TraceFault) -> Status
    ensures { IsRefusedWith fault (sink_facts K.Sink sink.old) (sink_facts K.Sink sink.new) result }
{
    if fault == TraceFault::NoMemory {
        return Status::NoMemory;
    }
    match format!(in alloc; "{fault}\n") {
        Ok(line) => write_due(sink, line.as_bytes(), Status::TraceRefused),
        Err(_) => Status::NoMemory,
    }
}

/// The trace that the source gives, which lies in `text`. Where it can't be had, what is due is written, and the answer is
/// its status.
pub fn read_input<'a, S: Source, K: Sink>(
    alloc: Global,
    source: &mut S,
    sink: &mut K,
    text: &'a mut Vec<u8>,
) -> Result<Trace<'a>, Status>
    requires open { S.has_ended source.old ≡ false }
    ensures trace { IfOk result (λ trace. GivesTrace (source_facts S.Source source.old) (source_facts S.Source source.new) trace) }
    ensures unwritten { OnOk result (sink.new ≡ sink.old) }
    ensures stopped { IfErr result (λ status. WritesDue (IsDueOfInput (IsDueOfTrace NoneByTrace) (source_facts S.Source source.old) (source_facts S.Source source.new))
        (sink_facts K.Sink sink.old) (sink_facts K.Sink sink.new) status) }
    ensures reads { ReadsInput (source_facts S.Source source.old) (source_facts S.Source source.new) }
{
    *text = match read_source(alloc, source, sink) {
        Ok(bytes) => bytes,
        Err(status) => return Err(status),
    };
    match read_trace(alloc, text.as_slice()) {
        Ok(trace) => Ok(trace),
        Err(fault) => Err(refuse(alloc, sink, fault)),
    }
}
