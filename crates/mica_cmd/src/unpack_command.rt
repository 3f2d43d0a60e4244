//! The command `unpack`.
ghost use Rattle.std.specs.Prelude.{◌≡◌, false, List};
ghost use Rattle.served.specs.NetRun.{NetFacts};
ghost use Rattle.partition_table.specs.declared.tables.KeptSeat.{KeptSeat};
ghost use Rattle.mica_trace.specs.TraceGrammar.{trace_text};
ghost use Rattle.store_image.specs.ImageLines.{put_lines};
ghost use Rattle.mica_cmd.specs.Outside.{outside, source_facts, LinkFacts};
ghost use Rattle.server_words.specs.Output.{sink_facts};
ghost use Rattle.mica_cmd.specs.Promise.{KeepsPromise, IsTold};
ghost use Rattle.mica_cmd.specs.Promises.{unpack_promise, IsRefusedImage};

use crate::Status;
use crate::input::read_source;
use crate::output::write_due;
use outside::{NoMemory, Sink, Source};
use std::alloc::Global;
use store_image::{Image, ImageFault, put_image, read_image};

/// Prints a line for each pair of the image that the source gives.
pub fn unpack_command<S: Source, K: Sink>(alloc: Global, source: &mut S, sink: &mut K) -> Status
    requires { S.has_ended source.old ≡ false }
    ensures { (net : NetFacts) → (kept : List KeptSeat) → (link : LinkFacts) → KeepsPromise unpack_promise
        (outside (source_facts S.Source source.old) (sink_facts K.Sink sink.old) net kept link)
        (outside (source_facts S.Source source.new) (sink_facts K.Sink sink.new) net kept link) result }
{
    let bytes = match read_source(alloc, source, sink) {
        Ok(bytes) => bytes,
        Err(status) => return status,
    };
    match read_image(alloc, bytes.as_slice()) {
        Ok(image) => print_pairs(alloc, &image, sink),
        Err(fault) => refuse_image(alloc, sink, fault),
    }
}

fn print_pairs<K: Sink>(alloc: Global, image: &Image, sink: &mut K) -> Status
    ensures { IsTold Status.Done (trace_text (put_lines image.now)) (sink_facts K.Sink sink.old) (sink_facts K.Sink sink.new) result }
{
    let mut text = Vec::new(alloc);
    match put_image(image, &mut text) {
        Ok(()) => write_due(sink, text.as_slice(), Status::Done),
        Err(NoMemory) => Status::NoMemory,
    }
}

/// Writes the line that names why an image is refused.
pub fn refuse_image<K: Sink>(alloc: Global, sink: &mut K, fault: ImageFault) -> Status
    ensures { IsRefusedImage fault (sink_facts K.Sink sink.old) (sink_facts K.Sink sink.new) result }
{
    if fault == ImageFault::NoMemory {
        return Status::NoMemory;
    }
    match format!(in alloc; "{fault}\n") {
        Ok(line) => write_due(sink, line.as_bytes(), Status::ImageRefused),
        Err(_) => Status::NoMemory,
    }
}
