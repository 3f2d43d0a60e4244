//! The command `image`.
ghost use Rattle.std.specs.Prelude.{◌≡◌, false, List, IfOk};
ghost use Rattle.partition_model.specs.Options.{IsValid};
ghost use Rattle.served.specs.NetRun.{NetFacts};
ghost use Rattle.partition_table.specs.declared.tables.KeptSeat.{KeptSeat};
ghost use Rattle.mica_cmd.specs.Outside.{outside, source_facts, LinkFacts};
ghost use Rattle.server_words.specs.Output.{sink_facts};
ghost use Rattle.mica_cmd.specs.Promise.{KeepsPromise};
ghost use Rattle.mica_cmd.specs.Promises.{image_promise, IsImageText};

use crate::Status;
use crate::input::read_input;
use crate::output::write_due;
use mica_trace::Trace;
use outside::{Bytes, NoMemory, Sink, Source};
use partition_model::{Mode, Options};
use std::alloc::Global;
use store_image::{image_of, write_image};

/// Prints the image of the store that the trace leaves, which the source gives.
pub fn image_command<S: Source, K: Sink>(
    alloc: Global,
    options: &Options,
    source: &mut S,
    sink: &mut K,
) -> Status
    requires open { S.has_ended source.old ≡ false }
    requires valid { IsValid options.now }
    requires mode { options.now.mode ≡ Mode.Store }
    ensures { (net : NetFacts) → (kept : List KeptSeat) → (link : LinkFacts) → KeepsPromise (image_promise options.now)
        (outside (source_facts S.Source source.old) (sink_facts K.Sink sink.old) net kept link)
        (outside (source_facts S.Source source.new) (sink_facts K.Sink sink.new) net kept link) result }
{
    let mut text = Vec::new(alloc);
    let trace = match read_input(alloc, source, sink, &mut text) {
        Ok(trace) => trace,
        Err(status) => return status,
    };
    match image_text(alloc, options, &trace) {
        Ok(text) => write_due(sink, text.bytes(), Status::Done),
        Err(NoMemory) => Status::NoMemory,
    }
}

fn image_text(alloc: Global, options: &Options, trace: &Trace) -> Result<Bytes, NoMemory>
    requires valid { IsValid options.now }
    requires mode { options.now.mode ≡ Mode.Store }
    ensures { IfOk result (IsImageText options.now trace.now) }
{
    let imaged = image_of(alloc, options, trace)?;
    write_image(alloc, &imaged.image)
}
