//! The command `exclusive`.
ghost use Rattle.std.specs.Prelude.{◌≡◌, false, List};
ghost use Rattle.partition_model.specs.Options.{IsValid};
ghost use Rattle.served.specs.NetRun.{NetFacts};
ghost use Rattle.partition_table.specs.declared.tables.KeptSeat.{KeptSeat};
ghost use Rattle.mica_cmd.specs.Outside.{outside, source_facts, LinkFacts};
ghost use Rattle.server_words.specs.Output.{sink_facts};
ghost use Rattle.mica_cmd.specs.Promise.{KeepsPromise};
ghost use Rattle.mica_cmd.specs.Promises.{exclusive_promise};

use crate::Status;
use crate::input::read_input;
use exclusive_replay::{ExclusiveFault, exclusive};
use outside::{Gate, Sink, Source};
use partition_model::Options;
use std::alloc::Global;
use std::sync::Wait;
use std::thread::Threads;

/// Replays the trace that the source gives, with owners that read too, and prints the report.
pub fn exclusive_command<W: Threads + Wait + Sync, S: Source, K: Sink, G: Gate>(
    rt: &W,
    alloc: Global,
    options: &Options,
    source: &mut S,
    sink: &mut K,
    gate: &G,
) -> Status
    requires open { S.has_ended source.old ≡ false }
    requires valid { IsValid options.now }
    ensures { (net : NetFacts) → (kept : List KeptSeat) → (link : LinkFacts) → KeepsPromise (exclusive_promise options.now)
        (outside (source_facts S.Source source.old) (sink_facts K.Sink sink.old) net kept link)
        (outside (source_facts S.Source source.new) (sink_facts K.Sink sink.new) net kept link) result }
{
    let mut text = Vec::new(alloc);
    let trace = match read_input(alloc, source, sink, &mut text) {
        Ok(trace) => trace,
        Err(status) => return status,
    };
    match exclusive(rt, alloc, options, &trace, sink, gate) {
        Ok(()) => Status::Done,
        Err(ExclusiveFault::Write) => Status::WriteFault,
        Err(ExclusiveFault::NoMemory) => Status::NoMemory,
    }
}
