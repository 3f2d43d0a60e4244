//! The command `replay`.
ghost use Rattle.std.specs.Prelude.{◌≡◌, [], false};
ghost use Rattle.partition_model.specs.Options.{IsValid};
ghost use Rattle.served.specs.NetRun.{NetFacts};
ghost use Rattle.mica_cmd.specs.Outside.{outside, source_facts, LinkFacts};
ghost use Rattle.server_words.specs.Output.{sink_facts};
ghost use Rattle.mica_cmd.specs.Promise.{KeepsPromise};
ghost use Rattle.mica_cmd.specs.Promises.{replay_promise};

use crate::Status;
use crate::input::read_input;
use mica_replay::{ReplayFault, replay};
use outside::{Gate, Sink, Source};
use partition_model::Options;
use partition_table::Tables;
use std::alloc::Global;
use std::sync::Wait;
use std::thread::Threads;

/// Replays the trace that the source gives, and prints the report.
pub fn replay_command<W: Threads + Wait + Sync, S: Source, K: Sink, G: Gate>(
    rt: &W,
    alloc: Global,
    options: &Options,
    source: &mut S,
    sink: &mut K,
    gate: &G,
    tables: &mut Tables,
) -> Status
    requires open { S.has_ended source.old ≡ false }
    requires valid { IsValid options.now }
    requires tables { tables.old ≡ [] }
    ensures { (net : NetFacts) → (link : LinkFacts) → KeepsPromise (replay_promise options.now)
        (outside (source_facts S.Source source.old) (sink_facts K.Sink sink.old) net tables.old link)
        (outside (source_facts S.Source source.new) (sink_facts K.Sink sink.new) net tables.new link) result }
{
    let mut text = Vec::new(alloc);
    let trace = match read_input(alloc, source, sink, &mut text) {
        Ok(trace) => trace,
        Err(status) => return status,
    };
    match replay(rt, alloc, options, &trace, sink, gate, tables) {
        Ok(()) => Status::Done,
        Err(ReplayFault::Write) => Status::WriteFault,
        Err(ReplayFault::NoMemory) => Status::NoMemory,
    }
}
