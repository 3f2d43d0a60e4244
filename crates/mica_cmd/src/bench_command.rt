//! The command `bench`.
ghost use Rattle.std.specs.Prelude.{◌≡◌, ◌⊎◌, ℕ, List, [], IfOk, OnErr, true};
ghost use Rattle.partition_model.specs.Options.{IsValid};
ghost use Rattle.served.specs.NetRun.{NetFacts};
ghost use Rattle.mica_commands.specs.GenOptions.{is_valid};
ghost use Rattle.mica_cmd.specs.Outside.{outside, SourceFacts, LinkFacts};
ghost use Rattle.server_words.specs.Output.{sink_facts};
ghost use Rattle.mica_cmd.specs.Promise.{KeepsPromise};
ghost use Rattle.mica_cmd.specs.Promises.{bench_promise, IsSeatedSummary};

use crate::Status;
use crate::output::write_due;
use mica_commands::{GenOptions, gen_trace, put_summary};
use mica_replay::run_trace;
use outside::{Gate, NoMemory, Sink};
use partition_model::Options;
use partition_table::Tables;
use std::alloc::Global;
use std::sync::Wait;
use std::thread::Threads;

/// Runs the trace that the options generate, and prints the summary.
pub fn bench_command<W: Threads + Wait + Sync, K: Sink, G: Gate>(
    rt: &W,
    alloc: Global,
    options: &Options,
    generator: &GenOptions,
    sink: &mut K,
    gate: &G,
    tables: &mut Tables,
) -> Status
    requires options { IsValid options.now }
    requires generator { is_valid generator.now ≡ true }
    requires tables { tables.old ≡ [] }
    ensures { (source : SourceFacts) → (net : NetFacts) → (link : LinkFacts) → KeepsPromise (bench_promise options.now generator.now)
        (outside source (sink_facts K.Sink sink.old) net tables.old link) (outside source (sink_facts K.Sink sink.new) net tables.new link) result }
{
    match summary_of_run(rt, alloc, options, generator, gate, tables) {
        Ok(text) => write_due(sink, text.as_slice(), Status::Done),
        Err(NoMemory) => Status::NoMemory,
    }
}

fn summary_of_run<W: Threads + Wait + Sync, G: Gate>(
    rt: &W,
    alloc: Global,
    options: &Options,
    generator: &GenOptions,
    gate: &G,
    tables: &mut Tables,
) -> Result<Vec<u8>, NoMemory>
    requires options { IsValid options.now }
    requires generator { is_valid generator.now ≡ true }
    requires tables { tables.old ≡ [] }
    ensures ok { IfOk result (λ text. IsSeatedSummary options.now generator.now tables.new text.items) }
    ensures err { OnErr result ((tables.new ≡ []) ⊎ ((text : List ℕ) × IsSeatedSummary options.now generator.now tables.new text)) }
{
    let trace = gen_trace(alloc, generator)?;
    let report = run_trace(rt, alloc, options, &trace, gate, tables)?;
    let mut text = Vec::new(alloc);
    put_summary(options, &trace, &report, &mut text)?;
    Ok(text)
}
