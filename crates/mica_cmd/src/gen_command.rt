//! The command `gen`.
ghost use Rattle.std.specs.Prelude.{◌≡◌, List, true};
ghost use Rattle.served.specs.NetRun.{NetFacts};
ghost use Rattle.partition_table.specs.declared.tables.KeptSeat.{KeptSeat};
ghost use Rattle.mica_commands.specs.GenOptions.{is_valid};
ghost use Rattle.mica_cmd.specs.Outside.{outside, SourceFacts, LinkFacts};
ghost use Rattle.server_words.specs.Output.{sink_facts};
ghost use Rattle.mica_cmd.specs.Promise.{KeepsPromise};
ghost use Rattle.mica_cmd.specs.Promises.{gen_promise};

use crate::Status;
use crate::output::write_due;
use mica_commands::{GenOptions, gen_text};
use outside::{NoMemory, Sink};
use std::alloc::Global;

/// Prints the trace that the options generate.
pub fn gen_command<K: Sink>(alloc: Global, generator: &GenOptions, sink: &mut K) -> Status
    requires { is_valid generator.now ≡ true }
    ensures { (source : SourceFacts) → (net : NetFacts) → (kept : List KeptSeat) → (link : LinkFacts) → KeepsPromise (gen_promise generator.now)
        (outside source (sink_facts K.Sink sink.old) net kept link) (outside source (sink_facts K.Sink sink.new) net kept link) result }
{
    match gen_text(alloc, generator) {
        Ok(text) => write_due(sink, text.as_slice(), Status::Done),
        Err(NoMemory) => Status::NoMemory,
    }
}
