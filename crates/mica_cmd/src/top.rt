//! The top call: from the words of a command to its status, its text and what it leaves.
ghost use Rattle.std.specs.Prelude.{◌≡◌, [], map, string_bytes, false};
ghost use Rattle.served.specs.NetRun.{net_facts};
ghost use Rattle.mica_commands.specs.CommandLine.{command_of};
ghost use Rattle.mica_cmd.specs.Outside.{outside, source_facts, link_facts};
ghost use Rattle.server_words.specs.Output.{sink_facts};
ghost use Rattle.mica_cmd.specs.Promise.{KeepsPromise};
ghost use Rattle.mica_cmd.specs.Promises.{promise_of};

use crate::Status;
use crate::ask_command::ask_command;
use crate::bench_command::bench_command;
use crate::check_command::check_command;
use crate::exclusive_command::exclusive_command;
use crate::gen_command::gen_command;
use crate::image_command::image_command;
use crate::output::write_due;
use crate::replay_command::replay_command;
use crate::serve_command::serve_command;
use crate::unpack_command::unpack_command;
use mica_client::Link;
use mica_commands::{Command, WordsFault, read_words};
use outside::{Gate, Net, Sink, Source};
use partition_table::Tables;
use std::alloc::Global;
use std::sync::Wait;
use std::thread::Threads;

/// Carries a command out. It reads the words first, then the source, then the trace.
///
/// The contract is the program's: what each status means, the headline with `Done`, which commands are carried out whatever
/// happens, how much is read, and what becomes of the net, the tables and the link.
pub fn mica<W: Threads + Wait + Sync, S: Source, K: Sink, N: Net, G: Gate, L: Link>(
    rt: &W,
    alloc: Global,
    words: &[String],
    source: &mut S,
    sink: &mut K,
    net: &mut N,
    gate: &G,
    tables: &mut Tables,
    link: &mut L,
) -> Status
    requires source { S.has_ended source.old ≡ false }
    requires net { N.binds net.old ≡ 0 }
    requires tables { tables.old ≡ [] }
    ensures { KeepsPromise (promise_of (command_of (map string_bytes words.now)))
        (outside (source_facts S.Source source.old) (sink_facts K.Sink sink.old) (net_facts N.Net net.old) tables.old (link_facts L.Link link.old))
        (outside (source_facts S.Source source.new) (sink_facts K.Sink sink.new) (net_facts N.Net net.new) tables.new (link_facts L.Link link.new)) result }
{
    match read_words(alloc, words) {
        Ok(Command::Replay(options)) => {
            replay_command(rt, alloc, &options, source, sink, gate, tables)
        }
        Ok(Command::Serve(options, ports)) => {
            serve_command(rt, alloc, &options, &ports, sink, net, gate, tables)
        }
        Ok(Command::Gen(generator)) => gen_command(alloc, &generator, sink),
        Ok(Command::Bench(options, generator)) => {
            bench_command(rt, alloc, &options, &generator, sink, gate, tables)
        }
        Ok(Command::Check(options)) => check_command(alloc, &options, source, sink),
        Ok(Command::Exclusive(options)) => {
            exclusive_command(rt, alloc, &options, source, sink, gate)
        }
        Ok(Command::Ask(options)) => ask_command(rt, alloc, &options, source, sink, link),
        Ok(Command::Image(options)) => image_command(alloc, &options, source, sink),
        Ok(Command::Unpack) => unpack_command(alloc, source, sink),
        Err(WordsFault::Usage) => write_due(sink, b"usage\n", Status::Usage),
        Err(WordsFault::NoMemory) => Status::NoMemory,
    }
}
