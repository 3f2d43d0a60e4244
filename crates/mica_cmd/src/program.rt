//! The whole program: its words, and the number that it ends with.
ghost use Rattle.std.specs.Prelude.{◌≡◌, [], false, string_bytes};
ghost use Rattle.std.specs.Process.{exit_status};
ghost use Rattle.served.specs.NetRun.{net_facts};
ghost use Rattle.mica_cmd.specs.Outside.{outside, source_facts, link_facts};
ghost use Rattle.server_words.specs.Output.{sink_facts};
ghost use Rattle.mica_cmd.specs.Exit.{exit_number, Exits};
ghost use Rattle.option_words.specs.ProgramWords.{words_of};

use crate::{Status, mica};
use mica_client::Link;
use option_words::{all_words, behind_name};
use outside::{Gate, Net, NoMemory, Sink, Source};
use partition_table::Tables;
use std::alloc::Global;
use std::env::Args;
use std::io;
use std::process::ExitCode;
use std::sync::Wait;
use std::thread::Threads;

/// The number of a status.
pub fn exit_code(status: Status) -> ExitCode
    ensures { exit_status result ≡ exit_number status }
{
    ExitCode::from(status as u8)
}

/// Carries out the command that the program's words give, which are `env::args(&rt)` in `main`, and ends with the number of
/// its status. Only a `rt` that may start threads, as in `main`, serves.
pub fn run_program<W: Threads + Wait + Sync, S: Source, K: Sink, N: Net, G: Gate, L: Link>(
    rt: &W,
    alloc: Global,
    args: io::Result<Args>,
    source: &mut S,
    sink: &mut K,
    net: &mut N,
    gate: &G,
    tables: &mut Tables,
    link: &mut L,
) -> ExitCode
    requires source { S.has_ended source.old ≡ false }
    requires net { N.binds net.old ≡ 0 }
    requires tables { tables.old ≡ [] }
    ensures { Exits (words_of string_bytes args)
        (outside (source_facts S.Source source.old) (sink_facts K.Sink sink.old) (net_facts N.Net net.old) tables.old (link_facts L.Link link.old))
        (outside (source_facts S.Source source.new) (sink_facts K.Sink sink.new) (net_facts N.Net net.new) tables.new (link_facts L.Link link.new)) (exit_status result) }
{
    match all_words(alloc, args) {
        Ok(words) => exit_code(mica(
            rt,
            alloc,
            behind_name(words.as_slice()),
            source,
            sink,
            net,
            gate,
            tables,
            link,
        )),
        Err(NoMemory) => exit_code(Status::NoMemory),
    }
}
