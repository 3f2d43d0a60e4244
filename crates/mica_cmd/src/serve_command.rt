//! The command `serve`.
ghost use Rattle.std.specs.Prelude.{◌≡◌, []};
ghost use Rattle.partition_model.specs.Options.{IsValid};
ghost use Rattle.server_words.specs.PortOptions.{IsValidPorts};
ghost use Rattle.served.specs.NetRun.{net_facts};
ghost use Rattle.mica_cmd.specs.Outside.{outside, SourceFacts, LinkFacts};
ghost use Rattle.server_words.specs.Output.{sink_facts};
ghost use Rattle.mica_cmd.specs.Promise.{KeepsPromise, IsTold};
ghost use Rattle.mica_cmd.specs.Promises.{serve_promise};
ghost use Rattle.served.specs.TotalsText.{totals_text};

use crate::Status;
use crate::output::write_due;
use mica_serve::{PortOptions, ServeFault, Totals, serve};
use outside::{Gate, Net, NoMemory, Sink};
use partition_model::Options;
use partition_table::Tables;
use served::totals_line;
use std::alloc::Global;
use std::sync::Wait;
use std::thread::Threads;

/// Serves the ports, and prints the totals.
pub fn serve_command<W: Threads + Wait + Sync, K: Sink, N: Net, G: Gate>(
    rt: &W,
    alloc: Global,
    options: &Options,
    ports: &PortOptions,
    sink: &mut K,
    net: &mut N,
    gate: &G,
    tables: &mut Tables,
) -> Status
    requires options { IsValid options.now }
    requires ports { IsValidPorts ports.now }
    requires unbound { N.binds net.old ≡ 0 }
    requires tables { tables.old ≡ [] }
    ensures { (source : SourceFacts) → (link : LinkFacts) → KeepsPromise (serve_promise options.now ports.now)
        (outside source (sink_facts K.Sink sink.old) (net_facts N.Net net.old) tables.old link)
        (outside source (sink_facts K.Sink sink.new) (net_facts N.Net net.new) tables.new link) result }
{
    match serve(rt, alloc, options, ports, net, gate, tables) {
        Ok(totals) => print_totals(alloc, totals, Status::Done, sink),
        Err(ServeFault::Net) => write_due(sink, b"net fault\n", Status::NetFault),
        Err(ServeFault::NoMemory) => Status::NoMemory,
    }
}

/// Prints the line of the totals, which is due with a status.
pub fn print_totals<K: Sink>(alloc: Global, totals: Totals, status: Status, sink: &mut K) -> Status
    ensures { IsTold status (totals_text totals) (sink_facts K.Sink sink.old) (sink_facts K.Sink sink.new) result }
{
    match totals_line(alloc, totals) {
        Ok(line) => write_due(sink, line.as_bytes(), status),
        Err(NoMemory) => Status::NoMemory,
    }
}
