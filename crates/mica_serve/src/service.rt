//! The server: its ports bound, its fronts and owners run side by side, its ends released and its tables kept.
ghost use Rattle.std.specs.Prelude.{◌≡◌, ◌≤◌, [], map, vec_len, vec_capacity, Some};
ghost use Rattle.partition_model.specs.Options.{IsValid};
ghost use Rattle.partition_table.specs.declared.reader.Note.{Note};
ghost use Rattle.partition_table.specs.Seats.{note_state, note_home};
ghost use Rattle.server_words.specs.PortOptions.{IsValidPorts};
ghost use Rattle.served.specs.Others.{alone};
ghost use Rattle.served.specs.Served.{empty_origin};
ghost use Rattle.served.specs.Ends.{AreOpen, ServesFronts, end_facts};
ghost use Rattle.mica_serve.specs.Tasks.{IsServer};
ghost use Rattle.served.specs.NetRun.{BindsAndServes, IsCauseOf, KeepsNet, net_facts};

use crate::server::{Server, run_all};
use crate::tables::keep_all;
use any_partition::OnTable;
use cache_partition::CachePartition;
use fronts::{ServeFault, Totals};
use outside::{Datagrams, Gate, Net};
use partition_model::{Mode, Options};
use partition_table::{Note, OwnerSeat, ReaderSeat, Tables};
use partition_words::LendPartition;
use served::{bind_all, release_all, sum_up};
use server_words::PortOptions;
use std::alloc::Global;
use std::sync::Wait;
use std::thread::Threads;
use store_partition::StorePartition;

/// Serves the fronts side by side, and keeps the owners' seats where no front failed.
fn serve_all<
    W: Threads + Wait + Sync,
    P: OnTable + LendPartition<Reader = ReaderSeat, Note = Note> + Send,
    D: Datagrams + Drop + Send,
    G: Gate,
>(
    rt: &W,
    alloc: Global,
    options: &Options,
    ports: &PortOptions,
    server: Server<P, D>,
    ends: &mut Vec<D>,
    gate: &G,
    tables: &mut Tables,
) -> Result<Totals, ServeFault>
    requires same { (p : P) → P.state p ≡ P.owner p }
    requires notes { (n : Note) → (P.noted n ≡ note_state n) × (P.note_home n ≡ note_home n) }
    requires options { IsValid options.now }
    requires ports { IsValidPorts ports.now }
    requires server { IsServer P.owner P.home options.now ports.now server }
    requires tables { tables.old ≡ [] }
    requires open { AreOpen (map (end_facts D.Datagrams) ends.old.items) }
    requires many { vec_len ends.old ≡ ports.now.fronts }
    ensures { ServesFronts alone options.now empty_origin ports.now.batches result tables.new
        (map (end_facts D.Datagrams) ends.old.items)
        (map (end_facts D.Datagrams) ends.new.items) }
{
    let (owners, answers) = run_all(rt, alloc, options, ports, server, ends, gate);
    let totals = sum_up(answers.as_slice())?;
    keep_all(owners, tables);
    Ok(totals)
}

/// Binds the ports, and serves the fronts where all were bound.
fn bind_and_serve<
    W: Threads + Wait + Sync,
    P: OnTable + LendPartition<Reader = ReaderSeat, Note = Note> + Send,
    N: Net,
    G: Gate,
>(
    rt: &W,
    alloc: Global,
    options: &Options,
    ports: &PortOptions,
    server: Server<P, N::End>,
    net: &mut N,
    ends: &mut Vec<N::End>,
    gate: &G,
    tables: &mut Tables,
) -> Result<Totals, ServeFault>
    requires same { (p : P) → P.state p ≡ P.owner p }
    requires notes { (n : Note) → (P.noted n ≡ note_state n) × (P.note_home n ≡ note_home n) }
    requires options { IsValid options.now }
    requires ports { IsValidPorts ports.now }
    requires server { IsServer P.owner P.home options.now ports.now server }
    requires tables { tables.old ≡ [] }
    requires unbound { N.binds net.old ≡ 0 }
    requires none { ends.old.items ≡ [] }
    requires room { ports.now.fronts ≤ vec_capacity ends.old }
    ensures { BindsAndServes alone options.now empty_origin ports.now (Some result) tables.new (net_facts N.Net net.old) (net_facts N.Net net.new)
        (map (end_facts N.End.Datagrams) ends.new.items) }
{
    bind_all(net, ports, ends)?;
    serve_all(rt, alloc, options, ports, server, ends, gate, tables)
}

/// Serves the ports before partitions of one mode.
fn serve_on<
    W: Threads + Wait + Sync,
    P: OnTable + LendPartition<Reader = ReaderSeat, Note = Note> + Send,
    N: Net,
    G: Gate,
>(
    rt: &W,
    alloc: Global,
    options: &Options,
    ports: &PortOptions,
    net: &mut N,
    gate: &G,
    tables: &mut Tables,
) -> Result<Totals, ServeFault>
    requires notes { (n : Note) → (P.noted n ≡ note_state n) × (P.note_home n ≡ note_home n) }
    requires options { IsValid options.now }
    requires mode { options.now.mode ≡ P.mode }
    requires same { (p : P) → P.state p ≡ P.owner p }
    requires ports { IsValidPorts ports.now }
    requires unbound { N.binds net.old ≡ 0 }
    requires tables { tables.old ≡ [] }
    ensures cause { IsCauseOf alone result options.now empty_origin ports.now tables.new (net_facts N.Net net.old) (net_facts N.Net net.new) }
    ensures kept { KeepsNet ports.now (net_facts N.Net net.old) (net_facts N.Net net.new) }
{
    let server = Server::<P, N::End>::open(rt, alloc, options, ports)?;
    let mut ends = Vec::with_capacity(alloc, ports.fronts as usize)?;
    let answer = bind_and_serve(
        rt, alloc, options, ports, server, net, &mut ends, gate, tables,
    );
    release_all(net, ends, ports.port);
    answer
}

/// Binds a port for each front, in order; then the fronts and the owners of the partitions run side by side, each in a thread of its own. All ends
/// are released. The owners' seats are kept, in the order of the partitions, where no front failed.
pub fn serve<W: Threads + Wait + Sync, N: Net, G: Gate>(
    rt: &W,
    alloc: Global,
    options: &Options,
    ports: &PortOptions,
    net: &mut N,
    gate: &G,
    tables: &mut Tables,
) -> Result<Totals, ServeFault>
    requires options { IsValid options.now }
    requires ports { IsValidPorts ports.now }
    requires unbound { N.binds net.old ≡ 0 }
    requires tables { tables.old ≡ [] }

    ensures cause { IsCauseOf alone result options.now empty_origin ports.now tables.new (net_facts N.Net net.old) (net_facts N.Net net.new) }
    ensures kept { KeepsNet ports.now (net_facts N.Net net.old) (net_facts N.Net net.new) }
{
    match options.mode {
        Mode::Cache => serve_on::<W, CachePartition<OwnerSeat>, N, G>(
            rt, alloc, options, ports, net, gate, tables,
        ),
        Mode::Store => serve_on::<W, StorePartition<OwnerSeat>, N, G>(
            rt, alloc, options, ports, net, gate, tables,
        ),
    }
}
