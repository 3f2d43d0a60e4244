//! The ends of ports: bound one after another, and released.
ghost use Rattle.std.specs.Prelude.{◌≡◌, ◌+◌, ◌<◌, ◌≤◌, ℕ, [], true, map, vec_len, vec_capacity, is_some, IfSome, OnOk, OnErr};
ghost use Rattle.outside.specs.Faults.{Rose};
ghost use Rattle.outside.specs.PortStates.{out};
ghost use Rattle.server_words.specs.PossiblePorts.{IsPossiblePorts};
ghost use Rattle.served.specs.Ends.{AreNewEnds, AreAtPorts, BindsEnds, TellAll, end_facts};
ghost use Rattle.served.specs.NetRun.{OnPorts, ReleasesNet, net_facts};

use outside::{Failed, Net};
use server_words::PortOptions;

/// Binds a port for each front, in order, up to the first bind that fails.
pub fn bind_all<N: Net>(
    net: &mut N,
    ports: &PortOptions,
    ends: &mut Vec<N::End>,
) -> Result<(), Failed>
    requires ports { IsPossiblePorts ports.now }
    requires unbound { N.binds net.old ≡ 0 }
    requires none { ends.old.items ≡ [] }
    requires room { ports.now.fronts ≤ vec_capacity ends.old }
    ensures new { AreNewEnds ports.now.port (map (end_facts N.End.Datagrams) ends.new.items) }
    ensures bound { OnPorts (BindsEnds ports.now.port (map (end_facts N.End.Datagrams) ends.new.items)) (N.ports net.old) (N.ports net.new) }
    ensures all { OnOk result (vec_len ends.new ≡ ports.now.fronts) }
    ensures few { vec_len ends.new ≤ ports.now.fronts }
    ensures none_refused { OnOk result (N.refused net.new ≡ N.refused net.old) }
    ensures steady { OnOk result (is_some (N.fails net.old) ≡ true → N.faults net.new ≡ N.faults net.old) }
    ensures cause { OnErr result (Rose (N.faults net.old) (N.faults net.new)) }
    ensures refused { OnErr result (N.refused net.new ≡ N.refused net.old + 1) }
    ensures lacks { OnErr result (vec_len ends.new < ports.now.fronts) }
    ensures tried { OnErr result (N.binds net.new ≡ vec_len ends.new + 1) }
    ensures never_fall { N.faults net.old ≤ N.faults net.new }
    ensures fails { N.fails net.new ≡ N.fails net.old }
    ensures binds { N.binds net.new ≤ ports.now.fronts }
    ensures first { 0 < N.binds net.new → N.first net.new ≡ ports.now.port }
{
    for f in 0..ports.fronts {
        let end = net.bind(ports.port + f as u16)?;
        ends.push_reserved(end);
    }
    Ok(())
}

/// Releases the ends, the last one first.
pub fn release_all<N: Net>(net: &mut N, ends: Vec<N::End>, first: u16)
    requires ports { AreAtPorts first (map (end_facts N.End.Datagrams) ends.items) }
    requires out { IfSome (N.ports net.old) (λ all. (i : ℕ) → i < vec_len ends → all (first + i) ≡ out) }
    requires tell { IfSome (N.ports net.old) (λ all. TellAll (map (end_facts N.End.Datagrams) ends.items)) }
    ensures { ReleasesNet first (map (end_facts N.End.Datagrams) ends.items) (net_facts N.Net net.old) (net_facts N.Net net.new) }
{
    let mut ends = ends;
    while let Some(end) = ends.pop() {
        net.release(end);
    }
}
