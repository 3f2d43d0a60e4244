//! The net of a row, and what it must have sent.

ghost use Rattle.std.specs.Prelude.{◌≡◌, ◌<◌, IfOk, IsTrue};
ghost use Rattle.row_parts.specs.Taking.{TakesDatagrams};

use crate::entry::{Entry, is_one_of};
use crate::row::Row;
use memory_outside::MemNet;
use outside::{Net, NoMemory};
use std::alloc::Global;

/// Adds a datagram to a port that takes some.
#[tactic(auto, using(crate::proofs::Ports::takes_more))]
fn add_datagram(alloc: Global, net: &mut MemNet, port: u16, from: &[u8]) -> Result<(), NoMemory>
    requires { TakesDatagrams port (⟦<MemNet as Net>⟧.ports net.old) }
    ensures takes { TakesDatagrams port (⟦<MemNet as Net>⟧.ports net.new) }
    ensures binds { ⟦<MemNet as Net>⟧.binds net.new ≡ ⟦<MemNet as Net>⟧.binds net.old }
{
    net.add_datagram(alloc, port, from)
}

/// Adds a datagram as often as it is given to a port that takes some.
fn add_given(alloc: Global, net: &mut MemNet, port: u16, given: &Entry) -> Result<(), NoMemory>
    requires { TakesDatagrams port (⟦<MemNet as Net>⟧.ports net.old) }
    ensures takes { TakesDatagrams port (⟦<MemNet as Net>⟧.ports net.new) }
    ensures binds { ⟦<MemNet as Net>⟧.binds net.new ≡ ⟦<MemNet as Net>⟧.binds net.old }
{
    for _ in 0..given.times() {
        add_datagram(alloc, net, port, given.text())?;
    }
    Ok(())
}

/// Adds a port, where its number is new, and tells whether it takes datagrams.
#[tactic(auto, using(crate::proofs::Ports::not_added, crate::proofs::Ports::takes_first))]
fn add_port(alloc: Global, net: &mut MemNet, port: u16, entry: &Entry) -> Result<bool, NoMemory>
    ensures takes { IfOk result (λ added. IsTrue added → TakesDatagrams port (⟦<MemNet as Net>⟧.ports net.new)) }
    ensures binds { ⟦<MemNet as Net>⟧.binds net.new ≡ ⟦<MemNet as Net>⟧.binds net.old }
{
    if net.has_port(port) {
        return Ok(false);
    }
    net.add_port(
        alloc,
        port,
        entry.number(2),
        &[entry.number(3)],
        &[entry.number(4)],
    )?;
    Ok(true)
}

/// Adds the port of an entry, with what the entries behind it give, where its number is new.
fn add_peer(
    alloc: Global,
    net: &mut MemNet,
    entry: &Entry,
    behind: &[Entry],
) -> Result<(), NoMemory>
    ensures { ⟦<MemNet as Net>⟧.binds net.new ≡ ⟦<MemNet as Net>⟧.binds net.old }
{
    let port = entry.port(1);
    if add_port(alloc, net, port, entry)? {
        for given in behind {
            if given.is_place() {
                break;
            }
            if given.is("gives") {
                add_given(alloc, net, port, given)?;
            }
        }
    }
    Ok(())
}

/// The net of the ports of a row.
pub fn net_of(alloc: Global, row: &Row) -> Result<MemNet, NoMemory>
    ensures { IfOk result (λ net. ⟦<MemNet as Net>⟧.binds net ≡ 0) }
{
    let mut net = MemNet::new(alloc, &[row.number("bind", 1, 0)])?;
    let entries = row.entries.as_slice();
    for at in 0..entries.len() {
        if entries[at].is("port") {
            add_peer(alloc, &mut net, &entries[at], &entries[at + 1..])?;
        }
    }
    Ok(net)
}

/// Whether a port sent what it must, which is the text of the first of these entries, as its datagrams from this number on.
fn is_sent(net: &MemNet, port: u16, from: u32, times: u32, wanted: &[Entry]) -> bool {
    for more in 0..times {
        match net.sent(port, from.saturating_add(more)) {
            Some(found) if is_one_of(found, wanted) => {}
            _ => return false,
        }
    }
    true
}

/// Whether the port of an entry sent the datagrams that the entries behind it say, and no more.
pub fn has_sent(net: &MemNet, port: u16, behind: &[Entry]) -> bool {
    let mut number = 0u32;
    for at in 0..behind.len() {
        if behind[at].is_place() {
            break;
        }
        if behind[at].is("sends") {
            let times = behind[at].times();
            if !is_sent(net, port, number, times, &behind[at..]) {
                return false;
            }
            number = number.saturating_add(times);
        }
    }
    net.sent(port, number).is_none()
}

/// As many bytes as move at a time.
pub fn at_least_one(piece: u32) -> u32
    ensures { 0 < result }
{
    if piece == 0 { 1 } else { piece }
}
