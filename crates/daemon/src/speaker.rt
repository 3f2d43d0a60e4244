//! The sink of a server that stays up, with the line that it is to write once it has its ports.
ghost use Rattle.std.specs.Prelude.{◌≡◌, ◌+◌, ◌≤◌, string_bytes, IfOk};
ghost use Rattle.server_words.specs.PossiblePorts.{IsPossiblePorts};
ghost use Rattle.daemon.specs.Daemon.{place_text, port_text, range_text, ready_text, unbound_text};

use connections::Connections;
use daemon_words::StreamPorts;
use locked_server::{Announce, Untold};
use outside::{Datagrams, NoMemory, Sink, write_all};
use server_words::PortOptions;
use std::alloc::Global;
use std::net::Ipv4Addr;

/// A port that was not had.
#[derive(Clone, Copy)]
pub struct Unbound {
    pub address: Ipv4Addr,
    pub port: u16,
    /// Whether it is of connections, and none of datagrams.
    pub is_tcp: bool,
    /// How many descriptors are had before its own: those of the ports before it, and for each thread of a port of connections two, for what is ready there and for calls.
    pub before: u32,
}

impl Unbound {
    /// One of datagrams, behind so many of them.
    pub(crate) fn datagrams(port: u16, before: u32) -> Unbound {
        Unbound {
            address: Ipv4Addr::LOCALHOST,
            port,
            is_tcp: false,
            before,
        }
    }

    /// One of connections, before so many threads.
    pub(crate) fn connections(address: Ipv4Addr, port: u16, threads: u32) -> Unbound {
        Unbound {
            address,
            port,
            is_tcp: true,
            before: threads.saturating_mul(2),
        }
    }
}

/// What the system can be asked once more about: why it gave no port, or no file.
#[derive(Drop)]
pub enum Doubt {
    Nothing,
    Port(Unbound),
    File(String),
}

/// A sink, and the line that says that the ports are had; and for whoever started the server, why it ended.
#[derive(Drop)]
pub struct Speaker<K> {
    pub sink: K,
    pub line: String,
    /// A sentence, or nothing where there is none.
    pub reason: String,
    pub doubt: Doubt,
}

impl<K: Sink + Drop> Speaker<K> {
    /// One that has said nothing.
    pub fn new(alloc: Global, sink: K) -> Speaker<K>
        ensures { result.sink ≡ sink }
    {
        Speaker {
            sink,
            line: String::new(alloc),
            reason: String::new(alloc),
            doubt: Doubt::Nothing,
        }
    }
}

impl<K: Sink + Drop> Announce for Speaker<K> {
    ghost use Rattle.std.specs.Prelude.{string_bytes};
    ghost use Rattle.server_words.specs.Output.{sink_facts};
    ghost use Rattle.daemon.specs.Daemon.{Says, FailsToSay};

    ghost says = { λ _ _ a b. Says (string_bytes a.line) (sink_facts K.Sink a.sink) (sink_facts K.Sink b.sink) };

    ghost fails = { λ _ _ a b. FailsToSay (string_bytes a.line) (sink_facts K.Sink a.sink) (sink_facts K.Sink b.sink) };

    fn ready<D: Datagrams, C: Connections>(
        &mut self,
        _ports: &PortOptions,
        _places: u32,
        _ends: &[D],
        _connections: &[C],
    ) -> Result<(), Untold> {
        match write_all(&mut self.sink, self.line.as_bytes()) {
            Ok(()) => Ok(()),
            Err(_) => Err(Untold),
        }
    }
}

// The first port of so many and the last one, behind what they are of, where there are any.
fn range_text(alloc: Global, before: &str, first: u16, count: u32) -> Result<String, NoMemory>
    requires { first + count ≤ 65536 }
    ensures { IfOk result (λ text. string_bytes text ≡ range_text before.now first count) }
{
    if count == 0 {
        return Ok(String::new(alloc));
    }
    let last = u32::from(first) + count - 1;
    match format!(in alloc; "{before}{first} to {last}") {
        Ok(text) => Ok(text),
        Err(_) => Err(NoMemory),
    }
}

// A port, where there is one.
fn port_text(alloc: Global, port: u16) -> Result<String, NoMemory>
    ensures { IfOk result (λ text. string_bytes text ≡ port_text port) }
{
    if port == 0 {
        return Ok(String::new(alloc));
    }
    match format!(in alloc; " {port}") {
        Ok(text) => Ok(text),
        Err(_) => Err(NoMemory),
    }
}

// The port of connections, and that there is a socket, where there are fronts behind them.
fn place_text(alloc: Global, streams: &StreamPorts) -> Result<String, NoMemory>
    ensures { IfOk result (λ text. string_bytes text ≡ place_text streams.now) }
{
    if streams.fronts == 0 {
        return Ok(String::new(alloc));
    }
    let port = port_text(alloc, streams.port)?;
    let socket = if streams.has_socket { " socket" } else { "" };
    match format!(in alloc; " memcached{port}{socket}") {
        Ok(text) => Ok(text),
        Err(_) => Err(NoMemory),
    }
}

/// The line that says that the ports are had: the first one and the last one of datagrams, and that of connections.
pub(crate) fn ready_line(
    alloc: Global,
    ports: &PortOptions,
    streams: &StreamPorts,
) -> Result<String, NoMemory>
    requires ports { IsPossiblePorts ports.now }
    ensures { IfOk result (λ line. string_bytes line ≡ ready_text ports.now streams.now) }
{
    let datagrams = range_text(alloc, " ", ports.port, ports.fronts)?;
    let connections = place_text(alloc, streams)?;
    match format!(in alloc; "ready{datagrams}{connections}\n") {
        Ok(line) => Ok(line),
        Err(_) => Err(NoMemory),
    }
}

/// The line that names a port which was not had. With a socket alone there is none.
pub(crate) fn unbound_line(alloc: Global, port: u16) -> Result<String, NoMemory>
    ensures { IfOk result (λ line. string_bytes line ≡ unbound_text port) }
{
    if port == 0 {
        return Ok(String::from_str(alloc, "socket not bound\n")?);
    }
    match format!(in alloc; "port {port} not bound\n") {
        Ok(line) => Ok(line),
        Err(_) => Err(NoMemory),
    }
}
