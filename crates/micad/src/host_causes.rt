//! Why this machine gives no port, or no file.

use daemon::{Doubt, Unbound};
use std::alloc::Global;
use std::fs;
use std::io::{self, ErrorKind};
use std::net::{Ipv4Addr, Net as Sockets, TcpListener, UdpSocket};
use std::rt::Files;
use tcp_connections::{Door, Refused};

// What the system answers to one more try of a port, beside as many descriptors as its server had before it.
fn tried_port<R: AllocGlobal + Sockets>(rt: &R, unbound: &Unbound) -> io::Result<()> {
    let mut before = Vec::new(rt.alloc());
    for _ in 0..unbound.before {
        before.push(UdpSocket::bind(rt, (Ipv4Addr::LOCALHOST, 0))?)?;
    }
    let place = (unbound.address, unbound.port);
    if unbound.is_tcp {
        TcpListener::bind(rt, place)?;
    } else {
        UdpSocket::bind(rt, place)?;
    }
    Ok(())
}

// What it answers to one more try of a file.
fn tried_file<R: Files>(rt: &R, name: &str) -> io::Result<()> {
    fs::open(rt, name)?;
    Ok(())
}

/// What an error is, for whoever reads the journal.
pub(crate) fn cause_of(error: &io::Error) -> &'static str {
    match error.raw_os_error() {
        // the numbers that say so of a process, and of the system
        Some(24) => return "too many open files: see LimitNOFILE= or ulimit -n",
        Some(23) => return "too many open files in the system",
        _ => {}
    }
    match error.kind() {
        ErrorKind::AddrInUse => "in use",
        ErrorKind::AddrNotAvailable => "no such address here",
        ErrorKind::PermissionDenied => "not permitted",
        ErrorKind::OutOfMemory => "no memory",
        ErrorKind::AlreadyExists => "a file is there, and no socket",
        ErrorKind::InvalidInput => "no path for a socket: it is empty, or longer than 107 bytes",
        ErrorKind::NotFound => "no such file",
        ErrorKind::NotADirectory => "no such file",
        _ => "the system refuses it",
    }
}

/// The door that could not be had, and why.
pub fn refused_text(alloc: Global, refused: &Refused) -> Option<String> {
    let cause = cause_of(&refused.error);
    match &refused.door {
        Door::Address(address) => format!(in alloc; "{address} not bound: {cause}").ok(),
        Door::Path(path, _) => {
            let path = path.as_str();
            format!(in alloc; "{path} not bound: {cause}").ok()
        }
    }
}

/// Why the system refused what is in doubt, as it says once more.
pub fn doubt_text<R: AllocGlobal + Sockets + Files>(rt: &R, doubt: &Doubt) -> Option<&'static str> {
    let tried = match doubt {
        Doubt::Nothing => return None,
        Doubt::Port(unbound) => tried_port(rt, unbound),
        Doubt::File(name) => tried_file(rt, name.as_str()),
    };
    match tried {
        Ok(()) => match doubt {
            Doubt::Port(_) => Some("it is free again"),
            _ => Some("it is a directory, or a read of it failed"),
        },
        Err(error) => Some(cause_of(&error)),
    }
}
