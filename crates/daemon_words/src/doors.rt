//! The doors that words name for memcached's clients: the addresses of the port, and the path of a Unix socket. An adapter takes them as they stand.
ghost use Rattle.std.specs.Prelude.{◌≡◌};

use crate::streams::{StreamOptions, address_of};
use crate::wrong_together::value_given;
use outside::NoMemory;
use std::alloc::Global;
use std::fmt;
use std::net::{Ipv6Addr, SocketAddr};

/// The mode of a Unix socket for which words give none: it is for who runs the server alone.
const OWN_MODE: u32 = 0o700;

/// The doors of a server.
#[derive(Drop)]
pub struct Doors<'a> {
    /// Each with the port, as they are listed.
    pub addresses: Vec<SocketAddr>,
    /// The path of a Unix socket, and the mode that says who may come there.
    pub socket: Option<&'a str>,
    pub mode: u32,
}

impl fmt::Display for Doors<'_> {
    fn fmt<W: fmt::Write>(&self, f: &mut fmt::Formatter<W>) -> fmt::Result {
        let mut before = "";
        for address in &self.addresses {
            write!(f, "{before}{address}")?;
            before = ", ";
        }
        if let Some(path) = self.socket {
            let mode = self.mode;
            write!(f, "{before}{path} (mode {mode:o})")?;
        }
        Ok(())
    }
}

// The text between brackets, which stand round an address of IPv6 before its port.
fn in_brackets(text: &str) -> Option<&str> {
    text.strip_prefix("[")?.strip_suffix("]")
}

/// The address that a text lists: alone, or before its port.
pub(crate) fn listed(text: &str, port: u16) -> Option<SocketAddr> {
    if let Some(address) = address_of(text) {
        return Some(SocketAddr::from((address, port)));
    }
    let alone = in_brackets(text).unwrap_or(text);
    if let Ok(address) = Ipv6Addr::parse_ascii(alone.as_bytes()) {
        return Some(SocketAddr::from((address, port)));
    }
    match SocketAddr::parse_ascii(text.as_bytes()) {
        Ok(address) if address.port() > 0 => Some(address),
        _ => None,
    }
}

/// Whether each part of a list is an address.
pub(crate) fn are_listed(list: &str) -> bool {
    list.split(',').all(|text| listed(text, 1).is_some())
}

/// The address of a list that has another port than the server.
pub(crate) fn of_another_port(list: &str, port: u16) -> Option<&str> {
    list.split(',').find(|text| match listed(text, port) {
        Some(address) => address.port() != port,
        None => false,
    })
}

/// The mode that a text writes in octal digits.
pub(crate) fn mode_of(text: &str) -> Option<u32> {
    match u32::from_str_radix(text, 8) {
        Ok(mode) if mode <= 0o777 && !text.starts_with('+') => Some(mode),
        _ => None,
    }
}

// The addresses of the port. With a socket alone there is no port.
fn addresses_given(
    alloc: Global,
    words: &[String],
    streams: &StreamOptions,
) -> Result<Option<Vec<SocketAddr>>, NoMemory> {
    let port = streams.ports.port;
    let mut addresses = Vec::new(alloc);
    if port == 0 {
        return Ok(Some(addresses));
    }
    let list = value_given(words, "--listen").unwrap_or("127.0.0.1");
    for text in list.split(',') {
        match listed(text, port) {
            Some(address) if address.port() == port => addresses.push(address)?,
            _ => return Ok(None),
        }
    }
    Ok(Some(addresses))
}

/// The doors that words name which give these streams: none where these are none. `None` where something is listed that is no address of the port, or the mode is
/// none.
pub fn doors_given<'a>(
    alloc: Global,
    words: &'a [String],
    streams: &StreamOptions,
) -> Result<Option<Doors<'a>>, NoMemory> {
    let Some(addresses) = addresses_given(alloc, words, streams)? else {
        return Ok(None);
    };
    let mode = match value_given(words, "--socket-mode") {
        Some(text) => mode_of(text),
        None => Some(OWN_MODE),
    };
    Ok(match mode {
        Some(mode) => Some(Doors {
            addresses,
            socket: value_given(words, "--socket"),
            mode,
        }),
        None => None,
    })
}
