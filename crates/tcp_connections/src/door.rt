//! What is listened at: addresses of this machine, and paths of its file system.

use crate::stream::Stream;
use libc::net as c;
use mio::net::{TcpListener, UnixListener, UnixStream};
use mio::{Interest, Registry, Token};
use os::FromRawFd;
use std::fs::{self, Files, Permissions};
use std::io::{self, ErrorKind};
use std::net::{Net as Sockets, SocketAddr, SocketAddrV6};
use std::os::fd::OwnedFd;
use std::os::unix::fs::{FileTypeExt, PermissionsExt};

/// A door of a place.
#[derive(Drop)]
pub enum Door {
    /// An address, with its port. One of IPv6 is of IPv6 alone.
    Address(SocketAddr),
    /// The path of a Unix socket, and the mode that says who may come there.
    Path(String, u32),
}

/// A door that could not be had, and why.
#[derive(Drop)]
pub struct Refused {
    pub door: Door,
    pub error: io::Error,
}

/// A door that is had.
#[derive(Drop)]
pub(crate) enum Listener {
    Tcp(TcpListener),
    Unix(UnixListener),
}

impl Listener {
    pub(crate) fn register(&mut self, registry: &Registry, token: Token) -> io::Result<()> {
        match self {
            Listener::Tcp(listener) => registry.register(listener, token, Interest::READABLE),
            Listener::Unix(listener) => registry.register(listener, token, Interest::READABLE),
        }
    }

    /// The next connection that waits there.
    pub(crate) fn accept(&self) -> io::Result<Stream> {
        match self {
            Listener::Tcp(listener) => Ok(Stream::Tcp(listener.accept()?.0)),
            Listener::Unix(listener) => Ok(Stream::Unix(listener.accept()?.0)),
        }
    }
}

fn check(status: i32) -> io::Result<()> {
    if status < 0 {
        return Err(io::Error::from_raw_os_error(os::errno()));
    }
    Ok(())
}

/// Listens at an address of IPv6, and not at those of IPv4 behind it, as the system may be set to do.
fn listen_v6(address: SocketAddrV6) -> io::Result<TcpListener> {
    let kind = c::SOCK_STREAM | c::SOCK_NONBLOCK | c::SOCK_CLOEXEC;
    let fd = unsafe { c::socket(c::AF_INET6, kind, 0) };
    if fd < 0 {
        return Err(io::Error::from_raw_os_error(os::errno()));
    }
    let socket = unsafe { OwnedFd::from_raw_fd(fd) };
    let mut on = [0; 16];
    on[..4].copy_from_slice(&1i32.to_ne_bytes());
    check(unsafe { c::setsockopt(fd, c::SOL_SOCKET, c::SO_REUSEADDR, &on, 4) })?;
    check(unsafe { c::setsockopt(fd, c::IPPROTO_IPV6, c::IPV6_V6ONLY, &on, 4) })?;
    let mut raw = [0u8; c::_SS_SIZE];
    raw[..2].copy_from_slice(&(c::AF_INET6 as u16).to_ne_bytes());
    raw[2..4].copy_from_slice(&address.port().to_be_bytes());
    raw[8..24].copy_from_slice(&address.ip().octets());
    raw[24..28].copy_from_slice(&address.scope_id().to_ne_bytes());
    check(unsafe { c::bind(fd, &raw, 28) })?;
    check(c::listen(fd, i32::MAX))?;
    Ok(TcpListener::from(socket))
}

/// Takes a socket away that a server left which has ended: nobody answers there. One that is lived at stays, and so does any other file.
fn clear<R: Files + Sockets>(rt: &R, path: &str) -> io::Result<()> {
    match fs::symlink_metadata(rt, path) {
        Ok(found) if found.file_type().is_socket() => {}
        Ok(_) => return Err(ErrorKind::AlreadyExists.into()),
        Err(error) if error.kind() == ErrorKind::NotFound => return Ok(()),
        Err(error) => return Err(error),
    }
    match UnixStream::connect(rt, path) {
        Err(error) => match error.kind() {
            ErrorKind::ConnectionRefused => fs::remove_file(rt, path),
            ErrorKind::NotFound => Ok(()),
            // So many wait there that one more has no room.
            ErrorKind::WouldBlock => Err(ErrorKind::AddrInUse.into()),
            _ => Err(error),
        },
        Ok(_) => Err(ErrorKind::AddrInUse.into()),
    }
}

/// Listens at a door.
pub(crate) fn listen_at<R: Files + Sockets>(rt: &R, door: &Door) -> io::Result<Listener> {
    match door {
        Door::Address(SocketAddr::V6(address)) => Ok(Listener::Tcp(listen_v6(*address)?)),
        Door::Address(address) => Ok(Listener::Tcp(TcpListener::bind(rt, *address)?)),
        Door::Path(path, mode) => {
            clear(rt, path.as_str())?;
            let listener = UnixListener::bind(rt, path.as_str())?;
            fs::set_permissions(rt, path.as_str(), Permissions::from_mode(*mode))?;
            Ok(Listener::Unix(listener))
        }
    }
}
