//! The stream of a connection: over TCP, or over a Unix socket.
ghost use Rattle.std.specs.Io.{ReadsAtMost, WritesAtMost};

use libc::net as c;
use mio::net::{TcpStream, UnixStream};
use mio::{Interest, Registry, Token};
use std::io::{self, Read, Write};
use std::net::Shutdown;
use std::os::fd::AsRawFd;

/// Over what a connection came. Each way has a bound of its own.
#[derive(Clone, Copy, PartialEq, Eq)]
pub(crate) enum Way {
    Tcp,
    Unix,
}

/// The stream of a connection.
#[derive(Drop)]
pub(crate) enum Stream {
    Tcp(TcpStream),
    Unix(UnixStream),
}

/// Has the system ask a peer that is silent for long whether it is still there: one that vanished is closed in the end, and keeps no place.
fn keep_alive(stream: &TcpStream) {
    let mut value = [0; 16];
    value[..4].copy_from_slice(&1i32.to_ne_bytes());
    let fd = stream.as_raw_fd();
    let _unheeded = unsafe { c::setsockopt(fd, c::SOL_SOCKET, c::SO_KEEPALIVE, &value, 4) };
}

impl Stream {
    pub(crate) fn way(&self) -> Way {
        match self {
            Stream::Tcp(_) => Way::Tcp,
            Stream::Unix(_) => Way::Unix,
        }
    }

    /// Says at once what is written. Over a Unix socket all is said at once, and no peer vanishes.
    pub(crate) fn begin(&self) {
        if let Stream::Tcp(stream) = self {
            let _unheeded = stream.set_nodelay(true);
            keep_alive(stream);
        }
    }

    pub(crate) fn register(&mut self, registry: &Registry, token: Token) -> io::Result<()> {
        let both = Interest::READABLE | Interest::WRITABLE;
        match self {
            Stream::Tcp(stream) => registry.register(stream, token, both),
            Stream::Unix(stream) => registry.register(stream, token, both),
        }
    }

    pub(crate) fn shutdown(&self, how: Shutdown) -> io::Result<()> {
        match self {
            Stream::Tcp(stream) => stream.shutdown(how),
            Stream::Unix(stream) => stream.shutdown(how),
        }
    }

    pub(crate) fn read(&self, out: &mut [u8]) -> io::Result<usize>
        ensures { ReadsAtMost result out.new }
    {
        match self {
            Stream::Tcp(stream) => (&*stream).read(out),
            Stream::Unix(stream) => (&*stream).read(out),
        }
    }

    pub(crate) fn write(&self, piece: &[u8]) -> io::Result<usize>
        ensures { WritesAtMost result piece.now }
    {
        match self {
            Stream::Tcp(stream) => (&*stream).write(piece),
            Stream::Unix(stream) => (&*stream).write(piece),
        }
    }
}
