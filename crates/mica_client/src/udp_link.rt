//! A UDP socket of this machine.
ghost use Rattle.std.specs.Prelude.{◌≡◌, ◌≤◌, false, None, length, IfOk, IfSome};

use crate::Link;
use libc::net as c;
use outside::Failed;
use std::io::{self, ErrorKind};
use std::net::{Net as Sockets, UdpSocket};
use std::os::fd::AsRawFd;
use std::time::Duration;

/// The silence of a new link, in seconds.
const SILENCE: u32 = 5;

/// How many bytes of datagrams may wait at a socket: more than any system gives.
const WAITING_LEN: i32 = 1 << 30;

/// A UDP socket, from which datagrams go to ports of 127.0.0.1. The first one that is sent opens it, at a port that the system picks.
/// It takes a datagram from any sender of this machine, and tells nothing of content. Where nothing comes for the silence, it has ended.
#[derive(Drop)]
pub struct UdpLink<'a, R> {
    rt: &'a R,
    socket: Option<UdpSocket>,
    silence: u32,
    ended: bool,
    faults: u64,
}

impl<'a, R: Sockets> UdpLink<'a, R> {
    /// A link with no socket yet.
    pub fn new(rt: &'a R) -> UdpLink<'a, R>
        ensures faults { ⟦<UdpLink<'a, R> as Link>⟧.faults result ≡ 0 }
        ensures open { ⟦<UdpLink<'a, R> as Link>⟧.has_ended result ≡ false }
    {
        UdpLink {
            rt,
            socket: None,
            silence: SILENCE,
            ended: false,
            faults: 0,
        }
    }
}

/// Asks for the largest receive buffer that the system gives.
fn widen(socket: &UdpSocket) {
    let mut value = [0; 16];
    value[..4].copy_from_slice(&WAITING_LEN.to_ne_bytes());
    let fd = socket.as_raw_fd();
    let _unheeded = unsafe { c::setsockopt(fd, c::SOL_SOCKET, c::SO_RCVBUF, &value, 4) };
}

/// A socket whose receive gives up after so many seconds.
fn open<R: Sockets>(rt: &R, silence: u32) -> io::Result<UdpSocket> {
    let socket = UdpSocket::bind(rt, ("127.0.0.1", 0))?;
    widen(&socket);
    socket.set_read_timeout(Some(Duration::from_secs(u64::from(silence))))?;
    Ok(socket)
}

/// Sends a whole datagram. A wait that the system interrupts begins again.
fn send_whole(socket: &UdpSocket, port: u16, piece: &[u8]) -> Result<(), Failed> {
    for _ in 0..u64::MAX {
        match socket.send_to(piece, ("127.0.0.1", port)) {
            Err(error) if error.kind() == ErrorKind::Interrupted => {}
            Ok(count) if count == piece.len() => return Ok(()),
            _ => return Err(Failed),
        }
    }
    Err(Failed)
}

/// The next datagram, as far as it fits, or nothing after the silence. A wait that the system interrupts begins again.
fn receive(socket: &UdpSocket, out: &mut [u8]) -> Result<Option<usize>, Failed>
    ensures { IfOk result (λ got. IfSome got (λ n. n ≤ length out.new)) }
{
    for _ in 0..u64::MAX {
        match socket.recv(out) {
            Ok(count) => return Ok(Some(count)),
            Err(error) => match error.kind() {
                ErrorKind::Interrupted => {}
                ErrorKind::WouldBlock => return Ok(None),
                _ => return Err(Failed),
            },
        }
    }
    Err(Failed)
}

impl<'a, R: Sockets> Link for UdpLink<'a, R> {
    ghost talk = { λ _. None };

    ghost faults = { λ l. l.faults };

    ghost has_ended = { λ l. l.ended };

    ghost script = { λ _. None };

    ghost silence = { λ l. l.silence };

    /// Where it was another, the socket is closed, and the next datagram that is sent opens one.
    fn set_silence(&mut self, seconds: u32) {
        if seconds != self.silence {
            self.socket = None;
        }
        self.silence = seconds;
    }

    fn send(&mut self, port: u16, piece: &[u8]) -> Result<(), Failed> {
        if self.socket.is_none() {
            self.socket = open(self.rt, self.silence).ok();
        }
        if let Some(socket) = &self.socket {
            if send_whole(socket, port, piece).is_ok() {
                return Ok(());
            }
        }
        self.faults = self.faults.saturating_add(1);
        Err(Failed)
    }

    /// Where no socket is open nothing can come, which is a fault.
    fn recv(&mut self, out: &mut [u8]) -> Result<Option<usize>, Failed> {
        if let Some(socket) = &self.socket {
            if let Ok(got) = receive(socket, out) {
                self.ended = self.ended || got.is_none();
                return Ok(got);
            }
        }
        self.faults = self.faults.saturating_add(1);
        Err(Failed)
    }
}
