//! UDP sockets of this machine.
ghost use Rattle.std.specs.Prelude.{◌≡◌, ◌+◌, ◌≤◌, ◌<◌, ◌⊎◌, ◌||◌, ◌==◌, true, false, [], None, option_map, is_some, is_none, is_err, length, take, IfOk, IfSome, IfNone, OnOk, OnErr, if◌then◌else◌};
ghost use Rattle.outside.specs.Faults.{Rose, faults_after};
ghost use Rattle.outside.specs.Traffic.{ReceivesNext, new_traffic, sent_one};
ghost use Rattle.outside.specs.PortStates.{BindsEnd};

use outside::{Datagrams, Failed, Net};
use std::io;
use std::io::ErrorKind;
use std::net::{Net as Sockets, SocketAddr, UdpSocket};
use std::sync::atomic::{AtomicBool, Ordering};
use std::time::Duration;

/// Linux's number for a queue of datagrams that has no room at this moment. The kind of this error is none of its own.
const ENOBUFS: i32 = 105;

/// After how many seconds an end that waits looks whether another one has failed.
const LOOK: u64 = 1;

/// A UDP socket bound to 127.0.0.1. It tells nothing of content, and waits where nothing comes. A reply that can't go to its peer is
/// lost, as any datagram may be, and is no fault.
#[derive(Drop)]
pub struct UdpEnd<'a> {
    socket: UdpSocket,
    port: u16,
    peer: Option<SocketAddr>,
    has_failed: Option<&'a AtomicBool>,
    /// Set once who serves is to stop.
    stopping: Option<&'a AtomicBool>,
    ended: bool,
    faults: u64,
}

/// The UDP sockets of this machine. It tells nothing of content.
#[derive(Drop)]
pub struct UdpNet<'a, R> {
    rt: &'a R,
    has_failed: Option<&'a AtomicBool>,
    stopping: Option<&'a AtomicBool>,
    binds: u32,
    first: u16,
    refused: u32,
    faults: u64,
    ghost in_range: { first + binds ≤ 65536 },
    ghost few: { refused ≤ binds },
}

impl<'a, R: Sockets> UdpNet<'a, R> {
    /// A net of sockets of this machine.
    pub fn new(rt: &'a R) -> UdpNet<'a, R>
        ensures unbound { ⟦<UdpNet<'a, R> as Net>⟧.binds result ≡ 0 }
        ensures faults { ⟦<UdpNet<'a, R> as Net>⟧.faults result ≡ 0 }
        ensures refused { ⟦<UdpNet<'a, R> as Net>⟧.refused result ≡ 0 }
    {
        UdpNet {
            rt,
            has_failed: None,
            stopping: None,
            binds: 0,
            first: 0,
            refused: 0,
            faults: 0,
        }
    }

    /// A net whose ends fail together: once a receive or a reply of one has failed, which `has_failed` tells, each other one fails at its
    /// next receive, and at the latest a second later. They end so once `stopping` is set.
    pub fn failing_whole(
        rt: &'a R,
        has_failed: &'a AtomicBool,
        stopping: &'a AtomicBool,
    ) -> UdpNet<'a, R>
        ensures unbound { ⟦<UdpNet<'a, R> as Net>⟧.binds result ≡ 0 }
        ensures faults { ⟦<UdpNet<'a, R> as Net>⟧.faults result ≡ 0 }
        ensures refused { ⟦<UdpNet<'a, R> as Net>⟧.refused result ≡ 0 }
    {
        UdpNet {
            rt,
            has_failed: Some(has_failed),
            stopping: Some(stopping),
            binds: 0,
            first: 0,
            refused: 0,
            faults: 0,
        }
    }
}

/// A socket at the port. Where ends fail together its receive gives up after a while, to look at the others.
fn bind_socket<R: Sockets>(
    rt: &R,
    port: u16,
    has_failed: Option<&AtomicBool>,
) -> io::Result<UdpSocket> {
    let socket = UdpSocket::bind(rt, ("127.0.0.1", port))?;
    if has_failed.is_some() {
        socket.set_read_timeout(Some(Duration::from_secs(LOOK)))?;
    }
    Ok(socket)
}

/// The next datagram, as far as it fits, and its sender; none where it is to stop. A wait that the system interrupts, or that looks at the other ends, begins again.
fn receive(
    socket: &UdpSocket,
    out: &mut [u8],
    has_failed: Option<&AtomicBool>,
    stopping: Option<&AtomicBool>,
) -> Result<Option<(usize, SocketAddr)>, Failed>
    ensures { IfOk result (λ got. IfSome got (λ r. r.0 ≤ length out.new)) }
{
    for _ in 0..u64::MAX {
        // An end that stopped counts as one that has failed, so this is asked last.
        let one_has_failed = tells(has_failed);
        if tells(stopping) {
            return Ok(None);
        }
        if one_has_failed {
            return Err(Failed);
        }
        match socket.recv_from(out) {
            Ok(received) => return Ok(Some(received)),
            Err(error) => match error.kind() {
                ErrorKind::Interrupted | ErrorKind::WouldBlock => {}
                _ => return Err(Failed),
            },
        }
    }
    Err(Failed)
}

/// Whether a flag that ends have in common is set.
fn tells(flag: Option<&AtomicBool>) -> bool {
    flag.is_some_and(|told| told.load(Ordering::Relaxed))
}

/// Whether a send failed by its peer, by a rule of the system or by the moment, so that the socket can go on: a sender's port that is 0,
/// a firewall that rejects, no way there, no room in the queue.
fn is_lost(error: &io::Error) -> bool {
    let is_of_the_peer = matches!(
        error.kind(),
        ErrorKind::InvalidInput
            | ErrorKind::PermissionDenied
            | ErrorKind::ConnectionRefused
            | ErrorKind::HostUnreachable
            | ErrorKind::NetworkUnreachable
    );
    is_of_the_peer || error.raw_os_error() == Some(ENOBUFS)
}

/// Sends the piece whole, or loses it where its peer can't be sent to. A send that the system interrupts begins again.
fn send(socket: &UdpSocket, piece: &[u8], peer: SocketAddr) -> Result<(), Failed> {
    for _ in 0..u64::MAX {
        match socket.send_to(piece, peer) {
            Ok(count) if count == piece.len() => return Ok(()),
            Err(error) if error.kind() == ErrorKind::Interrupted => {}
            Err(error) if is_lost(&error) => return Ok(()),
            _ => break,
        }
    }
    Err(Failed)
}

/// The count with one more fault, as far as it can count.
fn one_more(faults: u64) -> u64
    ensures counted { result ≡ faults_after true faults }
    ensures never_falls { faults ≤ result }
{
    faults.saturating_add(1)
}

impl<'a> UdpEnd<'a> {
    /// Counts a fault, and tells it to the ends that fail with this one.
    fn count_fault(&mut self)
        ensures counted { self.new ≡ record self.old { faults = faults_after true self.old.faults } }
        ensures never_fall { self.old.faults ≤ self.new.faults }
    {
        self.faults = one_more(self.faults);
        if let Some(has_failed) = self.has_failed {
            has_failed.store(true, Ordering::Relaxed);
        }
    }
}

impl<'a> Datagrams for UdpEnd<'a> {
    ghost port = { λ e. e.port };

    ghost traffic = { λ _. None };

    ghost faults = { λ e. e.faults };

    ghost has_ended = { λ e. e.ended };

    ghost has_received = { λ e. is_some e.peer };

    ghost script = { λ _. None };

    fn recv(&mut self, out: &mut [u8]) -> Result<Option<usize>, Failed>
        requires room { 0 < length out.old }
        requires open { self.old.ended ≡ false }
        ensures fits { IfOk result (λ got. IfSome got (λ n. n ≤ length out.old)) }
        ensures next { IfOk result (λ got. IfSome got (λ n. IfSome (⟦<UdpEnd<'a> as Datagrams>⟧.traffic self.old)
            (λ t. ReceivesNext t (take n out.new) (length out.old) (⟦<UdpEnd<'a> as Datagrams>⟧.traffic self.new)))) }
        ensures end { IfOk result (λ got. IfNone got (IfSome (⟦<UdpEnd<'a> as Datagrams>⟧.traffic self.old) (λ t. t.left ≡ []))) }
        ensures kept { IfOk result (λ got. IfNone got (⟦<UdpEnd<'a> as Datagrams>⟧.traffic self.new ≡ ⟦<UdpEnd<'a> as Datagrams>⟧.traffic self.old)) }
        ensures ended { IfOk result (λ got. ⟦<UdpEnd<'a> as Datagrams>⟧.has_ended self.new ≡ is_none got) }
        ensures received { IfOk result (λ got. ⟦<UdpEnd<'a> as Datagrams>⟧.has_received self.new ≡ (⟦<UdpEnd<'a> as Datagrams>⟧.has_received self.old || is_some got)) }
        ensures untaken { OnErr result (⟦<UdpEnd<'a> as Datagrams>⟧.traffic self.new ≡ ⟦<UdpEnd<'a> as Datagrams>⟧.traffic self.old) }
        ensures still_open { OnErr result (⟦<UdpEnd<'a> as Datagrams>⟧.has_ended self.new ≡ false) }
        ensures still_received { OnErr result (⟦<UdpEnd<'a> as Datagrams>⟧.has_received self.new ≡ ⟦<UdpEnd<'a> as Datagrams>⟧.has_received self.old) }
        ensures cause { OnErr result (Rose self.old.faults self.new.faults) }
        ensures never_fall { self.old.faults ≤ self.new.faults }
        ensures counted { self.new.faults ≡ faults_after (is_err result) self.old.faults }
        ensures port { self.new.port ≡ self.old.port }
    {
        let Ok(received) = receive(&self.socket, out, self.has_failed, self.stopping) else {
            self.count_fault();
            return Err(Failed);
        };
        let Some((count, peer)) = received else {
            self.ended = true;
            return Ok(None);
        };
        self.peer = Some(peer);
        Ok(Some(count))
    }

    fn reply(&mut self, piece: &[u8]) -> Result<(), Failed>
        requires some { 0 < length piece.now }
        requires peer { is_some self.old.peer ≡ true }
        ensures sent { OnOk result (⟦<UdpEnd<'a> as Datagrams>⟧.traffic self.new ≡ option_map (sent_one piece.now) (⟦<UdpEnd<'a> as Datagrams>⟧.traffic self.old)) }
        ensures unsent { OnErr result (⟦<UdpEnd<'a> as Datagrams>⟧.traffic self.new ≡ ⟦<UdpEnd<'a> as Datagrams>⟧.traffic self.old) }
        ensures peer { self.new.peer ≡ self.old.peer }
        ensures ended { self.new.ended ≡ self.old.ended }
        ensures cause { OnErr result (Rose self.old.faults self.new.faults) }
        ensures never_fall { self.old.faults ≤ self.new.faults }
        ensures counted { self.new.faults ≡ faults_after (is_err result) self.old.faults }
        ensures port { self.new.port ≡ self.old.port }
    {
        let Some(peer) = self.peer else {
            unreachable!();
        };
        let sent = send(&self.socket, piece, peer);
        if sent.is_err() {
            self.count_fault();
        }
        sent
    }
}

impl<'a, R: Sockets> Net for UdpNet<'a, R> {
    type End = UdpEnd<'a>;

    ghost faults = { λ n. n.faults };

    ghost binds = { λ n. n.binds };

    ghost first = { λ n. n.first };

    ghost refused = { λ n. n.refused };

    ghost ports = { λ _. None };

    ghost fails = { λ _. None };

    fn bind(&mut self, port: u16) -> Result<UdpEnd<'a>, Failed>
        requires { self.old.binds ≡ 0 ⊎ port ≡ self.old.first + self.old.binds }
        ensures binds { self.new.binds ≡ self.old.binds + 1 }
        ensures first { self.new.first ≡ (if self.old.binds == 0 then port else self.old.first) }
        ensures refused { self.new.refused
            ≡ (if is_err result then self.old.refused + 1 else self.old.refused) }
        ensures port { IfOk result (λ e. e.port ≡ port) }
        ensures no_faults { IfOk result (λ e. e.faults ≡ 0) }
        ensures open { IfOk result (λ e. ⟦<UdpEnd<'a> as Datagrams>⟧.has_ended e ≡ false) }
        ensures unused { IfOk result (λ e. ⟦<UdpEnd<'a> as Datagrams>⟧.has_received e ≡ false) }
        ensures fresh { IfOk result (λ e. IfSome (⟦<UdpEnd<'a> as Datagrams>⟧.traffic e) (λ t. t ≡ new_traffic t.left)) }
        ensures bound { IfOk result (λ e. IfSome (⟦<UdpNet<'a, R> as Net>⟧.ports self.old) (λ old. BindsEnd old port
            (⟦<UdpEnd<'a> as Datagrams>⟧.traffic e) (⟦<UdpEnd<'a> as Datagrams>⟧.script e) (⟦<UdpNet<'a, R> as Net>⟧.ports self.new))) }
        ensures unbound { OnErr result (⟦<UdpNet<'a, R> as Net>⟧.ports self.new ≡ ⟦<UdpNet<'a, R> as Net>⟧.ports self.old) }
        ensures cause { OnErr result (Rose self.old.faults self.new.faults) }
        ensures never_fall { self.old.faults ≤ self.new.faults }
        ensures counted { self.new.faults ≡ faults_after (is_err result) self.old.faults }
    {
        if self.binds == 0 {
            self.first = port;
        }
        self.binds += 1;
        match bind_socket(self.rt, port, self.has_failed) {
            Ok(socket) => Ok(UdpEnd {
                socket,
                port,
                peer: None,
                has_failed: self.has_failed,
                stopping: self.stopping,
                ended: false,
                faults: 0,
            }),
            Err(_) => {
                self.refused += 1;
                self.faults = one_more(self.faults);
                Err(Failed)
            }
        }
    }

    fn release(&mut self, end: UdpEnd<'a>) {
        self.faults = self.faults.saturating_add(end.faults);
    }
}
