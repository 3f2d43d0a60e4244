//! An end of a UDP socket, and a plain socket as its client.
ghost use Rattle.std.specs.Prelude.{◌≡◌, false, true};

use host_outside::{UdpEnd, UdpNet};
use outside::{Datagrams, Net};
use std::net::{Net as Sockets, UdpSocket};
use std::process::Abort;
use std::sync::atomic::{AtomicBool, Ordering};
use std::test::Fail;
use std::thread::{join, sleep};
use std::time::Duration;

/// The flags of a net: whether an end has failed, and whether all are to stop.
#[derive(Drop)]
struct Flags {
    has_failed: AtomicBool,
    stopping: AtomicBool,
}

impl Flags {
    fn new() -> Flags {
        Flags {
            has_failed: AtomicBool::new(false),
            stopping: AtomicBool::new(false),
        }
    }
}

/// An end at the first of some ports that is free, and this port.
fn new_end<'a, R: Abort + Sockets>(rt: &'a R, flags: &'a Flags) -> (UdpEnd<'a>, u16)
    ensures { ⟦<UdpEnd<'a> as Datagrams>⟧.has_ended result.0 ≡ false }
{
    for port in 47_000..47_100u16 {
        if let Ok(end) = UdpNet::failing_whole(rt, &flags.has_failed, &flags.stopping).bind(port) {
            return (end, port);
        }
    }
    panic!(rt; "no port is free");
}

/// The end receives this much of the datagram that comes next.
fn expect_datagram<D: Datagrams>(rt: &impl Abort, end: &mut D, given: &[u8])
    requires { D.has_ended end.old ≡ false }
    ensures open { D.has_ended end.new ≡ false }
    ensures received { D.has_received end.new ≡ true }
{
    let mut out = [0; 8];
    let Ok(Some(count)) = end.recv(&mut out) else {
        panic!(rt; "no datagram came");
    };
    assert!(rt; &out[..count] == given);
}

#[test]
fn datagrams_come_in_order_and_replies_go_back(rt: HostRuntime) -> Result<(), Fail> {
    let flags = Flags::new();
    let (mut end, port) = new_end(&rt, &flags);
    let client = UdpSocket::bind(&rt, "127.0.0.1:0")?;
    client.send_to(b"hello", ("127.0.0.1", port))?;
    client.send_to(b"longer than the room", ("127.0.0.1", port))?;
    client.send_to(b"", ("127.0.0.1", port))?;
    expect_datagram(&rt, &mut end, b"hello");
    expect_datagram(&rt, &mut end, b"longer t");
    expect_datagram(&rt, &mut end, b"");
    assert!(&rt; end.reply(b"world!").is_ok());
    let mut back = [0; 16];
    let (count, from) = client.recv_from(&mut back)?;
    assert!(&rt; &back[..count] == b"world!".as_slice() && from.port() == port);
    UdpNet::new(&rt).release(end);
    Ok(())
}

#[test]
fn a_taken_port_is_refused(rt: HostRuntime) -> Result<(), Fail> {
    let flags = Flags::new();
    let (end, port) = new_end(&rt, &flags);
    let mut net = UdpNet::new(&rt);
    assert!(&rt; net.bind(port).is_err());
    net.release(end);
    Ok(())
}

// A reply goes to the sender of the last datagram, and what is sent to another address of this machine does not come.
#[test]
fn a_reply_goes_to_the_last_sender(rt: HostRuntime) -> Result<(), Fail> {
    let flags = Flags::new();
    let (mut end, port) = new_end(&rt, &flags);
    let one = UdpSocket::bind(&rt, "127.0.0.1:0")?;
    let other = UdpSocket::bind(&rt, "127.0.0.1:0")?;
    one.send_to(b"past", ("127.0.0.2", port))?;
    one.send_to(b"one", ("127.0.0.1", port))?;
    expect_datagram(&rt, &mut end, b"one");
    other.send_to(b"other", ("127.0.0.1", port))?;
    expect_datagram(&rt, &mut end, b"other");
    assert!(&rt; end.reply(b"back").is_ok());
    let mut back = [0; 16];
    let (count, _) = other.recv_from(&mut back)?;
    assert!(&rt; &back[..count] == b"back".as_slice());
    UdpNet::new(&rt).release(end);
    Ok(())
}

// An end that waits fails once another end of its net has.
#[test]
fn ends_fail_together(rt: HostRuntime) -> Result<(), Fail> {
    let flags = Flags::new();
    let (mut end, _) = new_end(&rt, &flags);
    let (received, ()) = join(
        &rt,
        || end.recv(&mut [0; 8]),
        || {
            sleep(&rt, Duration::from_millis(1_500));
            flags.has_failed.store(true, Ordering::Relaxed);
        },
    );
    assert!(&rt; received.is_err());
    UdpNet::new(&rt).release(end);
    Ok(())
}

// And it ends where it is to stop.
#[test]
fn ends_stop(rt: HostRuntime) -> Result<(), Fail> {
    let flags = Flags::new();
    let (mut end, _) = new_end(&rt, &flags);
    let (received, ()) = join(
        &rt,
        || end.recv(&mut [0; 8]),
        || {
            sleep(&rt, Duration::from_millis(1_500));
            flags.stopping.store(true, Ordering::Relaxed);
        },
    );
    assert!(&rt; matches!(received, Ok(None)) && !flags.has_failed.load(Ordering::Relaxed));
    UdpNet::new(&rt).release(end);
    Ok(())
}
