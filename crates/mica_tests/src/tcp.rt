//! Connections over TCP: what passes, who hears it, and how a share ends.
ghost use Rattle.std.specs.Prelude.{◌<◌, length};

use crate::port::{Flags, Share, new_share, share_at};
use connections::{Broken, Event, Input};
use host_outside::StdClock;
use outside::Clock;
use std::io::{Read, Write};
use std::net::{Shutdown, TcpStream};
use std::process::Abort;
use std::sync::Wait;
use std::sync::atomic::Ordering;
use std::test::Fail;
use std::thread::{join, sleep};
use std::time::Duration;

/// The client says this, and it comes under the number, and nothing else does.
fn expect_said(
    rt: &impl Abort,
    share: &mut Share<'_, impl Wait, StdClock>,
    client: &mut TcpStream,
    number: u32,
    said: &[u8],
) -> Result<(), Fail> {
    client.write_all(said)?;
    let mut out = [0; 16];
    let count = match share.input_of(rt, number, &mut out) {
        Ok(Input::All(count)) => count,
        _ => 0,
    };
    assert!(rt; count == said.len() && out.starts_with(said));
    Ok(())
}

/// What is written under the number comes to the client, and nothing else did.
fn expect_heard(
    rt: &impl Abort,
    share: &mut Share<'_, impl Wait, StdClock>,
    client: &mut TcpStream,
    number: u32,
    reply: &[u8],
) -> Result<(), Fail>
    requires some { 0 < length reply.now }
{
    let taken = share.write(number, reply).unwrap_or(0);
    assert!(rt; taken == reply.len());
    let mut back = [0; 16];
    let count = client.read(&mut back)?;
    assert!(rt; &back[..count] == reply);
    Ok(())
}

// Each of two clients hears what is sent to it, also once one of them has closed its half, and once the other one is closed.
#[test]
fn two_clients_hear_their_own(rt: HostRuntime) -> Result<(), Fail> {
    let flags = Flags::new();
    let (mut share, port) = new_share(&rt, StdClock::new(&rt), &flags, 8);
    let (mut one, first) = share.join(&rt, port)?;
    let (mut two, second) = share.join(&rt, port)?;
    expect_said(&rt, &mut share, &mut one, first, b"one")?;
    expect_said(&rt, &mut share, &mut two, second, b"second")?;
    expect_heard(&rt, &mut share, &mut one, first, b"ONE")?;
    expect_heard(&rt, &mut share, &mut two, second, b"THE SECOND")?;
    one.shutdown(Shutdown::Write)?;
    let mut out = [0; 16];
    let input = share.input_of(&rt, first, &mut out);
    assert!(&rt; matches!(input, Ok(Input::Ended)));
    expect_heard(&rt, &mut share, &mut one, first, b"still")?;
    share.close(first);
    assert!(&rt; one.read(&mut out)? == 0);
    expect_said(&rt, &mut share, &mut two, second, b"still here")?;
    expect_heard(&rt, &mut share, &mut two, second, b"and there")?;
    assert!(&rt; !flags.has_failed.load(Ordering::Relaxed));
    Ok(())
}

// What is longer than the room of a read is read in pieces, in order, and nothing of another client stands between.
#[test]
fn a_long_talk_is_read_in_pieces(rt: HostRuntime) -> Result<(), Fail> {
    let flags = Flags::new();
    let (mut share, port) = new_share(&rt, StdClock::new(&rt), &flags, 8);
    let (mut one, first) = share.join(&rt, port)?;
    let (mut two, second) = share.join(&rt, port)?;
    one.write_all(b"get fruit\r\nget other\r\n")?;
    let mut out = [0; 16];
    let input = share.input_of(&rt, first, &mut out);
    assert!(&rt; matches!(input, Ok(Input::Bytes(16))) && out.starts_with(b"get fruit\r\nget o"));
    expect_said(&rt, &mut share, &mut two, second, b"se")?;
    let input = share.read(first, &mut out);
    assert!(&rt; matches!(input, Ok(Input::All(6))) && out.starts_with(b"ther\r\n"));
    expect_said(&rt, &mut share, &mut two, second, b"cond")
}

/// Writes bytes that count up to 250 again and again, as far as they are taken, and says how many were.
fn fill(rt: &impl Abort, share: &mut Share<'_, impl Wait, StdClock>, number: u32) -> u32 {
    let mut piece = [0; 4_016];
    for at in 0..4_016usize {
        piece[at] = (at % 251) as u8;
    }
    let mut sent = 0u32;
    for _ in 0..1_000_000u32 {
        match share.write(number, &piece[sent as usize % 251..]) {
            Ok(0) => return sent,
            Ok(count) => sent = sent.saturating_add(u32::try_from(count).unwrap_or(u32::MAX)),
            Err(Broken) => panic!(rt; "the connection is broken"),
        }
    }
    panic!(rt; "all was taken");
}

/// The client hears so many of these bytes.
fn expect_filled(rt: &impl Abort, client: &mut TcpStream, sent: u32) -> Result<(), Fail> {
    let mut room = [0; 4_096];
    let mut heard = 0u32;
    for _ in 0..1_000_000u32 {
        if heard == sent {
            return Ok(());
        }
        let count = client.read(&mut room)?;
        for byte in &room[..count] {
            assert!(rt; u32::from(*byte) == heard % 251);
            heard = heard.saturating_add(1);
        }
    }
    panic!(rt; "less came than was taken");
}

// What is not taken is told, and what was taken comes. A client that hears no more resets its connection, which is told, too.
#[test]
fn a_shut_window_and_a_reset_are_told(rt: HostRuntime) -> Result<(), Fail> {
    let flags = Flags::new();
    let (mut share, port) = new_share(&rt, StdClock::new(&rt), &flags, 8);
    let (mut one, first) = share.join(&rt, port)?;
    let (mut two, second) = share.join(&rt, port)?;
    let sent = fill(&rt, &mut share, first);
    expect_heard(&rt, &mut share, &mut two, second, b"meanwhile")?;
    expect_filled(&rt, &mut one, sent)?;
    expect_heard(&rt, &mut share, &mut one, first, b"more")?;
    let taken = share.write(second, b"unheard").unwrap_or(0);
    assert!(&rt; taken == 7);
    sleep(&rt, Duration::from_millis(50));
    drop(two);
    let mut out = [0; 16];
    let input = share.input_of(&rt, second, &mut out);
    assert!(&rt; input.is_err());
    expect_said(&rt, &mut share, &mut one, first, b"still here")
}

// A place is of its address alone, and of nobody else.
#[test]
fn a_place_is_of_one_address(rt: HostRuntime) -> Result<(), Fail> {
    let flags = Flags::new();
    let (_share, port) = new_share(&rt, StdClock::new(&rt), &flags, 8);
    assert!(&rt; TcpStream::connect(&rt, ("127.0.0.2", port)).is_err());
    assert!(&rt; share_at(&rt, StdClock::new(&rt), &flags, port, 8).is_none());
    Ok(())
}

// A share that waits fails once another has.
#[test]
fn shares_fail_together(rt: HostRuntime) -> Result<(), Fail> {
    let flags = Flags::new();
    let (mut share, _) = new_share(&rt, StdClock::new(&rt), &flags, 8);
    let (reported, ()) = join(
        &rt,
        || share.report(&rt),
        || {
            sleep(&rt, Duration::from_millis(1_500));
            flags.has_failed.store(true, Ordering::Relaxed);
        },
    );
    assert!(&rt; reported.is_err());
    Ok(())
}
