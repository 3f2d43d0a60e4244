//! How a share over TCP turns connections away, how it ends, and which seconds it tells.

use crate::port::{Flags, Share, new_share};
use connections::{Event, Input};
use host_outside::StdClock;
use outside::Clock;
use std::io::{Read, Write};
use std::net::TcpStream;
use std::process::Abort;
use std::sync::Wait;
use std::sync::atomic::{AtomicBool, Ordering};
use std::test::Fail;
use std::thread::{join, sleep};
use std::time::Duration;

/// The share turns one connection away, and opens none before.
fn expect_turned_away(rt: &impl Abort, share: &mut Share<'_, impl Wait, StdClock>) {
    for _ in 0..100u32 {
        match share.report(rt) {
            Ok(Event::TurnedAway) => return,
            Ok(Event::Ready(_)) => {}
            _ => break,
        }
    }
    panic!(rt; "none was turned away");
}

/// The client hears that there are too many, and then the end.
fn expect_too_many(rt: &impl Abort, client: &mut TcpStream) -> Result<(), Fail> {
    let mut words = [0; 64];
    let count = client.read(&mut words)?;
    assert!(rt; &words[..count] == b"ERROR Too many open connections\r\n".as_slice());
    assert!(rt; client.read(&mut words)? == 0);
    Ok(())
}

// Connections beyond the bound are told so and let go, also one that has said something. Who was there is served meanwhile, and one more is taken in once another has gone.
#[test]
fn one_too_many_is_turned_away(rt: HostRuntime) -> Result<(), Fail> {
    let flags = Flags::new();
    let (mut share, port) = new_share(&rt, StdClock::new(&rt), &flags, 1);
    let (mut one, first) = share.join(&rt, port)?;
    let mut silent = TcpStream::connect(&rt, ("127.0.0.1", port))?;
    silent.set_read_timeout(Some(Duration::from_secs(5)))?;
    expect_turned_away(&rt, &mut share);
    expect_too_many(&rt, &mut silent)?;
    let mut asking = TcpStream::connect(&rt, ("127.0.0.1", port))?;
    asking.set_read_timeout(Some(Duration::from_secs(5)))?;
    asking.write_all(b"get a\r\n")?;
    expect_turned_away(&rt, &mut share);
    expect_too_many(&rt, &mut asking)?;
    one.write_all(b"still")?;
    let mut out = [0; 16];
    let input = share.input_of(&rt, first, &mut out);
    assert!(&rt; matches!(input, Ok(Input::All(5))) && out.starts_with(b"still"));
    share.close(first);
    let (mut next, second) = share.join(&rt, port)?;
    next.write_all(b"here")?;
    let input = share.input_of(&rt, second, &mut out);
    assert!(&rt; matches!(input, Ok(Input::All(4))) && out.starts_with(b"here"));
    Ok(())
}

/// Whether the share ends at one of its next reports.
fn ends(share: Share<'_, impl Wait, StdClock>) -> bool {
    let mut left = Some(share);
    for _ in 0..100u32 {
        left = match left {
            Some(share) => share.after_report(),
            None => return true,
        };
    }
    left.is_none()
}

// A share that waits ends soon after it is to stop, and has not failed. Then it reports nothing, though something came.
#[test]
fn a_share_ends_once_it_is_to_stop(rt: HostRuntime) -> Result<(), Fail> {
    let flags = Flags::new();
    let (mut share, port) = new_share(&rt, StdClock::new(&rt), &flags, 8);
    let (other, _) = new_share(&rt, StdClock::new(&rt), &flags, 8);
    let (mut client, _) = share.join(&rt, port)?;
    let (ended, ()) = join(
        &rt,
        || ends(share),
        || {
            sleep(&rt, Duration::from_millis(1_200));
            flags.stopping.store(true, Ordering::Relaxed);
        },
    );
    assert!(&rt; ended && !flags.has_failed.load(Ordering::Relaxed));
    client.write_all(b"unheard").ok();
    assert!(&rt; other.after_report().is_none());
    assert!(&rt; !flags.has_failed.load(Ordering::Relaxed));
    Ok(())
}

/// A clock that goes on by a second at each look. The next look may be held until this is taken back, and it is told once it has come.
#[derive(Clone, Copy)]
struct Held<'a> {
    rt: &'a HostRuntime,
    last: u64,
    holds: &'a AtomicBool,
    is_held: &'a AtomicBool,
}

impl<'a> Clock for Held<'a> {
    ghost use Rattle.std.specs.Prelude.{None};

    ghost view = { λ clock. record { last = clock.last; shows = None } };

    fn second(&mut self) -> u64 {
        if self.holds.load(Ordering::Relaxed) {
            self.is_held.store(true, Ordering::Relaxed);
            wait_until(self.rt, self.holds, false);
        }
        self.last = self.last.saturating_add(1);
        self.last
    }

    fn present(&self) -> u64 {
        self.last
    }
}

/// Waits until the flag is so, for five seconds at most.
fn wait_until(rt: &HostRuntime, flag: &AtomicBool, so: bool) {
    for _ in 0..5_000u32 {
        if flag.load(Ordering::Relaxed) == so {
            return;
        }
        sleep(rt, Duration::from_millis(1));
    }
}

// Which second it is a share looks behind the bytes of a read: what comes while it looks is not among them. Each look is told, and a later one is no earlier second.
#[test]
fn the_second_is_looked_at_behind_the_bytes(rt: HostRuntime) -> Result<(), Fail> {
    let holds = AtomicBool::new(false);
    let is_held = AtomicBool::new(false);
    let flags = Flags::new();
    let clock = Held {
        rt: &rt,
        last: 0,
        holds: &holds,
        is_held: &is_held,
    };
    let (mut share, port) = new_share(&rt, clock, &flags, 8);
    let (mut client, number) = share.join(&rt, port)?;
    client.write_all(b"ab")?;
    sleep(&rt, Duration::from_millis(50));
    let reported = share.report(&rt);
    assert!(&rt; matches!(reported, Ok(Event::Ready(_))));
    let before = share.second();
    holds.store(true, Ordering::Relaxed);
    let mut out = [0; 16];
    let (input, sent) = join(
        &rt,
        || share.read(number, &mut out),
        || {
            wait_until(&rt, &is_held, true);
            let sent = client.write_all(b"c");
            sleep(&rt, Duration::from_millis(50));
            holds.store(false, Ordering::Relaxed);
            sent
        },
    );
    sent?;
    assert!(&rt; matches!(input, Ok(Input::All(2))) && out.starts_with(b"ab"));
    assert!(&rt; share.second() == before.saturating_add(1));
    let input = share.input_of(&rt, number, &mut out);
    assert!(&rt; matches!(input, Ok(Input::All(1))) && out.starts_with(b"c"));
    assert!(&rt; share.second() == before.saturating_add(3));
    Ok(())
}
