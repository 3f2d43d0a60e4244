//! A client's link over a socket, and a plain socket as the server that it asks.

use mica_client::{Link, UdpLink};
use std::net::UdpSocket;
use std::test::Fail;
use std::time::Duration;

// What is sent comes to the port that it is for, and replies come back, in order and as far as there is room. Where nothing comes for a second
// the link ends.
#[test]
fn a_link_asks_and_ends_after_a_silence(rt: HostRuntime) -> Result<(), Fail> {
    let server = UdpSocket::bind(&rt, "127.0.0.1:0")?;
    let other = UdpSocket::bind(&rt, "127.0.0.1:0")?;
    server.set_read_timeout(Some(Duration::from_secs(5)))?;
    other.set_read_timeout(Some(Duration::from_secs(5)))?;
    let mut link = UdpLink::new(&rt);
    link.set_silence(1);
    assert!(&rt; link.send(other.local_addr()?.port(), b"other").is_ok());
    assert!(&rt; link.send(server.local_addr()?.port(), b"ask").is_ok());
    let mut out = [0; 8];
    assert!(&rt; other.recv(&mut out)? == 5 && &out[..5] == b"other".as_slice());
    let (count, client) = server.recv_from(&mut out)?;
    assert!(&rt; &out[..count] == b"ask".as_slice());
    server.send_to(b"reply", client)?;
    server.send_to(b"longer than the room", client)?;
    assert!(&rt; link.recv(&mut out) == Ok(Some(5)) && &out[..5] == b"reply".as_slice());
    assert!(&rt; link.recv(&mut out) == Ok(Some(8)) && &out == b"longer t");
    assert!(&rt; link.recv(&mut out) == Ok(None));
    Ok(())
}
