//! The ports of a net over memory.
ghost use Rattle.std.specs.Prelude.{◌≡◌, ◌==◌, false, true, IfSome, IfNone, OnOk, OnErr, position};
ghost use Rattle.outside.specs.PortStates.{out, with_port, with_datagram, takes_datagram, is_waiting};
ghost use Rattle.memory_outside.specs.MemoryPorts.{ports_in, told_port};

use crate::memory_end::MemEnd;
use crate::setup::Setup;
use outside::{Bytes, NoMemory};
use std::mem;

/// Where the end of a port is.
#[derive(Drop)]
pub enum Place {
    Waiting(Setup),
    Out,
    Back(MemEnd),
}

/// A port that was added.
#[derive(Drop)]
pub struct MemPort {
    pub number: u16,
    pub place: Place,
}

/// Where the port of this number stands.
pub fn find(ports: &[MemPort], number: u16) -> Option<usize>
    ensures { result ≡ position (λ p. p.number == number) ports.now }
{
    ports.iter().position(|port| port.number == number)
}

/// Takes what the port waits with, where it waits. Its end is out from then on.
pub fn take_setup(ports: &mut Vec<MemPort>, number: u16) -> Option<Setup>
    ensures waited { IfSome result (λ setup. ports_in ports.old.items number ≡ told_port (Place.Waiting setup)) }
    ensures taken { IfSome result (λ _. ports_in ports.new.items ≡ with_port number out (ports_in ports.old.items)) }
    ensures no_setup { IfNone result (is_waiting (ports_in ports.old.items number) ≡ false) }
    ensures same { IfNone result (ports.new.items ≡ ports.old.items) }
{
    let at = find(ports.as_slice(), number)?;
    match mem::replace(&mut ports[at].place, Place::Out) {
        Place::Waiting(setup) => Some(setup),
        place => {
            ports[at].place = place;
            None
        }
    }
}

/// Puts an end back at its port.
pub fn put_back(ports: &mut Vec<MemPort>, end: MemEnd)
    requires { ports_in ports.old.items end.port ≡ out }
    ensures { ports_in ports.new.items ≡ with_port end.port (told_port (Place.Back end)) (ports_in ports.old.items) }
{
    let Some(at) = find(ports.as_slice(), end.port) else {
        unreachable!();
    };
    ports[at].place = Place::Back(end);
}

impl Place {
    /// Adds a datagram at the end of those that are left, where no end is out.
    fn add(&mut self, datagram: Bytes) -> Result<(), NoMemory>
        requires { takes_datagram (told_port self.old) ≡ true }
        ensures ok { OnOk result (told_port self.new ≡ with_datagram datagram (told_port self.old)) }
        ensures err { OnErr result (told_port self.new ≡ told_port self.old) }
    {
        match self {
            Place::Waiting(setup) => setup.datagrams.push(datagram)?,
            Place::Back(end) => end.datagrams.push(datagram)?,
            Place::Out => unreachable!(),
        }
        Ok(())
    }
}

/// Adds a datagram at a port whose end is not out.
pub fn add_datagram(ports: &mut Vec<MemPort>, number: u16, datagram: Bytes) -> Result<(), NoMemory>
    requires { takes_datagram (ports_in ports.old.items number) ≡ true }
    ensures ok { OnOk result (ports_in ports.new.items
        ≡ with_port number (with_datagram datagram (ports_in ports.old.items number)) (ports_in ports.old.items)) }
    ensures err { OnErr result (ports_in ports.new.items ≡ ports_in ports.old.items) }
{
    let Some(at) = find(ports.as_slice(), number) else {
        unreachable!();
    };
    ports[at].place.add(datagram)
}

/// A new end at the port.
pub fn new_end(port: u16, setup: Setup) -> MemEnd
    ensures port { result.port ≡ port }
    ensures datagrams { result.datagrams ≡ setup.datagrams }
    ensures unused { (result.at ≡ 0) × (result.recvs ≡ 0) × (result.replies ≡ 0) }
    ensures sent { result.sent ≡ setup.sent }
    ensures fails { (result.recv_fails ≡ setup.recv_fails) × (result.reply_fails ≡ setup.reply_fails) }
    ensures open { (result.ended ≡ false) × (result.faults ≡ 0) }
{
    MemEnd {
        port,
        datagrams: setup.datagrams,
        at: 0,
        sent: setup.sent,
        recv_fails: setup.recv_fails,
        recvs: 0,
        reply_fails: setup.reply_fails,
        replies: 0,
        ended: false,
        faults: 0,
    }
}
