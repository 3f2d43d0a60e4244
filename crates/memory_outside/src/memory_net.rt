//! A net over memory.
ghost use Rattle.std.specs.Prelude.{◌≡◌, ◌+◌, ◌≤◌, [], true, Some, IfOk, IfSome, OnOk, OnErr, option_map};
ghost use Rattle.outside.specs.PortStates.{absent, waiting, with_port, with_datagram, takes_datagram, is_added, reply_sent};
ghost use Rattle.memory_outside.specs.MemoryPorts.{ports_in};

use crate::memory_end::MemEnd;
use crate::memory_ports::{MemPort, Place, add_datagram, find, new_end, put_back, take_setup};
use crate::sent_room::SentRoom;
use crate::setup::Setup;
use outside::{Bytes, Failed, Net, NoMemory};
use std::alloc::Global;

/// A net over memory, whose binds fail at the listed calls and at a port that does not wait.
#[derive(Drop)]
pub struct MemNet {
    ports: Vec<MemPort>,
    fails: Vec<u32>,
    binds: u32,
    first: u16,
    refused: u32,
    faults: u64,
    ghost in_range: { first + binds ≤ 65536 },
    ghost few: { refused ≤ binds },
}

impl MemNet {
    /// A net without ports. The calls of `bind` that are to fail are listed by their numbers from 1.
    pub fn new(alloc: Global, fails: &[u32]) -> Result<Self, NoMemory>
        ensures ports { IfOk result (λ n. ⟦<MemNet as Net>⟧.ports n ≡ Some (λ number. absent)) }
        ensures fails { IfOk result (λ n. ⟦<MemNet as Net>⟧.fails n ≡ Some fails.now) }
        ensures unbound { IfOk result (λ n. ⟦<MemNet as Net>⟧.binds n ≡ 0) }
        ensures no_faults { IfOk result (λ n. ⟦<MemNet as Net>⟧.faults n ≡ 0) }
        ensures none_refused { IfOk result (λ n. ⟦<MemNet as Net>⟧.refused n ≡ 0) }
    {
        Ok(MemNet {
            ports: Vec::new(alloc),
            fails: Vec::from_slice(alloc, fails)?,
            binds: 0,
            first: 0,
            refused: 0,
            faults: 0,
        })
    }

    /// Whether this port was added.
    pub fn has_port(&self, port: u16) -> bool
        ensures { IfSome (⟦<MemNet as Net>⟧.ports self.now) (λ all. result ≡ is_added (all port)) }
    {
        find(self.ports.as_slice(), port).is_some()
    }

    /// A new port, with room for so many bytes of replies. The calls of its end that are to fail are listed by their numbers from 1.
    pub fn add_port(
        &mut self,
        alloc: Global,
        port: u16,
        room: u32,
        recv_fails: &[u32],
        reply_fails: &[u32],
    ) -> Result<(), NoMemory>
        requires { IfSome (⟦<MemNet as Net>⟧.ports self.old) (λ all. all port ≡ absent) }
        ensures ok { OnOk result (⟦<MemNet as Net>⟧.ports self.new ≡ option_map (with_port port
            (waiting [] (record { recv_fails = recv_fails.now; recvs = 0; reply_fails = reply_fails.now; replies = 0; room = room })))
            (⟦<MemNet as Net>⟧.ports self.old)) }
        ensures err { OnErr result (⟦<MemNet as Net>⟧.ports self.new ≡ ⟦<MemNet as Net>⟧.ports self.old) }
        ensures same { self.new ≡ record self.old { ports = self.new.ports } }
    {
        let setup = Setup {
            datagrams: Vec::new(alloc),
            sent: SentRoom::new(alloc, room)?,
            recv_fails: Vec::from_slice(alloc, recv_fails)?,
            reply_fails: Vec::from_slice(alloc, reply_fails)?,
        };
        self.ports.insert(
            0,
            MemPort {
                number: port,
                place: Place::Waiting(setup),
            },
        )?;
        Ok(())
    }

    /// Adds a datagram at the end of those that the port has left. No end of the port is out.
    pub fn add_datagram(&mut self, alloc: Global, port: u16, from: &[u8]) -> Result<(), NoMemory>
        requires { IfSome (⟦<MemNet as Net>⟧.ports self.old) (λ all. takes_datagram (all port) ≡ true) }
        ensures ok { OnOk result (⟦<MemNet as Net>⟧.ports self.new ≡ option_map
            (λ all. with_port port (with_datagram from.now (all port)) all) (⟦<MemNet as Net>⟧.ports self.old)) }
        ensures err { OnErr result (⟦<MemNet as Net>⟧.ports self.new ≡ ⟦<MemNet as Net>⟧.ports self.old) }
        ensures same { self.new ≡ record self.old { ports = self.new.ports } }
    {
        add_datagram(&mut self.ports, port, Bytes::copy(alloc, from)?)
    }

    /// The reply datagram of this number, from 0, that a released port sent.
    pub fn sent(&self, port: u16, number: u32) -> Option<&[u8]>
        ensures { IfSome (⟦<MemNet as Net>⟧.ports self.now)
            (λ all. option_map (λ r. r.now) result ≡ reply_sent (all port) number) }
    {
        let at = find(self.ports.as_slice(), port)?;
        match &self.ports[at].place {
            Place::Back(end) => end.sent.get(number as usize),
            Place::Waiting(_) | Place::Out => None,
        }
    }
}

impl Net for MemNet {
    type End = MemEnd;

    ghost faults = { λ n. n.faults };

    ghost binds = { λ n. n.binds };

    ghost first = { λ n. n.first };

    ghost refused = { λ n. n.refused };

    ghost ports = { λ n. Some (ports_in n.ports.items) };

    ghost fails = { λ n. Some n.fails.items };

    fn bind(&mut self, port: u16) -> Result<MemEnd, Failed> {
        if self.binds == 0 {
            self.first = port;
        }
        self.binds += 1;
        if !self.fails.contains(&self.binds) {
            if let Some(setup) = take_setup(&mut self.ports, port) {
                return Ok(new_end(port, setup));
            }
        }
        self.refused += 1;
        self.faults = self.faults.saturating_add(1);
        Err(Failed)
    }

    fn release(&mut self, end: MemEnd) {
        self.faults = self.faults.saturating_add(end.faults);
        put_back(&mut self.ports, end);
    }
}
