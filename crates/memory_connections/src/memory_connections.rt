//! Connections in memory.
ghost use Rattle.std.specs.Prelude.{◌≡◌, ◌<◌, [], false, IfOk};
ghost use Rattle.connections.specs.Log.{sent_of};

use crate::stage::Stage;
use connections::{Broken, Connections, Event, Input, Step};
use outside::{Failed, NoMemory};
use std::alloc::Global;

/// Connections in memory: everything that happens at their other ends is a schedule. Their calls take no memory.
#[derive(Drop)]
pub struct MemConnections<'a> {
    pub(crate) share: u16,
    pub(crate) stage: Stage<'a>,
    piece: u32,
    fails: Vec<u32>,
    calls: u32,
    pub(crate) ended: bool,
    pub(crate) faults: u64,
    ghost some: { 0 < piece },
}

impl<'a> MemConnections<'a> {
    /// Connections whose reads and writes move at most so many bytes each. The calls of `next` that are to fail are listed by their numbers from 1.
    pub fn new(
        alloc: Global,
        share: u16,
        schedule: &'a [Step],
        piece: u32,
        fails: &[u32],
    ) -> Result<Self, NoMemory>
        requires { 0 < piece }
        ensures share { IfOk result (λ c. c.share ≡ share) }
        ensures schedule { IfOk result (λ c. c.stage.schedule ≡ schedule.entry.now) }
        ensures entries { IfOk result (λ c. c.stage.entries ≡ []) }
        ensures script { IfOk result (λ c. (c.fails.items ≡ fails.now) × (c.calls ≡ 0) × (c.piece ≡ piece)) }
        ensures open { IfOk result (λ c. (c.ended ≡ false) × (c.faults ≡ 0)) }
    {
        Ok(MemConnections {
            share,
            stage: Stage::new(alloc, schedule)?,
            piece,
            fails: Vec::from_slice(alloc, fails)?,
            calls: 0,
            ended: false,
            faults: 0,
        })
    }

    /// All bytes that were sent for the connection that was made as this one, from 0.
    pub fn sent(&self, alloc: Global, connection: u32) -> Result<Vec<u8>, NoMemory>
        ensures { IfOk result (λ all. all.items ≡ sent_of connection self.now.stage.entries) }
    {
        self.stage.sent(alloc, connection as usize)
    }
}

impl<'a> Connections for MemConnections<'a> {
    ghost use Rattle.std.specs.Prelude.{Some};
    ghost use Rattle.connections.specs.Log.{second_of};
    ghost use Rattle.memory_connections.specs.MemoryConnections.{log_of};

    ghost share = { λ c. c.share };

    ghost log = { λ c. Some (log_of c) };

    ghost faults = { λ c. c.faults };

    ghost has_ended = { λ c. c.ended };

    ghost reports = { λ c. c.stage.room };

    ghost last = { λ c. second_of c.stage.entries };

    fn next(&mut self) -> Result<Option<Event>, Failed> {
        self.calls = self.calls.saturating_add(1);
        if self.fails.contains(&self.calls) {
            self.faults = self.faults.saturating_add(1);
            return Err(Failed);
        }
        let event = self.stage.next();
        self.ended = event.is_none();
        Ok(event)
    }

    fn second(&self) -> u64 {
        self.stage.second()
    }

    fn read(&mut self, number: u32, out: &mut [u8]) -> Result<Input, Broken> {
        let place = self.stage.place(number);
        self.stage.meet();
        let most = out.len().min(self.piece as usize);
        self.stage.read(place, most, out)
    }

    fn write(&mut self, number: u32, piece: &[u8]) -> Result<usize, Broken> {
        let place = self.stage.place(number);
        self.stage.meet();
        self.stage.write(place, self.piece as usize, piece)
    }

    fn again(&mut self, number: u32) {
        let place = self.stage.place(number);
        self.stage.ask(place);
    }

    fn close(&mut self, number: u32) {
        let place = self.stage.place(number);
        self.stage.close(place);
    }
}
