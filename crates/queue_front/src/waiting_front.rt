//! A front before owners, with the handle that it waits by.
ghost use Rattle.std.specs.Prelude.{◌≡◌, map};
ghost use Rattle.queue_front.specs.QueueFront.{IsQueueFront, ended_part};

use crate::queue_front::{FrontPart, QueueFront};
use fronts::Front;
use mica_words::Hashing;
use outside::NoMemory;
use partition_model::{Answer, ItemBuf, Op, Outcome};
use std::alloc::Global;
use std::sync::Wait;

/// A front that waits for owners: for what they made of a write, and for room in their queues.
#[derive(Drop)]
pub struct WaitingFront<'r, R: Wait> {
    rt: &'r R,
    front: QueueFront,
}

impl<'r, R: Wait> WaitingFront<'r, R> {
    pub fn new(rt: &'r R, front: QueueFront) -> WaitingFront<'r, R>
        ensures { result.front ≡ front }
    {
        WaitingFront { rt, front }
    }

    /// Sends its end to each owner.
    pub fn end(self) -> Vec<FrontPart>
        ensures front { IsQueueFront self.entry.front }
        ensures ended { result.items ≡ map (ended_part self.entry.front.number) self.entry.front.parts }
    {
        self.front.end(self.rt)
    }
}

impl<'r, R: Wait> Front for WaitingFront<'r, R> {
    ghost use Rattle.std.specs.Prelude.{false, map};
    ghost use Rattle.queue_front.specs.QueueStand.{QueueStand};
    ghost use Rattle.queue_front.specs.QueueFront.{sessions_of, stand_of};

    ghost options = { λ f. f.front.options };

    ghost number = { λ f. f.front.number };

    ghost Stand = { QueueStand };

    ghost stands = { λ f. map stand_of f.front.parts };

    ghost sessions = { λ f. sessions_of f.front.parts };

    ghost left = { λ f. f.front.left };

    ghost is_alone = { false };

    fn hashing(&self) -> Hashing {
        self.front.hashing()
    }

    fn loads_ahead(&self) -> bool {
        self.front.loads_ahead()
    }

    fn load_bucket(&self, hash: u64) {
        self.front.load_bucket(hash);
    }

    fn entry_of(&self, hash: u64) -> u64 {
        self.front.entry_of(hash)
    }

    fn load_item(&self, hash: u64, entry: u64) {
        self.front.load_item(hash, entry);
    }

    fn write(
        &mut self,
        alloc: Global,
        op: Op,
        key: &[u8],
        value: &[u8],
    ) -> Result<(Outcome, u64), NoMemory> {
        self.front.write(self.rt, alloc, op, key, value)
    }

    fn read(&mut self, key: &[u8], out: &mut ItemBuf) -> (Answer, u64) {
        self.front.read(self.rt, key, out)
    }
}
