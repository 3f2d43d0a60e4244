//! The locks of a server's partitions.
ghost use Rattle.std.specs.Prelude.{◌≡◌, ◌+◌, ◌<◌, length, IfOk, OnOk};
ghost use Rattle.locked_front.specs.Locks.{AreInOrder};

use crate::owned::{OwnedPartition, ServerPlan};
use crate::reads::{Reads, reads_of_all};
use numbered_lock::NumberedLock;
use outside::NoMemory;
use partition_model::Options;
use partition_table::{Note, ReaderSeat};
use partition_words::LendPartition;
use std::alloc::Global;
use std::marker::Model;

/// A partition under the lock of its number.
pub type PartitionLock<J, P> = NumberedLock<OwnedPartition<J, P>>;

/// The locks of all partitions, each at the place of its number. In a clause it is how many there are.
#[derive(Drop)]
pub struct PartitionLocks<
    J: ServerPlan,
    P: LendPartition<Reader = ReaderSeat, Note = Note> + Drop,
> {
    locks: Vec<PartitionLock<J, P>>,
    // What was read of each, in cache mode.
    reads: Vec<Reads>,
}

impl<J: ServerPlan, P: LendPartition<Reader = ReaderSeat, Note = Note> + Drop> Model
    for PartitionLocks<J, P> {
    ghost use Rattle.std.specs.Prelude.{ℕ, length};
    ghost use Rattle.locked_front.specs.Locks.{AreInOrder};

    ghost Value = { ℕ };

    ghost view = { λ l. length l.locks.items };

    ghost invariant = { λ l. AreInOrder l.locks.items };
}

impl<J: ServerPlan, P: LendPartition<Reader = ReaderSeat, Note = Note> + Drop> PartitionLocks<
    J,
    P,
> {
    /// None yet, with room for those of these options.
    pub fn new(alloc: Global, options: &Options) -> Result<PartitionLocks<J, P>, NoMemory>
        ensures { IfOk result (λ locks. locks ≡ 0) }
    {
        Ok(PartitionLocks {
            locks: Vec::with_capacity(alloc, options.partitions as usize)?,
            reads: reads_of_all(alloc, options)?,
        })
    }

    /// Puts the next partition under its lock.
    pub fn push(&mut self, alloc: Global, part: OwnedPartition<J, P>) -> Result<(), NoMemory>
        requires { part.number ≡ self.old }
        ensures { OnOk result (self.new ≡ self.old + 1) }
    {
        let number = part.number();
        let lock = NumberedLock::new(alloc, number, part)?;
        self.locks.push(lock)?;
        Ok(())
    }

    /// The lock of the partition with this number.
    pub fn of(&self, number: u32) -> &PartitionLock<J, P>
        requires { number < self.now }
        ensures { result.now.number ≡ number }
    {
        &self.locks[number as usize]
    }

    /// What was read of the partition with this number. None in store mode.
    pub fn reads_of(&self, number: u32) -> Option<&Reads> {
        self.reads.get(number as usize)
    }

    /// All of them, in order.
    pub fn into_locks(self) -> Vec<PartitionLock<J, P>>
        ensures many { length result.items ≡ self }
        ensures order { AreInOrder result.items }
    {
        self.locks
    }
}
