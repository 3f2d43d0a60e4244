//! A front that owns each partition in turn.
ghost use Rattle.std.specs.Prelude.{◌≡◌, ◌+◌, ◌<◌, ◌≤◌, ℕ, false, Some, length, slice_get, vec_len};
ghost use Rattle.mica_words.specs.Hash.{partition_of};
ghost use Rattle.mica_words.specs.Item.{KeyFits};
ghost use Rattle.partition_model.specs.Options.{IsPossible};
ghost use Rattle.partition_model.specs.Write.{HasValueOf, write_of};
ghost use Rattle.fronts.specs.Session.{ChangesOnly, Writes};
ghost use Rattle.fronts.specs.Changing.{count_of};
ghost use Rattle.locked_front.specs.declared.part.LockedPart.{LockedPart};
ghost use Rattle.locked_front.specs.Parts.{IsPartOf, IsLockedFront, locked_view, sessions_of, turns_left, turns_taken};

use crate::locks::PartitionLocks;
use crate::marks::make_mark;
use crate::owned::ServerPlan;
use crate::part::LockedPart;
use crate::passing::{count_if_read, pass_item};
use fronts::{
    Changed, Changes, CountsWrites, Decide, Flush, Front, Glances, Glimpse, Passed, seat_loads,
};
use mica_words::{Hashing, partition_of};
use outside::NoMemory;
use partition_model::{Answer, ItemBuf, Mode, Op, Options, Outcome};
use partition_table::{Note, ReaderSeat};
use partition_words::LendPartition;
use std::alloc::Global;
use std::marker::Model;
use std::sync::Wait;
use std::sync::atomic::{AtomicBool, Ordering};

// How many writes were made.
fn count_of(outcome: Option<Outcome>) -> u64
    ensures { result ≡ count_of outcome }
{
    match outcome {
        Some(_) => 1,
        None => 0,
    }
}

// Tells the other fronts where a write found that its partition bears no more.
fn tell_worn(ended: &AtomicBool, outcome: Option<Outcome>) {
    if matches!(outcome, Some(Outcome::Worn)) {
        ended.store(true, Ordering::Relaxed);
    }
}

/// A front that takes the lock of a partition for each write, and gets by loads of its own.
#[derive(Drop)]
pub struct LockedFront<
    'a,
    J: ServerPlan,
    P: LendPartition<Reader = ReaderSeat, Note = Note> + Drop,
    R: Wait,
> {
    // What it waits by, for locks.
    rt: &'a R,
    options: Options,
    locks: &'a PartitionLocks<J, P>,
    number: u32,
    parts: Vec<LockedPart>,
    // How many writes it may still be given.
    left: u64,
    // Set once a partition bears no more writes.
    ended: &'a AtomicBool,
}

impl<'a, J: ServerPlan, P: LendPartition<Reader = ReaderSeat, Note = Note> + Drop, R: Wait> Model
    for LockedFront<'a, J, P, R> {
    ghost use Rattle.std.specs.Prelude.{◌≡◌, length};
    ghost use Rattle.locked_front.specs.Parts.{LockedView, IsLockedFront, locked_view, turns_left};

    ghost Value = { LockedView };

    ghost view = { λ f. locked_view f.options f.number f.parts.items };

    ghost invariant = { λ f. IsLockedFront J.plan (locked_view f.options f.number f.parts.items) × (f.locks.now ≡ f.options.partitions)
        × (f.left ≡ turns_left f.parts.items) };
}

impl<
    'a,
    J: ServerPlan,
    P: LendPartition<Reader = ReaderSeat, Note = Note> + Drop,
    R: Wait,
> LockedFront<'a, J, P, R> {
    /// A front that has taken no turn. It sets `ended` once a write finds its partition worn.
    pub fn new(
        rt: &'a R,
        options: &Options,
        locks: &'a PartitionLocks<J, P>,
        number: u32,
        parts: Vec<LockedPart>,
        ended: &'a AtomicBool,
    ) -> LockedFront<'a, J, P, R>
        requires options { options.now ≡ J.plan.options }
        requires valid { IsPossible options.now }
        requires low { number < J.plan.fronts }
        requires locks { locks.now ≡ options.now.partitions }
        requires many { vec_len parts ≡ options.now.partitions }
        requires none { turns_taken parts.items ≡ 0 }
        requires each { (p : ℕ) (part : LockedPart) → slice_get parts.items p ≡ Some part → IsPartOf J.plan p number part }
        ensures { result ≡ locked_view options.now number parts.items }
    {
        LockedFront {
            rt,
            options: *options,
            locks,
            number,
            parts,
            left: u64::MAX,
            ended,
        }
    }

    // Takes a turn of the key's partition, for one write.
    fn write_in_turn(&mut self, op: Op, key: &[u8], value: &[u8]) -> (Outcome, u64)
        requires key { KeyFits key.now }
        requires value { HasValueOf op value.now }
        requires left { 0 < turns_left self.old.parts }
        ensures written { let p = partition_of self.old.options.hashing key.entry.now self.old.options.partitions in
            Writes self.old.options false (sessions_of self.old.parts p)
            (record { write = write_of op key.entry.now value.entry.now; outcome = result.0; stamp = result.1 }) (sessions_of self.new.parts p) }
        ensures others { ChangesOnly (partition_of self.old.options.hashing key.entry.now self.old.options.partitions) (sessions_of self.old.parts) (sessions_of self.new.parts) }
        ensures left { turns_left self.old.parts ≤ turns_left self.new.parts + 1 }
        ensures options { self.new.options ≡ self.old.options }
        ensures number { self.new.number ≡ self.old.number }
    {
        let hash = self.options.hashing.key_hash(key);
        let number = partition_of(hash, self.options.partitions);
        let at = number as usize;
        let lock = self.locks.of(number);
        let written = self.parts[at].write(self.rt, lock, number, op, key, hash, value);
        self.left -= 1;
        tell_worn(self.ended, Some(written.0));
        written
    }

    /// What it has of each partition, in order.
    pub fn into_parts(self) -> Vec<LockedPart>
        ensures front { IsLockedFront J.plan self.entry }
        ensures same { result.items ≡ self.entry.parts }
    {
        self.parts
    }
}

impl<'a, J: ServerPlan, P: LendPartition<Reader = ReaderSeat, Note = Note> + Drop, R: Wait> Front
    for LockedFront<'a, J, P, R> {
    ghost use Rattle.std.specs.Prelude.{false, []};
    ghost use Rattle.locked_front.specs.Parts.{sessions_of, turns_left};

    ghost options = { λ f. f.options };

    ghost number = { λ f. f.number };

    ghost stands = { λ _. [] };

    ghost sessions = { λ f. sessions_of f.parts };

    ghost left = { λ f. turns_left f.parts };

    ghost is_alone = { false };

    fn hashing(&self) -> Hashing {
        self.options.hashing
    }

    fn loads_ahead(&self) -> bool {
        seat_loads::are_large(&self.options)
    }

    fn load_bucket(&self, hash: u64) {
        let at = partition_of(hash, self.options.partitions) as usize;
        seat_loads::load_bucket(&self.parts[at].seat, hash);
    }

    fn entry_of(&self, hash: u64) -> u64 {
        let at = partition_of(hash, self.options.partitions) as usize;
        seat_loads::entry_of(&self.parts[at].seat, hash)
    }

    fn load_item(&self, hash: u64, entry: u64) {
        let at = partition_of(hash, self.options.partitions) as usize;
        seat_loads::load_item(&self.parts[at].seat, entry);
    }

    fn write(
        &mut self,
        _alloc: Global,
        op: Op,
        key: &[u8],
        value: &[u8],
    ) -> Result<(Outcome, u64), NoMemory> {
        Ok(self.write_in_turn(op, key, value))
    }

    fn read(&mut self, key: &[u8], out: &mut ItemBuf) -> (Answer, u64) {
        let hash = self.options.hashing.key_hash(key);
        let number = partition_of(hash, self.options.partitions);
        let tries = self.options.tries;
        self.parts[number as usize].read::<R, J>(self.rt, number, key, hash, tries, out)
    }
}

impl<'a, J: ServerPlan, P: LendPartition<Reader = ReaderSeat, Note = Note> + Drop, R: Wait> Changes
    for LockedFront<'a, J, P, R> {
    fn flush_key(&self, partition: u32, flush: Flush, key: &mut ItemBuf) {
        // What it keeps says that a byte has room for the partition.
        let _few = self.options.partitions;
        make_mark(partition, flush.due, flush.asked, key);
    }

    fn change<D: Decide>(
        &mut self,
        second: u64,
        key: &[u8],
        decide: &D,
        found: &mut ItemBuf,
        next: &mut ItemBuf,
    ) -> Changed {
        let hash = self.options.hashing.key_hash(key);
        let number = partition_of(hash, self.options.partitions);
        let at = number as usize;
        let lock = self.locks.of(number);
        let changed = self.parts[at].change(
            self.rt, lock, number, second, key, hash, decide, found, next,
        );
        self.left -= count_of(changed.outcome);
        tell_worn(self.ended, changed.outcome);
        count_if_read(self.locks.reads_of(number), hash, decide, &changed);
        changed
    }

    fn delete(&mut self, key: &[u8]) -> (Outcome, u64) {
        self.write_in_turn(Op::Del, key, &[])
    }

    fn touch(&mut self, key: &[u8]) -> (Outcome, u64) {
        self.write_in_turn(Op::Touch, key, &[])
    }
}

impl<
    'a,
    J: ServerPlan,
    P: LendPartition<Reader = ReaderSeat, Note = Note> + Drop,
    R: Wait,
> CountsWrites for LockedFront<'a, J, P, R> {
    fn writes_left(&self) -> u64 {
        self.left
    }
}

impl<'a, J: ServerPlan, P: LendPartition<Reader = ReaderSeat, Note = Note> + Drop, R: Wait> Glances
    for LockedFront<'a, J, P, R> {
    fn glance(&self, partition: u32, place: u64, key: &mut ItemBuf, head: &mut ItemBuf) -> Glimpse {
        seat_loads::glance(&self.parts[partition as usize].seat, place, key, head)
    }

    fn end_of_look(&self, partition: u32) -> u64 {
        seat_loads::end_of_look(&self.parts[partition as usize].seat)
    }

    fn pass_item(&self, partition: u32, end: u64, key: &mut ItemBuf) -> Passed {
        let reads = self.locks.reads_of(partition);
        match self.options.mode {
            Mode::Cache => pass_item(&self.parts[partition as usize].seat, reads, end, key),
            Mode::Store => Passed::End,
        }
    }
}
