//! What a front has of one partition.
ghost use Rattle.std.specs.Prelude.{◌≡◌, ◌<◌, IfSome, IfNone};
ghost use Rattle.mica_words.specs.Hash.{hash_of};
ghost use Rattle.mica_words.specs.Item.{KeyFits};
ghost use Rattle.partition_model.specs.History.{History};
ghost use Rattle.partition_model.specs.Write.{HasValueOf, write_of};
ghost use Rattle.partition_table.specs.Seats.{reader_home, note_home, reader_state};
ghost use Rattle.locked_front.specs.Owned.{TookTurn, TookLook};
ghost use Rattle.locked_front.specs.Parts.{IsPartOf, HasLearned, PartWrites, PartReads, PartChanges, PartRests, PartGets, answer_in as in_got};

use crate::counts::{HistoryCounts, Learned};
use crate::held::{change_held, write_held};
use crate::locks::PartitionLock;
use crate::owned::{ServerPlan, Step, Written};
use fronts::{Changed, Decide};
use optimistic_get::{Got, ask_hashed, get_hashed};
use partition_model::{Answer, ItemBuf, Op, Outcome};
use partition_table::{Note, ReaderSeat};
use partition_words::{LendPartition, ReaderWords};
use std::sync::Wait;
use std::thread;
use turn_book::Taker;

/// How often a get is tried before the lock is taken for it.
const GET_TRIES: u32 = 8;

/// What a front has of one partition.
#[derive(Drop)]
pub struct LockedPart {
    pub seat: ReaderSeat,
    pub taker: Taker<Step>,
    /// The stamp that was answered last.
    pub last: u64,
    /// The stamp of what the seat has seen.
    pub newest: u64,
    /// What was counted under the last hold.
    pub counts: HistoryCounts,
}

// The answer, with its stamp, where there is one.
fn answer_in(got: Got) -> Option<(Answer, u64)>
    ensures { result ≡ in_got got }
{
    match got {
        Got::Hit { stamp } => Some((Answer::Hit, stamp)),
        Got::Miss { stamp } => Some((Answer::Miss, stamp)),
        Got::Again { .. } => None,
    }
}

// Owns the partition for one write, which is not done before that has come as far as the stamp. It always has, since its history has all that was seen of it.
fn write_under_lock<
    R: Wait,
    J: ServerPlan,
    P: LendPartition<Reader = ReaderSeat, Note = Note> + Drop,
>(
    rt: &R,
    lock: &PartitionLock<J, P>,
    taker: &mut Taker<Step>,
    least: u64,
    op: Op,
    key: &[u8],
    hash: u64,
    value: &[u8],
) -> Written
    requires key { KeyFits key.now }
    requires hashed { hash ≡ hash_of J.plan.options.hashing key.now }
    requires value { HasValueOf op value.now }
    requires own { taker.old.table ≡ J.plan.books lock.now.number }
    ensures { (before : History) × TookTurn J.plan lock.now.number least before taker.old taker.new
        (write_of op key.entry.now value.entry.now) result.outcome result.learned }
{
    for _ in rt.forever() {
        let mut held = lock.hold(rt);
        let written = write_held(lock, &mut held, taker, least, op, key, hash, value);
        lock.let_go(held);
        match written {
            Some(written) => return written,
            None => thread::yield_now(),
        }
    }
    unreachable!()
}

// Owns the partition for one look, and the write that is decided of it.
fn change_under_lock<
    R: Wait,
    J: ServerPlan,
    P: LendPartition<Reader = ReaderSeat, Note = Note> + Drop,
    D: Decide,
>(
    rt: &R,
    lock: &PartitionLock<J, P>,
    taker: &mut Taker<Step>,
    least: u64,
    second: u64,
    key: &[u8],
    hash: u64,
    decide: &D,
    found: &mut ItemBuf,
    next: &mut ItemBuf,
) -> (Changed, Learned)
    requires key { KeyFits key.now }
    requires hashed { hash ≡ hash_of J.plan.options.hashing key.now }
    requires own { taker.old.table ≡ J.plan.books lock.now.number }
    ensures { (before : History) × TookLook J.plan lock.now.number least second before key.entry.now
        (D.needs decide.entry.now) (D.becoming decide.entry.now) taker.old taker.new result.0 found.new result.1 }
{
    for _ in rt.forever() {
        let mut held = lock.hold(rt);
        let looked = change_held(
            lock, &mut held, taker, least, second, key, hash, decide, found, next,
        );
        lock.let_go(held);
        match looked {
            Some(looked) => return looked,
            None => thread::yield_now(),
        }
    }
    unreachable!()
}

impl LockedPart {
    // Tells the seat a note, and takes the stamp of what it has seen then.
    fn learn(&mut self, learned: Learned)
        requires { note_home learned.note ≡ reader_home self.old.seat }
        ensures { HasLearned self.old learned self.new }
    {
        let Learned { counts, note } = learned;
        self.seat.tell(note);
        let newest = self.seat.stamp();
        self.newest = newest;
        self.last = counts.stamp;
        self.counts = counts;
    }

    // The answer to a few tries that are told nowhere, with its stamp, where no flush stands behind what was counted last. The epoch of their bucket is
    // looked at first, too: where it has moved the tries would be for nothing.
    fn try_get(&mut self, key: &[u8], hash: u64, found: &mut ItemBuf) -> Option<(Answer, u64)>
        requires key { KeyFits key.now }
        requires hashed { hash ≡ hash_of (reader_state self.old.seat).shape.hashing key.now }
        ensures looked { IfSome result (λ r. PartGets self.old key.entry.now r.0 r.1 found.new self.new) }
        ensures none { IfNone result (PartRests self.old self.new) }
    {
        let epoch = self.seat.epoch_of_first();
        if !self.counts.has_all_flushes(epoch) {
            return None;
        }
        let aside = self.seat.set_aside();
        let got = get_hashed(&mut self.seat, key, hash, GET_TRIES, found);
        let epoch = self.seat.epoch_of_first();
        let unmoved = self.counts.has_all_flushes(epoch);
        match answer_in(got) {
            Some((answer, stamp)) if unmoved => {
                self.seat.take_up_seen(aside);
                self.last = stamp;
                self.newest = stamp;
                Some((answer, stamp))
            }
            _ => {
                self.seat.take_up(aside);
                None
            }
        }
    }

    // A get without the lock, where the decision only reads.
    fn get_without_lock<J: ServerPlan, D: Decide>(
        &mut self,
        _number: u32,
        second: u64,
        key: &[u8],
        hash: u64,
        decide: &D,
        found: &mut ItemBuf,
    ) -> Option<Changed>
        requires key { KeyFits key.now }
        requires hashed { hash ≡ hash_of J.plan.options.hashing key.now }
        requires own { IsPartOf J.plan _number self.old.taker.number self.old }
        ensures looked { IfSome result (λ changed.
            PartChanges J.plan _number second key.entry.now (D.needs decide.entry.now) (D.becoming decide.entry.now) self.old changed found.new self.new) }
        ensures none { IfNone result (PartRests self.old self.new) }
    {
        if !decide.only_gets() {
            return None;
        }
        let (answer, stamp) = self.try_get(key, hash, found)?;
        Some(Changed {
            when: self.counts.when_at(second),
            found: Some(answer),
            outcome: None,
            stamp,
        })
    }

    /// Owns the partition of the number for one write, and tells the seat its note.
    pub(crate) fn write<
        R: Wait,
        J: ServerPlan,
        P: LendPartition<Reader = ReaderSeat, Note = Note> + Drop,
    >(
        &mut self,
        rt: &R,
        lock: &PartitionLock<J, P>,
        number: u32,
        op: Op,
        key: &[u8],
        hash: u64,
        value: &[u8],
    ) -> (Outcome, u64)
        requires key { KeyFits key.now }
        requires hashed { hash ≡ hash_of J.plan.options.hashing key.now }
        requires value { HasValueOf op value.now }
        requires lock { lock.now.number ≡ number }
        requires own { IsPartOf J.plan number self.old.taker.number self.old }
        ensures { PartWrites J.plan number self.old (write_of op key.entry.now value.entry.now) result.0 result.1 self.new }
    {
        let Written { outcome, learned } = write_under_lock(
            rt,
            lock,
            &mut self.taker,
            self.newest,
            op,
            key,
            hash,
            value,
        );
        let stamp = learned.counts.stamp;
        self.learn(learned);
        (outcome, stamp)
    }

    /// Looks at the key's value and does what is decided of it. Where that only reads it is a get, which takes no lock unless something was written in the bucket of
    /// flushes since the last time. Else it owns the partition of the number for that, and tells the seat its note.
    pub(crate) fn change<
        R: Wait,
        J: ServerPlan,
        P: LendPartition<Reader = ReaderSeat, Note = Note> + Drop,
        D: Decide,
    >(
        &mut self,
        rt: &R,
        lock: &PartitionLock<J, P>,
        number: u32,
        second: u64,
        key: &[u8],
        hash: u64,
        decide: &D,
        found: &mut ItemBuf,
        next: &mut ItemBuf,
    ) -> Changed
        requires key { KeyFits key.now }
        requires hashed { hash ≡ hash_of J.plan.options.hashing key.now }
        requires lock { lock.now.number ≡ number }
        requires own { IsPartOf J.plan number self.old.taker.number self.old }
        ensures { PartChanges J.plan number second key.entry.now (D.needs decide.entry.now) (D.becoming decide.entry.now) self.old result found.new self.new }
    {
        match self.get_without_lock::<J, D>(number, second, key, hash, decide, found) {
            Some(changed) => changed,
            None => {
                let (changed, learned) = change_under_lock(
                    rt,
                    lock,
                    &mut self.taker,
                    self.newest,
                    second,
                    key,
                    hash,
                    decide,
                    found,
                    next,
                );
                self.learn(learned);
                changed
            }
        }
    }

    /// Asks the seat until it answers.
    pub(crate) fn read<R: Wait, J: ServerPlan>(
        &mut self,
        rt: &R,
        _number: u32,
        key: &[u8],
        hash: u64,
        tries: u32,
        out: &mut ItemBuf,
    ) -> (Answer, u64)
        requires key { KeyFits key.now }
        requires hashed { hash ≡ hash_of J.plan.options.hashing key.now }
        requires tries { 0 < tries }
        requires own { IsPartOf J.plan _number self.old.taker.number self.old }
        ensures { PartReads J.plan _number self.old key.now result.0 result.1 out.new self.new }
    {
        match ask_hashed(rt, &mut self.seat, key, hash, tries, out) {
            Got::Hit { stamp } => {
                self.last = stamp;
                self.newest = stamp;
                (Answer::Hit, stamp)
            }
            Got::Miss { stamp } => {
                self.last = stamp;
                self.newest = stamp;
                (Answer::Miss, stamp)
            }
            Got::Again { .. } => unreachable!(),
        }
    }
}
