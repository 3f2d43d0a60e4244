//! What is done with a partition that is held.
ghost use Rattle.std.specs.Prelude.{◌≡◌, IfSome, IfNone};
ghost use Rattle.mica_words.specs.Hash.{hash_of};
ghost use Rattle.mica_words.specs.Item.{KeyFits};
ghost use Rattle.numbered_lock.specs.Lock.{IsHeld};
ghost use Rattle.partition_model.specs.History.{History};
ghost use Rattle.partition_model.specs.Write.{HasValueOf, write_of};
ghost use Rattle.locked_front.specs.Owned.{Owned, TookTurn, TookLook};

use crate::counts::Learned;
use crate::locks::PartitionLock;
use crate::owned::{OwnedPartition, ServerPlan, Step, Written};
use fronts::{Changed, Decide};
use numbered_lock::Held;
use partition_model::{ItemBuf, Op};
use partition_table::{Note, ReaderSeat};
use partition_words::LendPartition;
use turn_book::Taker;

/// Does a write in the partition that is held of the lock, as its `write` does.
pub(crate) fn write_held<J: ServerPlan, P: LendPartition<Reader = ReaderSeat, Note = Note> + Drop>(
    lock: &PartitionLock<J, P>,
    held: &mut Held<OwnedPartition<J, P>>,
    taker: &mut Taker<Step>,
    least: u64,
    op: Op,
    key: &[u8],
    hash: u64,
    value: &[u8],
) -> Option<Written>
    requires key { KeyFits key.now }
    requires hashed { hash ≡ hash_of J.plan.options.hashing key.now }
    requires value { HasValueOf op value.now }
    requires own { taker.old.table ≡ J.plan.books lock.now.number }
    requires held { IsHeld (λ (o : Owned). o.number) lock.now held.old.seat.table_id held.old.seat.me }
    ensures held { IsHeld (λ (o : Owned). o.number) lock.now held.new.seat.table_id held.new.seat.me }
    ensures written { IfSome result (λ w. (before : History) × TookTurn J.plan lock.now.number least before taker.old taker.new
        (write_of op key.entry.now value.entry.now) w.outcome w.learned) }
    ensures none { IfNone result (taker.new ≡ taker.old) }
{
    match held.seat.slot_mut(lock.shared(), 0) {
        Some(part) => part.write(taker, least, op, key, hash, value),
        None => unreachable!(),
    }
}

/// Looks at the key's value in the partition that is held of the lock, decides, and writes what was decided, as its `change` does.
pub(crate) fn change_held<
    J: ServerPlan,
    P: LendPartition<Reader = ReaderSeat, Note = Note> + Drop,
    D: Decide,
>(
    lock: &PartitionLock<J, P>,
    held: &mut Held<OwnedPartition<J, P>>,
    taker: &mut Taker<Step>,
    least: u64,
    second: u64,
    key: &[u8],
    hash: u64,
    decide: &D,
    found: &mut ItemBuf,
    next: &mut ItemBuf,
) -> Option<(Changed, Learned)>
    requires key { KeyFits key.now }
    requires hashed { hash ≡ hash_of J.plan.options.hashing key.now }
    requires own { taker.old.table ≡ J.plan.books lock.now.number }
    requires held { IsHeld (λ (o : Owned). o.number) lock.now held.old.seat.table_id held.old.seat.me }
    ensures held { IsHeld (λ (o : Owned). o.number) lock.now held.new.seat.table_id held.new.seat.me }
    ensures looked { IfSome result (λ r. (before : History) × TookLook J.plan lock.now.number least second before key.entry.now
        (D.needs decide.entry.now) (D.becoming decide.entry.now) taker.old taker.new r.0 found.new r.1) }
    ensures none { IfNone result (taker.new ≡ taker.old) }
{
    match held.seat.slot_mut(lock.shared(), 0) {
        Some(part) => part.change(taker, least, second, key, hash, decide, found, next),
        None => unreachable!(),
    }
}
