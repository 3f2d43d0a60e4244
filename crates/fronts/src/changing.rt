//! A front that looks at a value and writes under one hold.
ghost use Rattle.std.specs.Prelude.{◌≡◌, ◌+◌, ◌<◌, ◌≤◌, ℕ, Bool, true, false, List, [], Option, option_copied};
ghost use Rattle.mica_words.specs.Hash.{bucket_of, partition_of};
ghost use Rattle.mica_words.specs.Item.{KeyFits};
ghost use Rattle.mica_words.specs.Mark.{has_marks, is_mark};
ghost use Rattle.partition_model.specs.declared.write.Op.TheVariants.{Del, Touch};
ghost use Rattle.partition_model.specs.Write.{write_of};
ghost use Rattle.fronts.specs.Session.{ChangesOnly, Writes};
ghost use Rattle.fronts.specs.Changing.{Becoming, OnlyGets, IsChange, ComesTo, count_of};
ghost use Rattle.fronts.specs.Flushes.{flush_in};

use crate::flushes::Flush;
use crate::front::Front;
use partition_model::{Answer, Change, ItemBuf, Outcome};

/// When a decision is made.
#[derive(Clone, Copy)]
pub struct When {
    /// The second that the caller gave.
    pub second: u64,
    /// How many writes the partition had accepted.
    pub written: u64,
    /// How many of them are flushed at that second.
    pub flushed: u64,
    /// The second of a flush that waits then; 0 where none does.
    pub until: u64,
}

/// A decision, which has no effects: it can neither wait nor take memory.
pub trait Decide {
    ghost use Rattle.fronts.specs.declared.changing.When.{When};

    ghost becoming: { Self → When → Option (List ℕ) → Becoming };

    /// Whether it depends on the value.
    ghost needs: { Self → Bool };

    fn looks(&self) -> bool
        ensures needs { result ≡ needs self.now }
        ensures blind { result ≡ false → (when : When) (one other : Option (List ℕ)) → becoming self.now when one ≡ becoming self.now when other };

    /// Whether it leaves whatever it finds. A front may then look without a hold first.
    fn only_gets(&self) -> bool
        ensures { result ≡ true → OnlyGets (becoming self.now) }
    {
        false
    }

    /// Whether an item that it finds was read by it, so that a cache keeps that for longer.
    fn is_read(&self) -> bool {
        false
    }

    /// What becomes of the value that was found, or of none.
    fn decide(&self, when: When, found: Option<&[u8]>, next: &mut ItemBuf) -> Change
        ensures { IsChange (becoming self.now when (option_copied found.entry)) result next.new };
}

/// What a change came to.
#[derive(Clone, Copy)]
pub struct Changed {
    /// When the value was looked at. How many writes there were is that of an earlier look where the decision only reads.
    pub when: When,
    /// The answer to a get of the value, where it was looked at: always where the decision needs it. The buffer has the value of a hit.
    pub found: Option<Answer>,
    /// That of the write, where one was made.
    pub outcome: Option<Outcome>,
    /// The stamp after it.
    pub stamp: u64,
}

/// A front that looks at a value, decides, and writes what was decided, with nothing between. Where nothing is to be written, it may look without a hold.
pub trait Changes: Front {
    /// Makes the mark of a flush of a partition, that says when it flushes.
    fn flush_key(&self, partition: u32, flush: Flush, key: &mut ItemBuf)
        requires low { partition < (Self.options self.now).partitions }
        requires marks { has_marks (Self.options self.now).hashing ≡ true }
        ensures mark { is_mark key.new ≡ true }
        ensures fits { KeyFits key.new }
        ensures flush { flush_in key.new ≡ flush }
        ensures partition { partition_of (Self.options self.now).hashing key.new (Self.options self.now).partitions ≡ partition }
        ensures bucket { bucket_of (Self.options self.now).hashing key.new (Self.options self.now).buckets ≡ 0 };

    fn change<D: Decide>(
        &mut self,
        second: u64,
        key: &[u8],
        decide: &D,
        found: &mut ItemBuf,
        next: &mut ItemBuf,
    ) -> Changed
        requires key { KeyFits key.now }
        requires left { 0 < Self.left self.old }
        ensures changed { let p = partition_of (Self.options self.old).hashing key.entry.now (Self.options self.old).partitions in
            ComesTo (Self.options self.old) Self.is_alone second key.entry.now (D.needs decide.entry.now) (D.becoming decide.entry.now)
            (Self.sessions self.old p) result found.new (Self.sessions self.new p) }
        ensures others { ChangesOnly (partition_of (Self.options self.old).hashing key.entry.now (Self.options self.old).partitions) (Self.sessions self.old) (Self.sessions self.new) }
        ensures left { Self.left self.old ≤ Self.left self.new + count_of result.outcome }
        ensures options { Self.options self.new ≡ Self.options self.old }
        ensures number { Self.number self.new ≡ Self.number self.old }
        ensures stands { Self.stands self.new ≡ Self.stands self.old };

    /// The outcome of a delete, and the stamp after it. It takes no memory.
    fn delete(&mut self, key: &[u8]) -> (Outcome, u64)
        requires key { KeyFits key.now }
        requires left { 0 < Self.left self.old }
        ensures written { let p = partition_of (Self.options self.old).hashing key.entry.now (Self.options self.old).partitions in
            Writes (Self.options self.old) Self.is_alone (Self.sessions self.old p)
            (record { write = write_of Del key.entry.now []; outcome = result.0; stamp = result.1 }) (Self.sessions self.new p) }
        ensures others { ChangesOnly (partition_of (Self.options self.old).hashing key.entry.now (Self.options self.old).partitions) (Self.sessions self.old) (Self.sessions self.new) }
        ensures left { Self.left self.old ≤ Self.left self.new + 1 }
        ensures options { Self.options self.new ≡ Self.options self.old }
        ensures number { Self.number self.new ≡ Self.number self.old }
        ensures stands { Self.stands self.new ≡ Self.stands self.old };

    /// The outcome of a touch, and the stamp after it. It takes no memory.
    fn touch(&mut self, key: &[u8]) -> (Outcome, u64)
        requires key { KeyFits key.now }
        requires left { 0 < Self.left self.old }
        ensures written { let p = partition_of (Self.options self.old).hashing key.entry.now (Self.options self.old).partitions in
            Writes (Self.options self.old) Self.is_alone (Self.sessions self.old p)
            (record { write = write_of Touch key.entry.now []; outcome = result.0; stamp = result.1 }) (Self.sessions self.new p) }
        ensures others { ChangesOnly (partition_of (Self.options self.old).hashing key.entry.now (Self.options self.old).partitions) (Self.sessions self.old) (Self.sessions self.new) }
        ensures left { Self.left self.old ≤ Self.left self.new + 1 }
        ensures options { Self.options self.new ≡ Self.options self.old }
        ensures number { Self.number self.new ≡ Self.number self.old }
        ensures stands { Self.stands self.new ≡ Self.stands self.old };
}
