//! What stands behind one port.
ghost use Rattle.std.specs.Prelude.{◌≡◌, ◌+◌, ◌<◌, ◌≤◌, ℕ, Bool, List, Option, IfOk, OnErr};
ghost use Rattle.mica_words.specs.Item.{KeyFits};
ghost use Rattle.mica_words.specs.Hash.{partition_of};
ghost use Rattle.partition_model.specs.declared.options.Options.{Options};
ghost use Rattle.partition_model.specs.Answer.{IsAnswer};
ghost use Rattle.partition_model.specs.Write.{HasValueOf, write_of};
ghost use Rattle.fronts.specs.Session.{Sessions, ChangesOnly, Writes, Reads};

use mica_words::Hashing;
use outside::NoMemory;
use partition_model::{Answer, ItemBuf, Op, Outcome};
use std::alloc::Global;

/// What stands behind one port: it answers writes and gets, each before the next one.
pub trait Front {
    /// The options of its partitions. No call changes them.
    ghost options: { Self → Options };

    /// Which of the fronts beside each other it is. No call changes it.
    ghost number: { Self → ℕ };

    /// What says where it stands before an owner in another thread.
    ghost Stand: { Type 0 } = { Unit {0} };

    /// Where it stands before each owner in another thread, by their partitions. No call changes it.
    ghost stands: { Self → List Stand };

    /// What it has seen of each partition.
    ghost sessions: { Self → Sessions };

    /// How many writes it may still be given.
    ghost left: { Self → ℕ };

    /// Whether nobody else writes its partitions.
    ghost is_alone: { Bool };

    /// How the keys of its partitions are hashed.
    fn hashing(&self) -> Hashing
        ensures { result ≡ (options self.now).hashing };

    /// Whether its tables are larger than the caches, so that loads ahead are worth their time.
    fn loads_ahead(&self) -> bool;

    /// Loads the bucket of a key with this hash, so that it is at hand.
    fn load_bucket(&self, hash: u64);

    /// The first entry of that bucket with this hash's tag; 0 where none has it.
    fn entry_of(&self, hash: u64) -> u64;

    /// Loads the item of such an entry, so that it is at hand.
    fn load_item(&self, hash: u64, entry: u64);

    /// The outcome of a write, and the stamp after it.
    fn write(
        &mut self,
        alloc: Global,
        op: Op,
        key: &[u8],
        value: &[u8],
    ) -> Result<(Outcome, u64), NoMemory>
        requires key { KeyFits key.now }
        requires value { HasValueOf op value.now }
        requires left { 0 < left self.old }

        ensures written { IfOk result (λ r. let p = partition_of (options self.old).hashing key.entry.now (options self.old).partitions in
            Writes (options self.old) is_alone (sessions self.old p)
            (record { write = write_of op key.entry.now value.entry.now; outcome = r.0; stamp = r.1 }) (sessions self.new p)) }
        ensures others { IfOk result (λ _.
            ChangesOnly (partition_of (options self.old).hashing key.entry.now (options self.old).partitions) (sessions self.old) (sessions self.new)) }
        ensures err { OnErr result (self.new ≡ self.old) }
        ensures left { left self.old ≤ left self.new + 1 }
        ensures options { options self.new ≡ options self.old }
        ensures number { number self.new ≡ number self.old }
        ensures stands { stands self.new ≡ stands self.old };

    /// The machine's answer, and its stamp. The buffer has the value of a hit, and is empty at a miss.
    fn read(&mut self, key: &[u8], out: &mut ItemBuf) -> (Answer, u64)
        requires key { KeyFits key.now }

        ensures answer { let p = partition_of (options self.old).hashing key.entry.now (options self.old).partitions in
            (value : Option (List ℕ)) × IsAnswer result.0 out.new value
            × Reads (options self.old) is_alone (sessions self.old p) key.entry.now result.1 value (sessions self.new p) }
        ensures others { ChangesOnly (partition_of (options self.old).hashing key.entry.now (options self.old).partitions) (sessions self.old) (sessions self.new) }
        ensures left { left self.new ≡ left self.old }
        ensures options { options self.new ≡ options self.old }
        ensures number { number self.new ≡ number self.old }
        ensures stands { stands self.new ≡ stands self.old };
}
