//! A front that owns its partitions.
ghost use Rattle.std.specs.Prelude.{◌≡◌, ◌<◌, ℕ, true, [], IfOk, map};
ghost use Rattle.mica_words.specs.Item.{KeyFits};
ghost use Rattle.mica_words.specs.Hash.{partition_of};
ghost use Rattle.partition_model.specs.Options.{IsValid};
ghost use Rattle.partition_model.specs.Answer.{IsAnswer};
ghost use Rattle.partition_model.specs.History.{answer_of, stamp_of};
ghost use Rattle.partition_model.specs.Write.{HasValueOf, write_of};
ghost use Rattle.queue_front.specs.Solo.{Solo, StepsPartition, IsNewSolo, history_at, alone_with, sessions_in};

use any_partition::PlainPartition;
use fronts::Front;
use mica_words::{Hashing, partition_of};
use outside::NoMemory;
use partition_model::{Answer, ItemBuf, Op, Options, Outcome};
use partition_words::{Partition, write_to};
use std::alloc::Global;
use std::marker::Model;

/// Partitions that nobody else writes.
#[derive(Drop)]
pub(crate) struct Owned {
    options: Options,
    parts: Vec<PlainPartition>,
}

impl Model for Owned {
    ghost use Rattle.std.specs.Prelude.{◌≡◌, All, map, vec_len};
    ghost use Rattle.partition_model.specs.Options.{IsValid};
    ghost use Rattle.partition_words.specs.Shape.{shape_of};
    ghost use Rattle.any_partition.specs.PlainPartition.{owner_of};
    ghost use Rattle.queue_front.specs.Solo.{Solo};

    ghost Value = { Solo };

    ghost view = { λ o. record { options = o.options; histories = map (λ p. (owner_of p).history) o.parts.items } };

    ghost invariant = { λ o. IsValid o.options × (vec_len o.parts ≡ o.options.partitions)
        × All (λ p. (owner_of p).shape ≡ shape_of o.options) o.parts.items };
}

impl Owned {
    fn new(alloc: Global, options: &Options) -> Result<Owned, NoMemory>
        requires { IsValid options.now }
        ensures { IfOk result (IsNewSolo options.now) }
    {
        let mut parts = Vec::with_capacity(alloc, options.partitions as usize)?;
        for _ in 0..options.partitions {
            parts.push(PlainPartition::new(alloc, options)?)?;
        }
        Ok(Owned {
            options: *options,
            parts,
        })
    }

    fn hashing(&self) -> Hashing
        ensures { result ≡ self.now.options.hashing }
    {
        self.options.hashing
    }

    fn write(&mut self, op: Op, key: &[u8], value: &[u8]) -> (Outcome, u64)
        requires key { KeyFits key.now }
        requires value { HasValueOf op value.now }
        ensures { StepsPartition self.old (partition_of self.old.options.hashing key.entry.now self.old.options.partitions)
            (record { write = write_of op key.entry.now value.entry.now; outcome = result.0; stamp = result.1 }) self.new }
    {
        let at = partition_of(self.options.hashing.key_hash(key), self.options.partitions) as usize;
        let part = &mut self.parts[at];
        let outcome = write_to(part, op, key, value);
        (outcome, part.stamp())
    }

    fn read(&mut self, key: &[u8], out: &mut ItemBuf) -> (Answer, u64)
        requires { KeyFits key.now }
        ensures answer { let history = history_at self.old.histories (partition_of self.old.options.hashing key.entry.now self.old.options.partitions) in
            IsAnswer result.0 out.new (answer_of self.old.options history key.entry.now)
            × (result.1 ≡ stamp_of self.old.options history) }
        ensures same { self.new ≡ self.old }
    {
        let at = partition_of(self.options.hashing.key_hash(key), self.options.partitions) as usize;
        let part = &mut self.parts[at];
        let answer = part.get(key, out);
        (answer, part.stamp())
    }
}

/// A front that owns all partitions. Its calls wait for nobody.
#[derive(Drop)]
pub struct SoloFront {
    owned: Owned,
}

impl SoloFront {
    /// A front with an empty partition for each number.
    pub fn new(alloc: Global, options: &Options) -> Result<SoloFront, NoMemory>
        requires { IsValid options.now }
        ensures options { IfOk result (λ f. ⟦<SoloFront as Front>⟧.options f ≡ options.now) }
        ensures sessions { IfOk result (λ f. (p : ℕ) → ⟦<SoloFront as Front>⟧.sessions f p ≡ alone_with options.now []) }
        ensures left { IfOk result (λ f. ⟦<SoloFront as Front>⟧.left f ≡ 4294967295) }
    {
        Ok(SoloFront {
            owned: Owned::new(alloc, options)?,
        })
    }
}

impl Front for SoloFront {
    ghost use Rattle.std.specs.Prelude.{true, []};
    ghost use Rattle.queue_front.specs.Solo.{sessions_in};

    ghost options = { λ f. f.owned.options };

    ghost number = { λ _. 0 };

    ghost stands = { λ _. [] };

    ghost sessions = { λ f. sessions_in f.owned };

    ghost left = { λ _. 4294967295 };

    ghost is_alone = { true };

    fn hashing(&self) -> Hashing {
        self.owned.hashing()
    }

    fn loads_ahead(&self) -> bool {
        false
    }

    fn load_bucket(&self, _hash: u64) {}

    fn entry_of(&self, _hash: u64) -> u64 {
        0
    }

    fn load_item(&self, _hash: u64, _entry: u64) {}

    fn write(
        &mut self,
        _alloc: Global,
        op: Op,
        key: &[u8],
        value: &[u8],
    ) -> Result<(Outcome, u64), NoMemory> {
        Ok(self.owned.write(op, key, value))
    }

    fn read(&mut self, key: &[u8], out: &mut ItemBuf) -> (Answer, u64) {
        self.owned.read(key, out)
    }
}
