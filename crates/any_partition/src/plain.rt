//! A partition of either mode, over words of one thread.
ghost use Rattle.std.specs.Prelude.{◌≡◌, IfOk};
ghost use Rattle.partition_model.specs.Options.{IsValid};
ghost use Rattle.partition_words.specs.Shape.{shape_of};
ghost use Rattle.partition_words.specs.OwnerState.{as_made};
ghost use Rattle.any_partition.specs.PlainPartition.{owner_of};

use cache_partition::CachePartition;
use outside::NoMemory;
use partition_model::{Answer, ItemBuf, Mode, Options, Outcome};
use partition_words::{Partition, PlainWords, Shape};
use std::alloc::Global;
use store_partition::StorePartition;

/// A partition, in its mode.
#[derive(Drop)]
pub enum PlainPartition {
    Cache(CachePartition<PlainWords>),
    Store(StorePartition<PlainWords>),
}

impl PlainPartition {
    /// A partition with nothing in it.
    pub fn new(alloc: Global, options: &Options) -> Result<PlainPartition, NoMemory>
        requires { IsValid options.now }
        ensures { IfOk result (λ part. owner_of part ≡ as_made (shape_of options.now)) }
    {
        let words = PlainWords::new(alloc, &Shape::of(options), 0)?;
        Ok(match options.mode {
            Mode::Cache => PlainPartition::Cache(CachePartition::new(words)),
            Mode::Store => PlainPartition::Store(StorePartition::new(alloc, words)?),
        })
    }
}

impl Partition for PlainPartition {
    ghost use Rattle.any_partition.specs.PlainPartition.{owner_of, home_of};

    ghost owner = { owner_of };

    ghost home = { home_of };

    fn put(&mut self, key: &[u8], value: &[u8]) -> Outcome {
        match self {
            PlainPartition::Cache(part) => part.put(key, value),
            PlainPartition::Store(part) => part.put(key, value),
        }
    }

    fn add(&mut self, key: &[u8], value: &[u8]) -> Outcome {
        match self {
            PlainPartition::Cache(part) => part.add(key, value),
            PlainPartition::Store(part) => part.add(key, value),
        }
    }

    fn touch(&mut self, key: &[u8]) -> Outcome {
        match self {
            PlainPartition::Cache(part) => part.touch(key),
            PlainPartition::Store(part) => part.touch(key),
        }
    }

    fn del(&mut self, key: &[u8]) -> Outcome {
        match self {
            PlainPartition::Cache(part) => part.del(key),
            PlainPartition::Store(part) => part.del(key),
        }
    }

    fn get(&mut self, key: &[u8], out: &mut ItemBuf) -> Answer {
        match self {
            PlainPartition::Cache(part) => part.get(key, out),
            PlainPartition::Store(part) => part.get(key, out),
        }
    }

    fn stamp(&self) -> u64 {
        match self {
            PlainPartition::Cache(part) => part.stamp(),
            PlainPartition::Store(part) => part.stamp(),
        }
    }

    fn accepted(&self) -> u64 {
        match self {
            PlainPartition::Cache(part) => part.accepted(),
            PlainPartition::Store(part) => part.accepted(),
        }
    }
}
