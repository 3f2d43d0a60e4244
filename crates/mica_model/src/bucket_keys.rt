//! How many keys each bucket has, and the spares that are in use behind all of them.
ghost use Rattle.std.specs.Prelude.{◌≡◌, ◌+◌, ◌<◌, ◌≤◌, ◌^◌, length, slice_index, slice_set, replicate, IfOk};
ghost use Rattle.partition_model.specs.Store.{spares_behind};

use mica_words::SLOTS;
use outside::NoMemory;
use std::alloc::Global;

// How many keys each main bucket has, and how many spares they need together.
#[derive(Drop)]
pub struct BucketKeys {
    pub keys: Vec<u32>,
    pub spares: u32,
}

impl BucketKeys {
    // Buckets without keys.
    pub fn new(alloc: Global, buckets: u32) -> Result<Self, NoMemory>
        ensures keys { IfOk result (λ new. new.keys.items ≡ replicate buckets 0) }
        ensures spares { IfOk result (λ new. new.spares ≡ 0) }
    {
        Ok(BucketKeys {
            keys: vec![in alloc; 0; buckets as usize]?,
            spares: 0,
        })
    }

    // Sets the number of keys of a bucket.
    pub fn set(&mut self, bucket: usize, keys: u32)
        requires within { bucket < length self.old.keys.items }
        requires counted { spares_behind (slice_index self.old.keys.items bucket) ≤ self.old.spares }
        requires fits { self.old.spares + spares_behind keys
            < 2 ^ 32 + spares_behind (slice_index self.old.keys.items bucket) }

        ensures keys { self.new.keys.items ≡ slice_set self.old.keys.items bucket keys }
        ensures spares { self.new.spares + spares_behind (slice_index self.old.keys.items bucket)
            ≡ self.old.spares + spares_behind keys }
    {
        self.spares = self.spares - spares_behind(self.keys[bucket]) + spares_behind(keys);
        self.keys[bucket] = keys;
    }
}

// The spares behind a main bucket of this many keys.
fn spares_behind(keys: u32) -> u32
    ensures { result ≡ spares_behind keys }
{
    keys.div_ceil(SLOTS).saturating_sub(1)
}
