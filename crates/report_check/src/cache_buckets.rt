//! The machine of cache mode as the judge has it: bucket by bucket.
ghost use Rattle.std.specs.Prelude.{◌≡◌, ◌<◌, ◌&&◌, IfOk, MatchBool, OnOk, position};
ghost use Rattle.mica_words.specs.Hash.{bucket_of};
ghost use Rattle.mica_words.specs.Item.{KeyFits};
ghost use Rattle.mica_words.specs.Stamp.{tail_of};
ghost use Rattle.partition_model.specs.Answer.{IsAnswer};
ghost use Rattle.partition_model.specs.Cache.{Cache, has_key, is_live, start, value_in};
ghost use Rattle.partition_model.specs.Records.{AreRising};
ghost use Rattle.partition_model.specs.CacheStep.{after, reply, without_passed};
ghost use Rattle.partition_model.specs.Limits.{last_tail};
ghost use Rattle.partition_model.specs.Options.{IsValid};
ghost use Rattle.partition_model.specs.Write.{HasValueOf, is_accepted, write_of};
ghost use Rattle.report_check.specs.Machines.{bucket_part, AreBuckets, IsReachable, TakesInBuckets};

use mica_model::{Answer, CacheRecord, CacheState, ItemBuf, Mode, Op, Options, Outcome};
use mica_words::{bucket_of, key_hash};
use outside::NoMemory;
use std::alloc::Global;

/// A partition in cache mode. Each bucket has its records by themselves, as they were when it was last met: those that the
/// log has passed since then leave when it is met again.
#[derive(Drop)]
pub struct CacheBuckets {
    options: Options,
    buckets: Vec<CacheState>,
    stamp: u64,
    accepted: u64,
}

impl CacheBuckets {
    /// An empty partition.
    pub fn new(alloc: Global, options: &Options) -> Result<Self, NoMemory>
        requires valid { IsValid options.now }
        requires mode { options.now.mode ≡ Mode.Cache }
        ensures buckets { IfOk result (AreBuckets start) }
        ensures options { IfOk result (λ machine. machine.options ≡ options.now) }
    {
        let mut buckets = Vec::new(alloc);
        for _ in 0..options.buckets {
            buckets.push(CacheState::new(alloc))?;
        }
        Ok(CacheBuckets {
            options: *options,
            buckets,
            stamp: 0,
            accepted: 0,
        })
    }

    /// The stamp of the state.
    pub fn stamp(&self) -> u64
        ensures { result ≡ self.now.stamp }
    {
        self.stamp
    }

    /// The value of the key, which the buffer then has, or a miss, at which it is empty.
    pub fn answer(&self, key: &[u8], out: &mut ItemBuf) -> Answer
        requires { (cache : Cache) × AreBuckets cache self.now }
        ensures { (cache : Cache) → AreBuckets cache self.now → IsAnswer result out.new (value_in cache key.now) }
    {
        let bucket = bucket_number(&self.options, key);
        let records = self.buckets[bucket].records();
        match find_live(records, self.options.words, self.stamp, key) {
            Some(at) => {
                let record = &records[at];
                out.set(record.value());
                Answer::Hit
            }
            None => {
                out.clear();
                Answer::Miss
            }
        }
    }

    /// Takes a write, if this is the reply to it, and says whether it is. A write that is refused changes nothing.
    pub fn take(
        &mut self,
        alloc: Global,
        op: Op,
        key: &[u8],
        value: &[u8],
        outcome: Outcome,
    ) -> Result<bool, NoMemory>
        requires key { KeyFits key.now }
        requires value { HasValueOf op value.now }
        requires buckets { (cache : Cache) × AreBuckets cache self.old }
        ensures { IfOk result (λ may. (cache : Cache) → AreBuckets cache self.old
            → MatchBool may (TakesInBuckets cache (write_of op key.now value.now) outcome self.old self.new)
            (¬ (outcome ≡ reply self.old.options cache (write_of op key.now value.now)))) }
    {
        let options = self.options;
        let at = bucket_number(&options, key);
        let bucket = &mut self.buckets[at];
        catch_up(bucket, &options, self.stamp, self.accepted);
        if !bucket.replies(&options, op, key, value, outcome) {
            return Ok(false);
        }
        if outcome.is_accepted() {
            write(bucket, alloc, &options, op, key, value)?;
            self.stamp = bucket.stamp();
            self.accepted = bucket.accepted();
        }
        Ok(true)
    }
}

#[tactic(auto, unfolding(mica_words::specs::Hash::bucket_of))]
fn bucket_number(options: &Options, key: &[u8]) -> usize
    requires { IsValid options.now }
    ensures within { result < options.now.buckets }
    ensures value { result ≡ bucket_of options.now.hashing key.now options.now.buckets }
{
    bucket_of(options.hashing.key_hash(key), options.buckets) as usize
}

// The place of the key's record, if it has one that the log has not passed.
fn find_live(records: &[CacheRecord], words: u32, stamp: u64, key: &[u8]) -> Option<usize>
    ensures { result ≡ position (λ held. has_key key.now held && is_live words stamp held.offset) records.now }
{
    let hash = key_hash(key);
    records.iter().position(|record| record.has_key_hashed(key, hash)
        && record.is_live(words, stamp))
}

// The records that the log has passed leave.
fn drop_passed(bucket: &mut CacheState, options: &Options)
    requires { AreRising bucket.old.records }
    ensures { bucket.new ≡ without_passed options.now bucket.old }
{
    let passed = bucket.passed(options);
    bucket.drop_first(passed);
}

// The stamp and the count of accepted writes become those of the partition.
fn catch_up(bucket: &mut CacheState, options: &Options, stamp: u64, accepted: u64)
    requires { AreRising bucket.old.records }
    ensures { bucket.new ≡ without_passed options.now (record bucket.old { stamp = stamp; accepted = accepted }) }
{
    bucket.catch_up(stamp, accepted);
    drop_passed(bucket, options);
}

// An accepted write to a key of the bucket.
fn write(
    bucket: &mut CacheState,
    alloc: Global,
    options: &Options,
    op: Op,
    key: &[u8],
    value: &[u8],
) -> Result<(), NoMemory>
    requires valid { IsValid options.now }
    requires key { KeyFits key.now }
    requires value { HasValueOf op value.now }
    requires part { (cache : Cache) × IsReachable options.now cache
        × (bucket.old ≡ bucket_part options.now (bucket_of options.now.hashing key.now options.now.buckets) cache) }
    requires unworn { bucket.old.accepted < options.now.wear }
    requires room { tail_of bucket.old.stamp < last_tail }
    ensures { OnOk result (bucket.new ≡ after options.now bucket.old (write_of op key.now value.now)) }
{
    bucket.write(alloc, options, op, key, value)?;
    drop_passed(bucket, options);
    let displaced = bucket.displaced(options, key);
    bucket.remove(displaced);
    bucket.count();
    Ok(())
}
