//! The state of a partition in cache mode, and the rules of a step.
ghost use Rattle.std.specs.Prelude.{◌≡◌, ◌+◌, ◌≤◌, ◌<◌, [], ◌↔◌, IsTrue, IfSome, OnOk, OnErr, length, drop, is_some, option_copied, position, count_by, vec_len, vec_capacity};
ghost use Rattle.mica_words.specs.Item.{KeyFits, StoredFits};
ghost use Rattle.partition_model.specs.Cache.{start, has_key, is_live, record_of, value_in};
ghost use Rattle.partition_model.specs.Records.{ValuesFit, IsUnique};
ghost use Rattle.mica_model.specs.CacheFields.{displaced_at, kept_place, passed_front, without_at};
ghost use Rattle.partition_model.specs.CacheStep.{after_append, new_record, after_put, after_touch, after_delete, after_write, reply, kept_record, is_in_bucket};
ghost use Rattle.mica_words.specs.Stamp.{tail_of};
ghost use Rattle.partition_model.specs.Limits.{last_tail};
ghost use Rattle.partition_model.specs.declared.options.TheConstants.{MAX_WEAR};
ghost use Rattle.partition_model.specs.Options.{IsValid};
ghost use Rattle.partition_model.specs.Write.{HasValueOf, write_of};

use crate::cache_record::CacheRecord;
use mica_words::{SLOTS, bucket_of, item_size, key_hash, tail_of};
use outside::{Bytes, NoMemory};
use partition_model::{Op, Options, Outcome, has_room, keeps};
use std::alloc::Global;
use std::marker::Model;

/// The state of a partition in cache mode: records in the order of the log, the stamp, and how many writes were
/// accepted. Each of its methods is one rule of a step.
#[derive(Drop)]
pub struct CacheState {
    records: Vec<CacheRecord>,
    stamp: u64,
    accepted: u64,
}

impl Model for CacheState {
    ghost use Rattle.partition_model.specs.Cache.{Cache};
    ghost use Rattle.mica_model.specs.Codes.{cache_code};

    ghost Value = { Cache };

    ghost coded = { cache_code };

    ghost view = { λ s. record { records = s.records.items; stamp = s.stamp; accepted = s.accepted } };
}

impl CacheState {
    /// The empty cache.
    pub fn new(alloc: Global) -> Self
        ensures { result ≡ start }
    {
        CacheState {
            records: Vec::new(alloc),
            stamp: 0,
            accepted: 0,
        }
    }

    /// The stamp of the state.
    pub fn stamp(&self) -> u64
        ensures { result ≡ self.now.stamp }
    {
        self.stamp
    }

    /// How many writes were accepted.
    pub fn accepted(&self) -> u64
        ensures { result ≡ self.now.accepted }
    {
        self.accepted
    }

    /// Stamp and count become those of the partition whose part it is: each write that they count was to other keys.
    pub fn catch_up(&mut self, stamp: u64, accepted: u64)
        ensures { self.new ≡ record self.old { stamp = stamp; accepted = accepted } }
    {
        self.stamp = stamp;
        self.accepted = accepted;
    }

    /// The records in order, the oldest first.
    pub fn records(&self) -> &[CacheRecord]
        ensures { result.now ≡ self.now.records }
    {
        self.records.as_slice()
    }

    fn holds(&self, key: &[u8]) -> bool
        ensures { result ≡ is_some (record_of self.now key.now) }
    {
        find_record(&self.records, key).is_some()
    }

    /// The value of the key, if it has one.
    pub fn value(&self, key: &[u8]) -> Option<&[u8]>
        ensures { option_copied result ≡ value_in self.now key.now }
    {
        match find_record(&self.records, key) {
            Some(at) => {
                let record = &self.records[at];
                Some(record.value())
            }
            None => None,
        }
    }

    /// The reply to a write.
    #[tactic(auto, unfolding(partition_model::specs::CacheStep::reply))]
    pub fn reply(&self, options: &Options, op: Op, key: &[u8], value: &[u8]) -> Outcome
        requires key { KeyFits key.now }
        requires value { HasValueOf op value.now }
        ensures { result ≡ reply options.now self.now (write_of op key.now value.now) }
    {
        if self.accepted >= options.wear || !has_room(self.stamp) {
            return Outcome::Worn;
        }
        match op {
            Op::Add if self.holds(key) => Outcome::Exists,
            Op::Put | Op::Add if item_size(key.len(), value.len()) <= options.words => {
                Outcome::Stored
            }
            Op::Put | Op::Add => Outcome::FullBlock,
            Op::Touch if self.holds(key) => Outcome::Touched,
            Op::Del if self.holds(key) => Outcome::Deleted,
            Op::Touch | Op::Del => Outcome::Absent,
        }
    }

    /// Whether this is the reply to a write.
    pub fn replies(
        &self,
        options: &Options,
        op: Op,
        key: &[u8],
        value: &[u8],
        outcome: Outcome,
    ) -> bool
        requires key { KeyFits key.now }
        requires value { HasValueOf op value.now }
        ensures { IsTrue result
            ↔ (outcome ≡ reply options.now self.now (write_of op key.now value.now)) }
    {
        self.reply(options, op, key, value) == outcome
    }

    /// An accepted write itself, before the log passes and the index displaces.
    pub fn write(
        &mut self,
        alloc: Global,
        options: &Options,
        op: Op,
        key: &[u8],
        value: &[u8],
    ) -> Result<(), NoMemory>
        requires key { KeyFits key.now }
        requires value { HasValueOf op value.now }
        requires room { tail_of self.old.stamp < last_tail }
        requires unique { IsUnique self.old.records }
        requires values { ValuesFit self.old.records }

        ensures ok { OnOk result
            (self.new ≡ after_write options.now self.old (write_of op key.now value.now)) }
        ensures err { OnErr result (self.new ≡ self.old) }
    {
        match op {
            Op::Put => self.put(alloc, options, key, value)?,
            Op::Add => {
                let found = find_record(&self.records, key);
                self.append(alloc, found, key, value)?
            }
            Op::Touch => self.touch(key),
            Op::Del => self.delete(key),
        }
        Ok(())
    }

    fn put(
        &mut self,
        alloc: Global,
        options: &Options,
        key: &[u8],
        value: &[u8],
    ) -> Result<(), NoMemory>
        requires key { KeyFits key.now }
        requires value { StoredFits value.now }
        requires room { tail_of self.old.stamp < last_tail }
        requires unique { IsUnique self.old.records }

        ensures ok { let write = write_of Op.Put key.now value.now in
            OnOk result (self.new ≡ after_put (kept_record options.now self.old write) self.old write) }
        ensures err { OnErr result (self.new ≡ self.old) }
    {
        let found = find_record(&self.records, key);
        let Some(at) = self.kept_at(options, found, key, value) else {
            return self.append(alloc, found, key, value);
        };
        let value = Bytes::copy(alloc, value)?;
        let record = &mut self.records[at];
        record.rewrite(value);
        self.stamp += 1;
        Ok(())
    }

    // The place of the record in whose room a put is kept, if it is. The key's record stands where it was found.
    fn kept_at(
        &self,
        options: &Options,
        found: Option<usize>,
        key: &[u8],
        value: &[u8],
    ) -> Option<usize>
        requires found { found ≡ position (has_key key.now) self.now.records }
        requires key { KeyFits key.now }
        requires value { StoredFits value.now }
        requires room { tail_of self.now.stamp < last_tail }
        ensures { result ≡ kept_place options.now self.now (write_of Op.Put key.now value.now) }
    {
        let at = found?;
        let record = &self.records[at];
        if keeps(item_size(key.len(), value.len()), record.room())
            && record.is_live(options.words, self.stamp + 1)
        {
            Some(at)
        } else {
            None
        }
    }

    // Puts a record of the key last, in the place of the one that it may have.
    fn append(
        &mut self,
        alloc: Global,
        found: Option<usize>,
        key: &[u8],
        value: &[u8],
    ) -> Result<(), NoMemory>
        requires found { found ≡ position (has_key key.now) self.old.records }
        requires key { KeyFits key.now }
        requires value { StoredFits value.now }
        requires room { tail_of self.old.stamp < last_tail }
        requires unique { IsUnique self.old.records }

        ensures ok { OnOk result
            (self.new ≡ after_append self.old (new_record self.old key.now value.now)) }
        ensures err { OnErr result (self.new ≡ self.old) }
    {
        let size = item_size(key.len(), value.len());
        let offset = tail_of(self.stamp);
        let record = CacheRecord::new(
            Bytes::copy(alloc, key)?,
            Bytes::copy(alloc, value)?,
            offset,
            size,
        );
        self.records.reserve(1)?;
        remove_at(&mut self.records, found);
        self.records.push_reserved(record);
        self.stamp += 65536 * u64::from(size);
        Ok(())
    }

    // The key's record, if it has one, becomes the last, in a room of its item's size.
    fn touch(&mut self, key: &[u8])
        requires key { KeyFits key.now }
        requires room { tail_of self.old.stamp < last_tail }
        requires unique { IsUnique self.old.records }
        requires values { ValuesFit self.old.records }
        ensures { self.new
            ≡ after_touch (record_of self.old key.now) self.old (write_of Op.Touch key.now []) }
    {
        let Some(at) = find_record(&self.records, key) else {
            self.stamp += 1;
            return;
        };
        let mut record = self.records.remove(at);
        let size = item_size(key.len(), record.value().len());
        record.renew(tail_of(self.stamp), size);
        self.records.push_reserved(record);
        self.stamp += 65536 * u64::from(size);
    }

    fn delete(&mut self, key: &[u8])
        requires room { tail_of self.old.stamp < last_tail }
        requires unique { IsUnique self.old.records }
        ensures { self.new ≡ after_delete self.old (write_of Op.Del key.now []) }
    {
        let found = find_record(&self.records, key);
        remove_at(&mut self.records, found);
        self.stamp += 1;
    }

    /// How many records the log has passed: the first so many, since their offsets rise.
    pub fn passed(&self, options: &Options) -> usize
        ensures { result ≡ passed_front options.now.words self.now.stamp self.now.records }
    {
        match first_live(&self.records, options.words, self.stamp) {
            Some(at) => at,
            None => self.records.len(),
        }
    }

    /// The first so many records go.
    pub fn drop_first(&mut self, count: usize)
        requires { count ≤ length self.old.records }
        ensures { self.new ≡ record self.old { records = drop count self.old.records } }
    {
        drop_front(&mut self.records, count);
    }

    /// The place of the record that is displaced, if one is: the first of the key's bucket, where it has more
    /// than a bucket has entries.
    pub fn displaced(&self, options: &Options, key: &[u8]) -> Option<usize>
        requires { IsValid options.now }
        ensures { result ≡ displaced_at options.now key.now self.now.records }
    {
        let bucket = bucket_of(options.hashing.key_hash(key), options.buckets);
        if count_in_bucket(&self.records, options, bucket) != SLOTS as usize + 1 {
            return None;
        }
        first_in_bucket(&self.records, options, bucket)
    }

    /// The record at the place goes, if there is a place.
    pub fn remove(&mut self, at: Option<usize>)
        requires { IfSome at (λ at. at < length self.old.records) }
        ensures { self.new ≡ record self.old { records = without_at at self.old.records } }
    {
        remove_at(&mut self.records, at);
    }

    /// Counts one more accepted write.
    pub fn count(&mut self)
        requires { self.old.accepted < MAX_WEAR }
        ensures { self.new ≡ record self.old { accepted = self.old.accepted + 1 } }
    {
        self.accepted += 1;
    }
}

// The place of the key's record, if it has one.
fn find_record(records: &[CacheRecord], key: &[u8]) -> Option<usize>
    ensures { result ≡ position (has_key key.now) records.now }
{
    let hash = key_hash(key);
    records
        .iter()
        .position(|record| record.has_key_hashed(key, hash))
}

// The place of the first record that a log of this many words has not passed at the stamp.
fn first_live(records: &[CacheRecord], words: u32, stamp: u64) -> Option<usize>
    ensures { result ≡ position (λ held. is_live words stamp held.offset) records.now }
{
    records
        .iter()
        .position(|record| record.is_live(words, stamp))
}

// The first so many records go.
fn drop_front(records: &mut Vec<CacheRecord>, count: usize)
    requires { count ≤ length records.old.items }
    ensures { records.new.items ≡ drop count records.old.items }
{
    for _ in 0..count {
        records.remove(0);
    }
}

// The record at the place goes, if there is a place.
fn remove_at(records: &mut Vec<CacheRecord>, at: Option<usize>)
    requires { IfSome at (λ at. at < length records.old.items) }
    ensures items { records.new.items ≡ without_at at records.old.items }
    ensures len { vec_len records.new ≤ vec_len records.old }
    ensures capacity { vec_capacity records.new ≡ vec_capacity records.old }
{
    if let Some(at) = at {
        records.remove(at);
    }
}

fn first_in_bucket(records: &[CacheRecord], options: &Options, bucket: u32) -> Option<usize>
    requires { IsValid options.now }
    ensures { result ≡ position (is_in_bucket options.now bucket) records.now }
{
    records
        .iter()
        .position(|record| record.is_in_bucket(bucket, options))
}

fn count_in_bucket(records: &[CacheRecord], options: &Options, bucket: u32) -> usize
    requires { IsValid options.now }
    ensures { result ≡ count_by (is_in_bucket options.now bucket) records.now }
{
    records
        .iter()
        .filter(|record| record.is_in_bucket(bucket, options))
        .count()
}
