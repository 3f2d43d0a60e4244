//! A record of the cache machine.
ghost use Rattle.std.specs.Prelude.{◌≡◌, ◌≤◌};
ghost use Rattle.mica_words.specs.Hash.{fnv1a};
ghost use Rattle.partition_model.specs.Cache.{has_key, is_live as is_live_at};
ghost use Rattle.partition_model.specs.CacheStep.{is_in_bucket as is_in};
ghost use Rattle.partition_model.specs.Options.{IsValid};

use mica_words::{Hashing, bucket_of, key_hash, tail_of};
use outside::Bytes;
use partition_model::Options;
use std::marker::Model;

/// What the log has of a key, and the key's hash by FNV-1a, so that no step under it hashes the keys of other records.
#[derive(Drop)]
pub struct CacheRecord {
    key: Bytes,
    hash: u64,
    value: Bytes,
    offset: u64,
    room: u32,
}

impl Model for CacheRecord {
    ghost use Rattle.std.specs.Prelude.{◌≡◌};
    ghost use Rattle.mica_words.specs.Hash.{fnv1a};
    ghost use Rattle.partition_model.specs.Cache.{Record};
    ghost use Rattle.mica_model.specs.Codes.{record_code};

    ghost Value = { Record };

    ghost coded = { record_code };

    ghost view = { λ r. record { key = r.key; value = r.value; offset = r.offset; room = r.room } };

    ghost invariant = { λ r. r.hash ≡ fnv1a r.key };
}

impl CacheRecord {
    /// A record of these parts.
    pub fn new(key: Bytes, value: Bytes, offset: u64, room: u32) -> Self
        ensures { result ≡ record { key = key; value = value; offset = offset; room = room } }
    {
        CacheRecord {
            hash: key_hash(key.bytes()),
            key,
            value,
            offset,
            room,
        }
    }

    /// The record's key.
    pub fn key(&self) -> &[u8]
        ensures { result.now ≡ self.now.key }
    {
        self.key.bytes()
    }

    /// The record's value.
    pub fn value(&self) -> &[u8]
        ensures { result.now ≡ self.now.value }
    {
        self.value.bytes()
    }

    /// The words that its item may use.
    pub fn room(&self) -> u32
        ensures { result ≡ self.now.room }
    {
        self.room
    }

    /// Whether the record is of this key.
    pub fn has_key(&self, key: &[u8]) -> bool
        ensures { result ≡ has_key key.now self.now }
    {
        self.key.bytes() == key
    }

    /// `has_key` where the key's hash is at hand, by which most keys are told apart.
    pub fn has_key_hashed(&self, key: &[u8], hash: u64) -> bool
        ensures { hash ≡ fnv1a key.now → result ≡ has_key key.now self.now }
    {
        self.hash == hash && self.has_key(key)
    }

    /// Whether a log of this many words has not passed it.
    pub fn is_live(&self, words: u32, stamp: u64) -> bool
        ensures { result ≡ is_live_at words stamp self.now.offset }
    {
        tail_of(stamp).saturating_sub(u64::from(words)) <= self.offset
    }

    /// Whether the record's key is in this bucket.
    #[tactic(auto, unfolding(mica_words::specs::Hash::bucket_of, mica_words::specs::Hash::hash_of))]
    pub fn is_in_bucket(&self, bucket: u32, options: &Options) -> bool
        requires { IsValid options.now }
        ensures { result ≡ is_in options.now bucket self.now }
    {
        let hash = match options.hashing {
            Hashing::Fnv1a => self.hash,
            hashing => hashing.key_hash(self.key.bytes()),
        };
        bucket_of(hash, options.buckets) == bucket
    }

    /// It begins at this offset now, in this room.
    pub fn renew(&mut self, offset: u64, room: u32)
        ensures { self.new ≡ record self.old { offset = offset; room = room } }
    {
        self.offset = offset;
        self.room = room;
    }

    /// Gives the record another value, in its place.
    pub fn rewrite(&mut self, value: Bytes)
        ensures { self.new ≡ record self.old { value = value } }
    {
        self.value = value;
    }
}
