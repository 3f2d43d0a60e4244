//! The cells of a partition's keys, with the numbers that a put asks for: so no put counts keys or adds up rooms.
ghost use Rattle.std.specs.Prelude.{◌≡◌, ◌+◌, ◌-◌, ◌*◌, ◌<◌, ◌≤◌, ◌^◌, ◌%◌, IfOk, OnOk, OnErr, IsTrue, ◌↔◌};
ghost use Rattle.std.specs.FinMap.{empty, get, insert, remove, len};
ghost use Rattle.std.specs.Option.{option_map};
ghost use Rattle.mica_words.specs.Hash.{bucket_of};
ghost use Rattle.mica_words.specs.Item.{StoredFits};
ghost use Rattle.mica_words.specs.declared.entry.TheConstants.{SLOTS};
ghost use Rattle.partition_model.specs.Store.{room_of, rooms, spares_in_use};
ghost use Rattle.partition_model.specs.StoreStep.{room_after};
ghost use Rattle.mica_model.specs.CellTable.{LacksSpare, with_cells, cell_of};

use crate::bucket_keys::BucketKeys;
use crate::cell::Cell;
use mica_words::{Hashing, SLOTS, bucket_of};
use outside::{Bytes, NoMemory};
use partition_model::keeps;
use std::alloc::Global;
use std::collections::BTreeMap;
use std::marker::Model;

// The cells of keys, with what their buckets and their rooms come to.
#[derive(Drop)]
pub struct CellTable {
    hashing: Hashing,
    buckets: u32,
    cells: BTreeMap<Vec<u8>, Cell>,
    counts: BucketKeys,
    // The words of all rooms.
    rooms: u32,
}

impl Model for CellTable {
    ghost use Rattle.mica_model.specs.CellTable.{Table, table_code};

    ghost Value = { Table };

    ghost coded = { table_code };

    ghost use Rattle.mica_model.specs.CellTableFields.{table_of, IsTable};

    ghost view = { table_of };

    ghost invariant = { IsTable };
}

impl CellTable {
    // A table without cells.
    pub fn new(alloc: Global, hashing: Hashing, buckets: u32) -> Result<Self, NoMemory>
        requires { 1 ≤ buckets }
        ensures { IfOk result (λ table. table ≡ record { hashing = hashing; buckets = buckets; cells = empty }) }
    {
        Ok(CellTable {
            hashing,
            buckets,
            cells: BTreeMap::new(alloc),
            counts: BucketKeys::new(alloc, buckets)?,
            rooms: 0,
        })
    }

    // The cell of a key, if it has one.
    pub fn get(&self, key: &[u8]) -> Option<&Cell>
        ensures { option_map (λ cell. cell_of cell.now) result ≡ get self.now.cells key.now }
    {
        self.cells.get(key)
    }

    // The words that the key may use once an item of this size is put.
    pub fn room_after(&self, key: &[u8], size: u32) -> u32
        ensures { result ≡ room_after (get self.now.cells key.now) size }
    {
        match self.get(key) {
            Some(cell) => {
                if keeps(size, cell.room) {
                    cell.room
                } else {
                    size
                }
            }
            None => size,
        }
    }

    // The words of all rooms.
    pub fn rooms(&self) -> u32
        ensures { result ≡ rooms self.now.cells }
    {
        self.rooms
    }

    // Whether the rooms may lie so that no block of this size is left of this many words.
    pub fn may_lack_block(&self, words: u32, size: u32) -> bool
        requires size { 1 ≤ size }
        requires words { rooms self.now.cells ≤ words }
        ensures { IsTrue result
            ↔ (words ≤ (len self.now.cells + 1) * (size - 1) + rooms self.now.cells) }
    {
        let free = words - self.rooms();
        free as usize <= (self.len() + 1).saturating_mul(size as usize - 1)
    }

    // How many keys there are.
    fn len(&self) -> usize
        ensures number { result ≡ len self.now.cells }
        ensures small { result < 2 ^ 63 }
    {
        self.cells.len()
    }

    // Whether a new key would need a spare bucket, where all of them are in use.
    pub fn lacks_spare(&self, key: &[u8], spares: u32) -> bool
        ensures { IsTrue result ↔ LacksSpare self.now key.now spares }
    {
        let keys = self.counts.keys[self.bucket_of(key)];
        is_full(keys) && self.counts.spares == spares
    }

    #[tactic(auto, unfolding(mica_words::specs::Hash::bucket_of))]
    fn bucket_of(&self, key: &[u8]) -> usize
        ensures within { result < self.now.buckets }
        ensures value { result ≡ bucket_of self.now.hashing key.now self.now.buckets }
    {
        bucket_of(self.hashing.key_hash(key), self.buckets) as usize
    }

    // Gives the key this value and room.
    pub fn put(
        &mut self,
        alloc: Global,
        key: &[u8],
        value: &[u8],
        room: u32,
    ) -> Result<(), NoMemory>
        requires value { StoredFits value.now }
        requires words { rooms self.old.cells + room < 2 ^ 32 + room_of (get self.old.cells key.now) }
        requires spares { spares_in_use self.old.hashing self.old.buckets self.old.cells ≤ 65536 }
        ensures ok { OnOk result (self.new ≡ with_cells self.old
            (insert self.old.cells key.now (record { value = value.now; room = room }))) }
        ensures err { OnErr result (self.new ≡ self.old) }
    {
        let bucket = self.bucket_of(key);
        let cell = Cell {
            value: Bytes::copy(alloc, value)?,
            room,
        };
        match self.cells.insert(Vec::from_slice(alloc, key)?, cell)? {
            Some(old) => self.rooms = self.rooms - old.room + room,
            None => {
                self.rooms += room;
                let keys = self.counts.keys[bucket] + 1;
                self.counts.set(bucket, keys);
            }
        }
        Ok(())
    }

    // Takes the key's cell away, if it has one.
    pub fn remove(&mut self, key: &[u8])
        ensures { self.new ≡ with_cells self.old (remove self.old.cells key.now) }
    {
        let bucket = self.bucket_of(key);
        if let Some(old) = self.cells.remove(key) {
            self.rooms -= old.room;
            let keys = self.counts.keys[bucket] - 1;
            self.counts.set(bucket, keys);
        }
    }
}

// Whether a bucket of this many keys, with the spares behind it, has no free entry.
fn is_full(keys: u32) -> bool
    ensures { IsTrue result ↔ (0 < keys) × (keys % SLOTS ≡ 0) }
{
    keys > 0 && keys % SLOTS == 0
}
