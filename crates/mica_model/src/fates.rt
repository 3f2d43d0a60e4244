//! What became of each key of a cache machine, found by one look-up.
ghost use Rattle.std.specs.Prelude.{◌≡◌, ℕ, List, OnOk, IsSome, IfOk};
ghost use Rattle.mica_model.specs.CacheFields.{fate_in, marked, marked_passed, no_notes, notes_of};

use crate::cache_record::CacheRecord;
use outside::NoMemory;
use partition_model::Fate;
use std::alloc::Global;
use std::collections::BTreeMap;

/// A note for each key that was written, and maybe for others, which says what became of it.
#[derive(Drop)]
pub struct Fates {
    notes: BTreeMap<Vec<u8>, Fate>,
}

impl Fates {
    /// No notes.
    pub fn new(alloc: Global) -> Self
        ensures { notes_of result ≡ no_notes }
    {
        Fates {
            notes: BTreeMap::new(alloc),
        }
    }

    /// The fate of the key, which is never without a note.
    pub fn get(&self, key: &[u8]) -> Fate
        ensures { result ≡ fate_in (notes_of self.now) key.now }
    {
        match self.notes.get(key) {
            Some(fate) => *fate,
            None => Fate::Never,
        }
    }

    /// Sees that the key has a note. No fate changes by it.
    pub fn add(&mut self, alloc: Global, key: &[u8]) -> Result<(), NoMemory>
        ensures noted { OnOk result (IsSome (notes_of self.new key.now)) }
        ensures same { (k : List ℕ) → fate_in (notes_of self.new) k ≡ fate_in (notes_of self.old) k }
    {
        if self.notes.get(key).is_none() {
            self.notes
                .insert(Vec::from_slice(alloc, key)?, Fate::Never)?;
        }
        Ok(())
    }

    /// Gives the key the fate, where it has a note. It takes no memory.
    pub fn mark(&mut self, key: &[u8], fate: Fate)
        ensures { notes_of self.new ≡ marked key.now fate (notes_of self.old) }
    {
        if let Some(noted) = self.notes.get_mut(key) {
            *noted = fate;
        }
    }
}

/// Marks each key whose record a log of this many words has passed at the stamp.
pub fn mark_passed(fates: &mut Fates, records: &[CacheRecord], words: u32, stamp: u64, fate: Fate)
    ensures { notes_of fates.new
        ≡ marked_passed fate words stamp records.now (notes_of fates.old) }
{
    for record in records {
        if !record.is_live(words, stamp) {
            fates.mark(record.key(), fate);
        }
    }
}
