//! The row of a heap's tags, one for each word, which is written as it is used.
ghost use Rattle.std.specs.Prelude.{◌≡◌, ◌≢◌, ◌<◌, ◌≤◌, ℕ, ◌+◌, max, length, vec_capacity, IfOk};
ghost use Rattle.block_heap.specs.declared.block.TheConstants.{MOST_WORDS};
ghost use Rattle.block_heap.specs.Tags.{tag_of};

use outside::NoMemory;
use std::alloc::Global;
use std::marker::Model;

// The tags of so many words, one for each word.
#[derive(Drop)]
pub struct TagRow {
    words: u32,
    tags: Vec<u32>,
}

impl Model for TagRow {
    ghost use Rattle.std.specs.Prelude.{List, ℕ, vec_capacity};
    ghost use Rattle.block_heap.specs.Inside.{KeepsRow};

    ghost Value = { ℕ × List ℕ };

    ghost view = { λ s. (s.words, s.tags.items) };

    ghost invariant = { λ s. KeepsRow s.words (vec_capacity s.tags) };
}

// Writes a tag, and 0 for those before it that were never written.
fn write(tags: &mut Vec<u32>, place: usize, tag: u32)
    requires { place < vec_capacity tags.old }
    ensures here { tag_of tags.new.items place ≡ tag }
    ensures others { (other : ℕ) → other ≢ place → tag_of tags.new.items other ≡ tag_of tags.old.items other }
    ensures capacity { vec_capacity tags.old ≤ vec_capacity tags.new }
{
    if tags.len() <= place {
        tags.resize(place + 1, 0).unwrap();
    }
    tags[place] = tag;
}

impl TagRow {
    // No word has a tag.
    pub fn new(alloc: Global, words: u32) -> Result<Self, NoMemory>
        requires { words ≤ MOST_WORDS }
        ensures { IfOk result (λ row. row.0 ≡ words) }
    {
        let tags = Vec::with_capacity(alloc, words as usize)?;
        Ok(TagRow { words, tags })
    }

    // How many words have tags.
    pub fn words(&self) -> u32
        ensures words { result ≡ self.now.0 }
        ensures limit { result ≤ MOST_WORDS }
    {
        self.words
    }

    // A word's tag, or 0 where none was written.
    pub fn tag(&self, place: u32) -> u32
        ensures { result ≡ tag_of self.now.1 place }
    {
        let at = place as usize;
        if at < self.tags.len() {
            self.tags[at]
        } else {
            0
        }
    }

    // Changes one tag.
    pub fn set(&mut self, place: u32, tag: u32)
        requires { place < self.old.0 }
        ensures words { self.new.0 ≡ self.old.0 }
        ensures here { tag_of self.new.1 place ≡ tag }
        ensures others { (other : ℕ) → other ≢ place → tag_of self.new.1 other ≡ tag_of self.old.1 other }
    {
        write(&mut self.tags, place as usize, tag);
    }
}
