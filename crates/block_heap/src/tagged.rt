//! The blocks of a heap, told by the size and the use of each at its first word and at its last, with a slot for each free one.
ghost use Rattle.std.specs.Prelude.{◌≡◌, ◌≢◌, ◌+◌, ◌-◌, ◌*◌, ◌%◌, ◌<◌, ◌≤◌, ℕ, [], ◌∷◌, ◌++◌, List, IfOk, Contains, nat_lt};
ghost use Rattle.block_heap.specs.declared.block.TheConstants.{MOST_WORDS};
ghost use Rattle.block_heap.specs.Blocks.{free_block, used_block, words_of, Fills, IsFree};
ghost use Rattle.block_heap.specs.declared.block.Block.{Block};
ghost use Rattle.block_heap.specs.Changes.{rest_of};
ghost use Rattle.block_heap.specs.Tags.{tag_of, size_in, slot_of, IsTagged, OthersStay, Rewrites, HasBlock, IsSeam, IsLastFree, IsFirstFree, Covers};

use crate::block::Block;
use crate::row::TagRow;
use outside::NoMemory;
use std::alloc::Global;
use std::marker::Model;

// A row of blocks that is read from its tags alone.
#[derive(Drop)]
pub struct TaggedBlocks {
    row: TagRow,
}

impl Model for TaggedBlocks {
    ghost use Rattle.std.specs.Prelude.{List, ℕ};
    ghost use Rattle.block_heap.specs.declared.block.Block.{Block};
    ghost use Rattle.block_heap.specs.Tags.{TellBlocks, blocks_of};

    ghost Value = { List Block × List ℕ };

    ghost view = { λ s. (blocks_of s.row.0 s.row.1, s.row.1) };

    ghost invariant = { λ s. TellBlocks s.row.0 s.row.1 (blocks_of s.row.0 s.row.1) };
}

// The size that a tag tells.
fn size_in(tag: u32) -> u32
    ensures { result ≡ size_in tag }
{
    if tag % 4 == 3 {
        tag / 4 % 2 + 1
    } else {
        tag / 4 + 1
    }
}

// The tag of a block that has no slot yet.
fn plain_tag(block: Block) -> u32
    requires some { 0 < block.size }
    requires limit { block.size ≤ MOST_WORDS }
    ensures size { size_in result ≡ block.size }
    ensures used { nat_lt (result % 4) 2 ≡ block.used }
{
    let tag = (block.size - 1) * 4;
    if block.used { tag + 1 } else { tag + 2 }
}

// Writes the tag of a block's last word, unless no word is behind it.
fn tag_last(row: &mut TagRow, end: u32, tag: u32)
    requires some { 0 < end }
    requires within { end ≤ row.old.0 }
    ensures last { end < row.new.0 → tag_of row.new.1 (end - 1) ≡ tag }
    ensures others { (place : ℕ) → place ≢ end - 1 → tag_of row.new.1 place ≡ tag_of row.old.1 place }
    ensures words { row.new.0 ≡ row.old.0 }
{
    if end < row.words() {
        row.set(end - 1, tag);
    }
}

// Writes a tag that tells a block at both its ends.
fn tag_ends(row: &mut TagRow, block: Block, tag: u32)
    requires some { 0 < block.size }
    requires within { block.place + block.size ≤ row.old.0 }
    requires size { size_in tag ≡ block.size }
    requires used { nat_lt (tag % 4) 2 ≡ block.used }
    ensures here { IsTagged row.new.0 row.new.1 block }
    ensures first { tag_of row.new.1 block.place ≡ tag }
    ensures others { OthersStay row.old.1 row.new.1 block }
    ensures words { row.new.0 ≡ row.old.0 }
{
    let _words = row.words();
    tag_last(row, block.place + block.size, tag);
    row.set(block.place, tag);
}

// Writes a block's size and use at both its ends.
fn tag(row: &mut TagRow, block: Block)
    requires some { 0 < block.size }
    requires within { block.place + block.size ≤ row.old.0 }
    ensures here { IsTagged row.new.0 row.new.1 block }
    ensures others { OthersStay row.old.1 row.new.1 block }
    ensures words { row.new.0 ≡ row.old.0 }
{
    let _words = row.words();
    tag_ends(row, block, plain_tag(block));
}

// Writes the slot of a free block.
fn write_slot(row: &mut TagRow, block: Block, slot: u32)
    requires some { 0 < block.size }
    requires within { block.place + block.size ≤ row.old.0 }
    requires tagged { IsTagged row.old.0 row.old.1 block }
    requires free { IsFree block }
    requires few { 2 * slot < MOST_WORDS }
    ensures here { IsTagged row.new.0 row.new.1 block }
    ensures slot { slot_of row.new.1 block ≡ slot }
    ensures tags { Rewrites row.old.1 row.new.1 block.place (block.place + block.size) }
    ensures words { row.new.0 ≡ row.old.0 }
{
    let _words = row.words();
    if block.size < 3 {
        tag_ends(row, block, (slot * 2 + block.size - 1) * 4 + 3);
    } else {
        row.set(block.place + 1, slot);
    }
}

impl TaggedBlocks {
    // One free block of all words, which has no slot yet.
    pub fn new(alloc: Global, words: u32) -> Result<Self, NoMemory>
        requires some { 1 ≤ words }
        requires limit { words ≤ MOST_WORDS }
        ensures { IfOk result (λ tagged. tagged.0 ≡ free_block 0 words ∷ []) }
    {
        let mut row = TagRow::new(alloc, words)?;
        tag(&mut row, Block::free(0, words));
        Ok(TaggedBlocks { row })
    }

    // How many words there are.
    pub fn words(&self) -> u32
        ensures words { result ≡ words_of self.now.0 }
        ensures limit { result ≤ MOST_WORDS }
    {
        self.row.words()
    }

    // The size of the block that begins at the place.
    pub fn size_at(&self, place: u32) -> u32
        requires { HasBlock self.now.0 place }
        ensures { (block : Block) → Contains self.now.0 block → block.place ≡ place → result ≡ block.size }
    {
        size_in(self.row.tag(place))
    }

    // The slot of a free block.
    pub fn slot_at(&self, block: Block) -> u32
        requires { block.place < MOST_WORDS }
        ensures { result ≡ slot_of self.now.1 block }
    {
        if block.size < 3 {
            self.row.tag(block.place) / 8
        } else {
            self.row.tag(block.place + 1)
        }
    }

    // The free block that ends at the place, where there is one.
    pub fn free_before(&self, place: u32) -> Option<Block>
        requires seam { IsSeam self.now.0 place }
        requires within { place < words_of self.now.0 }
        ensures { (before after : List Block) → self.now.0 ≡ before ++ after → Fills 0 before place → IsLastFree before result }
    {
        if place == 0 {
            return None;
        }
        let last = self.row.tag(place - 1);
        if last % 4 < 2 {
            return None;
        }
        let size = size_in(last);
        Some(Block::free(place - size, size))
    }

    // The free block that begins at the place, where there is one.
    pub fn free_at(&self, place: u32) -> Option<Block>
        requires { IsSeam self.now.0 place }
        ensures { (before after : List Block) → self.now.0 ≡ before ++ after → Fills 0 before place → IsFirstFree after result }
    {
        if place == self.row.words() {
            return None;
        }
        let first = self.row.tag(place);
        if first % 4 < 2 {
            return None;
        }
        Some(Block::free(place, size_in(first)))
    }

    // Makes one block of those that lie where it is to lie.
    pub fn replace(&mut self, block: Block)
        requires some { 0 < block.size }
        requires covers { Covers self.old.0 block }
        ensures blocks { (before middle after : List Block) → self.old.0 ≡ before ++ (middle ++ after)
            → Fills block.place middle (block.place + block.size) → self.new.0 ≡ before ++ block ∷ after }
        ensures tags { Rewrites self.old.1 self.new.1 block.place (block.place + block.size) }
    {
        tag(&mut self.row, block);
    }

    // Uses the first words of a block, and frees the others.
    pub fn cut(&mut self, block: Block, need: u32)
        requires some { 0 < need }
        requires enough { need ≤ block.size }
        requires among { Contains self.old.0 block }
        ensures blocks { (before after : List Block) → self.old.0 ≡ before ++ block ∷ after
            → self.new.0 ≡ before ++ used_block block.place need ∷ (rest_of (block.place + need) (block.size - need) ++ after) }
        ensures tags { Rewrites self.old.1 self.new.1 block.place (block.place + block.size) }
    {
        let used = Block::used(block.place, need);
        if need == block.size {
            tag(&mut self.row, used);
            return;
        }
        tag(
            &mut self.row,
            Block::free(block.place + need, block.size - need),
        );
        tag(&mut self.row, used);
    }

    // Gives a free block a slot.
    pub fn put_slot(&mut self, block: Block, slot: u32)
        requires among { Contains self.old.0 block }
        requires free { IsFree block }
        requires few { 2 * slot < MOST_WORDS }
        ensures blocks { self.new.0 ≡ self.old.0 }
        ensures slot { slot_of self.new.1 block ≡ slot }
        ensures tags { Rewrites self.old.1 self.new.1 block.place (block.place + block.size) }
    {
        write_slot(&mut self.row, block, slot);
    }
}
