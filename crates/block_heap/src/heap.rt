//! The heap: its blocks, told by tags, and the lists of the free ones.
ghost use Rattle.std.specs.Prelude.{◌≡◌, ◌+◌, ◌<◌, ◌≤◌, ◌↔◌, ℕ, List, [], ◌∷◌, ◌++◌, IfOk, IfNone, IfSome, IsNone, Contains, All, length};
ghost use Rattle.block_heap.specs.declared.block.TheConstants.{MOST_WORDS};
ghost use Rattle.block_heap.specs.declared.block.Block.{Block};
ghost use Rattle.block_heap.specs.Blocks.{free_block, IsBlockList, HasUsed, HasLonger, NoneFits, MayLack, IsFree, IsLargest, words_of};
ghost use Rattle.block_heap.specs.Changes.{IsTaken, IsGiven, IsParted};
ghost use Rattle.block_heap.specs.Lists.{AreListed, list_of};
ghost use Rattle.block_heap.specs.Inside.{IsHeap, IsListable, blocks_in, words_in, AreShort, IsMost};
ghost use Rattle.block_heap.specs.Ranks.{rank_of};

use crate::block::Block;
use crate::lists::FreeLists;
use crate::ranks::rank_of;
use crate::tagged::TaggedBlocks;
use outside::NoMemory;
use std::alloc::Global;
use std::marker::Model;

/// Words that are given out in blocks, and come back.
#[derive(Drop)]
pub struct Heap {
    blocks: TaggedBlocks,
    free: FreeLists,
}

impl Model for Heap {
    ghost use Rattle.std.specs.Prelude.{List};
    ghost use Rattle.block_heap.specs.declared.block.Block.{Block};
    ghost use Rattle.block_heap.specs.Inside.{IsHeap};

    ghost Value = { List Block };

    ghost view = { λ s. s.blocks.0 };

    ghost invariant = { λ s. IsHeap s.blocks.0 s.blocks.1 s.free };
}

// Takes a free neighbour out of its list, and tells how many words it has.
fn unlist(free: &mut FreeLists, blocks: &TaggedBlocks, neighbour: Option<Block>) -> u32
    requires { IsListable free.old blocks.now.1 neighbour }
    ensures size { result ≡ words_in neighbour }
    ensures words { free.new.0 ≡ free.old.0 }
    ensures listed { (before after : List Block) → AreListed free.old blocks.now.1 (before ++ (blocks_in neighbour ++ after)) → AreListed free.new blocks.now.1 (before ++ after) }
{
    let Some(block) = neighbour else {
        return 0;
    };
    let slot = blocks.slot_at(block);
    free.remove(rank_of(block.size), slot);
    block.size
}

// The first block of a list that has as many words as are needed.
fn first_fit(blocks: &TaggedBlocks, free: &FreeLists, rank: u32, need: u32) -> Option<Block>
    requires rank { rank < 1152 }
    requires heap { IsHeap blocks.now.0 blocks.now.1 free.now }
    ensures none { IfNone result (AreShort blocks.now.0 blocks.now.1 (list_of free.now rank) need) }
    ensures some { IfSome result (λ block. Contains blocks.now.0 block × IsFree block × (need ≤ block.size)) }
{
    let mut listed = free.first(rank);
    while let Some(slot) = listed {
        let place = free.place(slot);
        let size = blocks.size_at(place);
        if size >= need {
            return Some(Block::free(place, size));
        }
        listed = free.after(slot);
    }
    None
}

// The first block of the next list that has one.
fn first_above(blocks: &TaggedBlocks, free: &FreeLists, rank: u32) -> Option<Block>
    requires rank { rank < 1152 }
    requires heap { IsHeap blocks.now.0 blocks.now.1 free.now }
    ensures none { IfNone result ((next : ℕ) → rank < next → next < 1152 → length (list_of free.now next) ≡ 0) }
    ensures some { IfSome result (λ block. Contains blocks.now.0 block × IsFree block × (rank < rank_of block.size)) }
{
    let next = free.next_above(rank)?;
    first_of(blocks, free, next)
}

// The first block of a list.
fn first_of(blocks: &TaggedBlocks, free: &FreeLists, rank: u32) -> Option<Block>
    requires rank { rank < 1152 }
    requires heap { IsHeap blocks.now.0 blocks.now.1 free.now }
    ensures some { IfSome result (λ block. Contains blocks.now.0 block × IsFree block × (rank_of block.size ≡ rank)) }
    ensures none { IfNone result (length (list_of free.now rank) ≡ 0) }
{
    let slot = free.first(rank)?;
    let place = free.place(slot);
    Some(Block::free(place, blocks.size_at(place)))
}

// A free block of as many words as are needed. Of the need's own list the first block is asked; each block of a list above is large enough.
// So the whole list is gone through only where sizes share it and no list above has a block.
fn fitting(blocks: &TaggedBlocks, free: &FreeLists, need: u32) -> Option<Block>
    requires some { 1 ≤ need }
    requires heap { IsHeap blocks.now.0 blocks.now.1 free.now }
    ensures none { IfNone result (NoneFits blocks.now.0 need) }
    ensures some { IfSome result (λ block. Contains blocks.now.0 block × IsFree block × (need ≤ block.size)) }
{
    if need > blocks.words() {
        return None;
    }
    let rank = rank_of(need);
    if let Some(block) = first_of(blocks, free, rank) {
        if block.size >= need {
            return Some(block);
        }
    }
    if let Some(block) = first_above(blocks, free, rank) {
        return Some(block);
    }
    first_fit(blocks, free, rank, need)
}

// The words of the largest block of a list.
fn most_words(blocks: &TaggedBlocks, free: &FreeLists, rank: u32) -> u32
    requires rank { rank < 1152 }
    requires heap { IsHeap blocks.now.0 blocks.now.1 free.now }
    ensures { IsMost blocks.now.0 blocks.now.1 (list_of free.now rank) result }
{
    let mut most = 0;
    let mut listed = free.first(rank);
    while let Some(slot) = listed {
        let place = free.place(slot);
        most = most.max(blocks.size_at(place));
        listed = free.after(slot);
    }
    most
}

impl Heap {
    /// One free block of all words.
    pub fn new(alloc: Global, words: u32) -> Result<Self, NoMemory>
        requires some { 1 ≤ words }
        requires limit { words ≤ MOST_WORDS }
        ensures { IfOk result (λ heap. heap ≡ free_block 0 words ∷ []) }
    {
        let mut blocks = TaggedBlocks::new(alloc, words)?;
        let mut free = FreeLists::new(alloc, words)?;
        let rank = rank_of(words);
        let slot = free.add(rank, 0);
        let block = Block::free(0, words);
        blocks.put_slot(block, slot);
        Ok(Heap { blocks, free })
    }

    /// The place of a block of as many words as are needed. Which free block it is cut from is left open.
    pub fn take(&mut self, need: u32) -> Option<u32>
        requires { 1 ≤ need }
        ensures none { IsNone result ↔ NoneFits self.old need }
        ensures may_lack { IfNone result (MayLack self.old need) }
        ensures unchanged { IfNone result (self.new ≡ self.old) }
        ensures taken { IfSome result (λ place. IsTaken self.old self.new place need) }
        ensures blocks { IsBlockList (words_of self.old) self.new }
    {
        let block = fitting(&self.blocks, &self.free, need)?;
        let slot = self.blocks.slot_at(block);
        self.free.remove(rank_of(block.size), slot);
        self.blocks.cut(block, need);
        if need < block.size {
            let rest = Block::free(block.place + need, block.size - need);
            let rank = rank_of(rest.size);
            let slot = self.free.add(rank, rest.place);
            self.blocks.put_slot(rest, slot);
        }
        Some(block.place)
    }

    /// Takes back the used block that begins at the place.
    pub fn give(&mut self, place: u32)
        requires { HasUsed self.old place }
        ensures given { IsGiven self.old self.new place }
        ensures blocks { IsBlockList (words_of self.old) self.new }
    {
        let size = self.blocks.size_at(place);
        let left = self.blocks.free_before(place);
        let right = self.blocks.free_at(place + size);
        let before = unlist(&mut self.free, &self.blocks, left);
        let after = unlist(&mut self.free, &self.blocks, right);
        let block = Block::free(place - before, before + size + after);
        self.blocks.replace(block);
        let rank = rank_of(block.size);
        let slot = self.free.add(rank, block.place);
        self.blocks.put_slot(block, slot);
    }

    /// Parts the used block that begins at the place in two used ones, of which the first has as many words as are needed.
    pub fn part(&mut self, place: u32, need: u32)
        requires { HasLonger self.old place need }
        ensures parted { IsParted self.old self.new place need }
        ensures blocks { IsBlockList (words_of self.old) self.new }
    {
        let size = self.blocks.size_at(place);
        self.blocks.cut(Block::used(place, size), need);
        self.blocks.replace(Block::used(place + need, size - need));
    }

    /// The size of the largest free block, or 0 where there is none.
    pub fn largest(&self) -> u32
        ensures { IsLargest self.now result }
    {
        let Some(last) = self.free.last() else {
            return 0;
        };
        most_words(&self.blocks, &self.free, last)
    }
}
