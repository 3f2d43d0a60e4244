//! The slots of free blocks, in lists by rank.
ghost use Rattle.std.specs.Prelude.{◌≡◌, ◌≢◌, ◌+◌, ◌*◌, ◌<◌, ◌≤◌, ℕ, Bool, [], ◌∷◌, ◌++◌, List, length, IfOk, IfSome, IfNone, Contains, if◌then◌else◌};
ghost use Rattle.block_heap.specs.declared.block.TheConstants.{MOST_WORDS};
ghost use Rattle.block_heap.specs.Links.{node_of};
ghost use Rattle.block_heap.specs.Slots.{most_slots};
ghost use Rattle.block_heap.specs.Lists.{list_of, place_in, count_of, IsListed, IsWithout, left_from};

use crate::links::{Link, join, slot_for};
use crate::marks::Marks;
use crate::ranks::LISTS;
use outside::NoMemory;
use std::alloc::Global;
use std::marker::Model;

const HEADS: usize = LISTS as usize;

// The lists are rings of links, each with a node for its head, so that any slot can leave its list. A slot has its node
// behind those of the heads. Slots that came back are used before one more gets a node.
#[derive(Drop)]
pub struct FreeLists {
    words: u32,
    links: Vec<Link>,
    spares: Vec<u32>,
    filled: Marks,
}

impl Model for FreeLists {
    ghost use Rattle.std.specs.Prelude.{List, ℕ, vec_capacity};
    ghost use Rattle.block_heap.specs.declared.links.Link.{Link};
    ghost use Rattle.block_heap.specs.Lists.{KeepsAll};

    ghost Value = { ℕ × List Link × List ℕ };

    ghost view = { λ s. (s.words, s.links.items, s.spares.items) };

    ghost invariant = { λ s. KeepsAll s.words s.links.items (vec_capacity s.links) s.spares.items (vec_capacity s.spares) s.filled };
}

impl FreeLists {
    // One empty list for each rank.
    pub fn new(alloc: Global, words: u32) -> Result<Self, NoMemory>
        requires { words ≤ MOST_WORDS }
        ensures words { IfOk result (λ lists. lists.0 ≡ words) }
        ensures empty { IfOk result (λ lists. (rank : ℕ) → rank < 1152 → list_of lists rank ≡ []) }
        ensures count { IfOk result (λ lists. count_of lists ≡ 0) }
    {
        let most = words.div_ceil(2) as usize;
        let spares = Vec::with_capacity(alloc, most)?;
        let filled = Marks::new(alloc)?;
        let mut links = Vec::with_capacity(alloc, most + HEADS)?;
        for rank in 0..LISTS {
            links.push_reserved(Link {
                next: rank,
                prev: rank,
                place: 0,
            });
        }
        Ok(FreeLists {
            words,
            links,
            spares,
            filled,
        })
    }

    // The first slot of a rank.
    pub fn first(&self, rank: u32) -> Option<u32>
        requires { rank < 1152 }
        ensures { left_from (list_of self.now) result ≡ list_of self.now rank }
    {
        self.links[rank as usize].next.checked_sub(LISTS)
    }

    // The slot behind this one in its list.
    pub fn after(&self, slot: u32) -> Option<u32>
        requires { IsListed (list_of self.now) slot }
        ensures { left_from (list_of self.now) result ≡ list_of self.now (node_of slot) }
    {
        self.links[slot as usize + HEADS].next.checked_sub(LISTS)
    }

    // The next rank above that has a slot.
    pub fn next_above(&self, rank: u32) -> Option<u32>
        requires { rank < 1152 }
        ensures some { IfSome result (λ next. (rank < next) × (next < 1152) × (0 < length (list_of self.now next))) }
        ensures none { IfNone result ((next : ℕ) → rank < next → next < 1152 → length (list_of self.now next) ≡ 0) }
    {
        self.filled.next_above(rank)
    }

    // The last rank that has a slot.
    pub fn last(&self) -> Option<u32>
        ensures some { IfSome result (λ last. (last < 1152) × (0 < length (list_of self.now last))
            × ((above : ℕ) → last < above → above < 1152 → length (list_of self.now above) ≡ 0)) }
        ensures none { IfNone result ((rank : ℕ) → rank < 1152 → length (list_of self.now rank) ≡ 0) }
    {
        self.filled.last()
    }

    // The place that a slot has.
    pub fn place(&self, slot: u32) -> u32
        requires { IsListed (list_of self.now) slot }
        ensures { result ≡ place_in self.now slot }
    {
        self.links[slot as usize + HEADS].place
    }

    // Adds a slot for a place at the end of the list of a rank.
    pub fn add(&mut self, rank: u32, place: u32) -> u32
        requires rank { rank < 1152 }
        requires room { length (list_of self.old rank) < self.old.0 }
        requires spare { count_of self.old < most_slots self.old.0 }
        ensures words { self.new.0 ≡ self.old.0 }
        ensures added { list_of self.new rank ≡ list_of self.old rank ++ result ∷ [] }
        ensures others { (other : ℕ) → other < 1152 → other ≢ rank → list_of self.new other ≡ list_of self.old other }
        ensures count { count_of self.new ≡ count_of self.old + 1 }
        ensures here { place_in self.new result ≡ place }
        ensures stay { (slot : ℕ) → IsListed (list_of self.old) slot → place_in self.new slot ≡ place_in self.old slot }
        ensures few { 2 * result < MOST_WORDS }
    {
        let last = self.links[rank as usize].prev;
        let slot = slot_for(&mut self.links, &mut self.spares, place);
        let node = slot + LISTS;
        join(&mut self.links, last, node);
        join(&mut self.links, node, rank);
        self.filled.set(rank, true);
        slot
    }

    // Takes a slot out of the list of its rank.
    pub fn remove(&mut self, rank: u32, slot: u32)
        requires rank { rank < 1152 }
        requires listed { Contains (list_of self.old rank) slot }
        requires some { 0 < count_of self.old }
        ensures words { self.new.0 ≡ self.old.0 }
        ensures removed { IsWithout (list_of self.old rank) (list_of self.new rank) slot }
        ensures others { (other : ℕ) → other < 1152 → other ≢ rank → list_of self.new other ≡ list_of self.old other }
        ensures count { count_of self.new + 1 ≡ count_of self.old }
        ensures stay { (other : ℕ) → place_in self.new other ≡ place_in self.old other }
    {
        let link = self.links[slot as usize + HEADS];
        join(&mut self.links, link.prev, link.next);
        let some = self.links[rank as usize].next >= LISTS;
        self.filled.set(rank, some);
        self.spares.push_reserved(slot);
    }
}
