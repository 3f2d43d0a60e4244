//! A heap of words beside a list of its used blocks, on a worked run and on drawn calls.
//!
//! What is not used is free, so the list tells how many free words lie side by side.

ghost use Rattle.std.specs.Prelude.{◌≡◌, ℕ, Some};
ghost use Rattle.std.specs.BTreeMap.{get};
ghost use Rattle.std.specs.Ordering.{nat_cmp};
ghost use Rattle.block_heap.specs.Blocks.{HasUsed};

use block_heap::Heap;
use std::alloc::Global;
use std::collections::BTreeMap;

/// The sizes of used blocks, by their places.
type Sizes = BTreeMap<u32, u32>;

/// A call of the heap.
#[derive(Clone, Copy)]
enum Call {
    /// Takes a block of so many words.
    Take(u32),
    /// Gives back the first used block at a place or after it.
    Give(u32),
}

// The most free words side by side. `None` where two used blocks overlap or one passes the end.
fn most_free(sizes: &Sizes, words: u32) -> Option<u32> {
    let (mut end, mut most) = (0u32, 0u32);
    for (place, size) in sizes {
        most = most.max(place.checked_sub(end)?);
        end = place.checked_add(*size)?;
    }
    Some(most.max(words.checked_sub(end)?))
}

// Takes a block, and tells whether none was used at its place, or none has so many words.
fn take_block(heap: &mut Heap, sizes: &mut Sizes, need: u32) -> bool
    requires { (place size : ℕ) → get nat_cmp sizes.old place ≡ Some size → HasUsed heap.old place }
    ensures { (place size : ℕ) → get nat_cmp sizes.new place ≡ Some size → HasUsed heap.new place }
{
    if need == 0 {
        return false;
    }
    let Some(place) = heap.take(need) else {
        return heap.largest() < need;
    };
    match sizes.insert(place, need) {
        Ok(before) => before.is_none(),
        Err(_) => false,
    }
}

// Gives the next used block back.
fn give_block(heap: &mut Heap, sizes: &mut Sizes, from: u32) -> bool
    requires { (place size : ℕ) → get nat_cmp sizes.old place ≡ Some size → HasUsed heap.old place }
    ensures { (place size : ℕ) → get nat_cmp sizes.new place ≡ Some size → HasUsed heap.new place }
{
    let place = match sizes.range(from..).next() {
        Some((place, _)) => *place,
        None => return true,
    };
    if sizes.remove(&place).is_none() {
        return false;
    }
    heap.give(place);
    true
}

// One call, and whether the heap knows the most free words.
fn agree(heap: &mut Heap, sizes: &mut Sizes, words: u32, call: Call) -> bool
    requires { (place size : ℕ) → get nat_cmp sizes.old place ≡ Some size → HasUsed heap.old place }
    ensures { (place size : ℕ) → get nat_cmp sizes.new place ≡ Some size → HasUsed heap.new place }
{
    let is_answered = match call {
        Call::Take(need) => take_block(heap, sizes, need),
        Call::Give(from) => give_block(heap, sizes, from),
    };
    is_answered && most_free(sizes, words) == Some(heap.largest())
}

/// A call, a place, the size of the block that is used there after it, and the most free words.
type Worked = (Call, u32, u32, u32);

// The block at 0 merges with its right neighbour, and at last the one at 12 with its left one.
static WORKED: [Worked; 9] = [
    (Call::Take(8), 0, 8, 12),
    (Call::Take(4), 8, 4, 8),
    (Call::Take(8), 12, 8, 0),
    (Call::Give(8), 8, 0, 4),
    (Call::Take(5), 8, 0, 4),
    (Call::Give(0), 0, 0, 12),
    (Call::Take(12), 0, 12, 0),
    (Call::Give(0), 0, 0, 12),
    (Call::Give(12), 12, 0, 20),
];

fn is_worked(alloc: Global) -> bool {
    let Ok(mut heap) = Heap::new(alloc, 20) else {
        return false;
    };
    let mut sizes = BTreeMap::new(alloc);
    for (call, place, size, most) in &WORKED {
        if !agree(&mut heap, &mut sizes, 20, *call) || heap.largest() != *most {
            return false;
        }
        if sizes.get(place).copied().unwrap_or(0) != *size {
            return false;
        }
    }
    true
}

#[test]
fn blocks_merge_with_both_neighbours(rt: HostRuntime) {
    assert!(rt; is_worked(rt.alloc()));
}

/// Drawn calls of a heap: its words, the largest size that is taken, and how many calls there are.
struct Drawn {
    words: u32,
    largest: u32,
    calls: u32,
}

impl Drawn {
    // One of the two calls, by a drawn number. More blocks are taken than are given back, so the heap fills up.
    fn call(&self, draw: u32) -> Call {
        let rest = draw / 8;
        if draw % 8 < 5 {
            Call::Take(
                rest.checked_rem(self.largest)
                    .unwrap_or(0)
                    .saturating_add(1),
            )
        } else {
            Call::Give(rest.checked_rem(self.words).unwrap_or(0))
        }
    }

    // How many of the calls agree.
    fn agreeing(&self, alloc: Global) -> u32 {
        if self.words == 0 || self.words > block_heap::MOST_WORDS {
            return 0;
        }
        let Ok(mut heap) = Heap::new(alloc, self.words) else {
            return 0;
        };
        let mut sizes = BTreeMap::new(alloc);
        let mut state = 1u64;
        let mut count = 0u32;
        for _call in 0..self.calls {
            state = state
                .wrapping_mul(6_364_136_223_846_793_005)
                .wrapping_add(1_442_695_040_888_963_407);
            if agree(
                &mut heap,
                &mut sizes,
                self.words,
                self.call((state >> 33) as u32),
            ) {
                count = count.saturating_add(1);
            }
        }
        count
    }
}

static DRAWN: [Drawn; 2] = [
    Drawn {
        words: 1_024,
        largest: 60,
        calls: 100_000,
    },
    Drawn {
        words: 67_108_864,
        largest: 65_535,
        calls: 20_000,
    },
];

#[test]
fn the_heap_and_the_sizes_of_its_blocks_agree(rt: HostRuntime) {
    for drawn in &DRAWN {
        assert!(rt; drawn.agreeing(rt.alloc()) == drawn.calls);
    }
}
