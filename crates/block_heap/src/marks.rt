//! Marks, a bit for each list.
ghost use Rattle.std.specs.Prelude.{◌≡◌, ◌≢◌, ◌<◌, ◌≤◌, ℕ, IfOk, IfSome, IfNone, if◌then◌else◌};
ghost use Rattle.std.specs.Int.{bit_at};
ghost use Rattle.block_heap.specs.Marks.{mark_at};

use outside::NoMemory;
use std::alloc::Global;
use std::marker::Model;

const WORDS: u32 = 18;

/// 1,152 marks.
#[derive(Drop)]
pub struct Marks {
    words: Vec<u64>,
}

impl Model for Marks {
    ghost use Rattle.std.specs.Prelude.{◌≡◌, List, ℕ, length};

    ghost Value = { List ℕ };

    ghost view = { λ s. s.words.items };

    ghost invariant = { λ s. length s.words.items ≡ 18 };
}

// The bits with one of them on or off.
fn with_bit(bits: u64, at: u32, on: bool) -> u64
    requires { at < 64 }
    ensures here { bit_at result at ≡ (if on then 1 else 0) }
    ensures others { (i : ℕ) → i < 64 → i ≢ at → bit_at result i ≡ bit_at bits i }
{
    let bit = 1u64 << at;
    if on { bits | bit } else { bits & !bit }
}

impl Marks {
    // None is on.
    pub fn new(alloc: Global) -> Result<Self, NoMemory>
        ensures { IfOk result (λ marks. (at : ℕ) → mark_at marks at ≡ 0) }
    {
        let words = vec![in alloc; 0; WORDS as usize]?;
        Ok(Marks { words })
    }

    pub fn set(&mut self, at: u32, on: bool)
        requires { at < 1152 }
        ensures here { mark_at self.new at ≡ (if on then 1 else 0) }
        ensures others { (other : ℕ) → other ≢ at → mark_at self.new other ≡ mark_at self.old other }
    {
        let word = (at / 64) as usize;
        self.words[word] = with_bit(self.words[word], at % 64, on);
    }

    // The first one behind this one that is on.
    pub fn next_above(&self, at: u32) -> Option<u32>
        requires { at < 1152 }
        ensures some { IfSome result (λ next. (at < next) × (next < 1152) × (mark_at self.now next ≡ 1)) }
        ensures none { IfNone result ((next : ℕ) → at < next → next < 1152 → mark_at self.now next ≡ 0) }
    {
        let own = at / 64;
        let later = (self.words[own as usize] >> (at % 64)) >> 1;
        if later != 0 {
            return Some(at + 1 + later.trailing_zeros());
        }
        for word in own + 1..WORDS {
            let bits = self.words[word as usize];
            if bits != 0 {
                return Some(64 * word + bits.trailing_zeros());
            }
        }
        None
    }

    // The last one that is on.
    pub fn last(&self) -> Option<u32>
        ensures some { IfSome result (λ last. (last < 1152) × (mark_at self.now last ≡ 1)
            × ((above : ℕ) → last < above → above < 1152 → mark_at self.now above ≡ 0)) }
        ensures none { IfNone result ((at : ℕ) → at < 1152 → mark_at self.now at ≡ 0) }
    {
        let mut word = WORDS;
        while word > 0 {
            word -= 1;
            let bits = self.words[word as usize];
            if bits != 0 {
                return Some(64 * word + 63 - bits.leading_zeros());
            }
        }
        None
    }
}
