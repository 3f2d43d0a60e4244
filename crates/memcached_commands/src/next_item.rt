//! The text of the item that is to be stored, in a buffer with room for the largest.
ghost use Rattle.std.specs.Prelude.{◌≡◌, ◌+◌, ◌≤◌, ◌++◌, ℕ, List, length, replicate};
ghost use Rattle.mica_words.specs.declared.item.TheConstants.{MAX_STORED_LEN};
ghost use Rattle.memcached_text.specs.declared.limits.TheConstants.{HEADER_LEN};
ghost use Rattle.memcached_text.specs.Item.{item_text};

use memcached_text::{Item, marked};
use partition_model::ItemBuf;

// How many spaces are put at once.
const SPACES: usize = 64;

// Begins an item: whatever value is put behind is that of one with its numbers and marks, and with this end.
#[inline(always)]
#[tactic(auto, unfolding(memcached_text::specs::Item::item_text))]
pub fn begin_item(next: &mut ItemBuf, item: &Item, expires: u32)
    ensures text { (value : List ℕ) → next.new ++ value ≡ item_text (record item.now { expires = expires; value = value }) }
    ensures len { length next.new ≡ HEADER_LEN }
{
    next.clear();
    next.extend(&item.flags.to_le_bytes());
    next.extend(&expires.to_le_bytes());
    next.push_word(marked(item));
}

// Puts so many spaces last.
pub fn put_spaces(next: &mut ItemBuf, count: usize)
    requires { length next.old + count ≤ MAX_STORED_LEN }
    ensures { next.new ≡ next.old ++ replicate count 32 }
{
    let spaces = [b' '; SPACES];
    let mut left = count;
    while left > 0 {
        let some = left.min(SPACES);
        next.extend(&spaces[..some]);
        left -= some;
    }
}
