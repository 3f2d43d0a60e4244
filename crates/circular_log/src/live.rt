//! Which items the log has not passed.
ghost use Rattle.std.specs.Prelude.{◌≡◌, ◌<◌, ◌^◌};
ghost use Rattle.partition_model.specs.Cache.{is_live};

use mica_words::tail_of;

/// Whether the item at the offset is still there by this stamp, in a log of so many words.
pub fn is_live(offset: u64, stamp: u64, words: u32) -> bool
    requires { offset < 2 ^ 48 }
    ensures { result ≡ is_live words stamp offset }
{
    tail_of(stamp) <= offset + u64::from(words)
}
