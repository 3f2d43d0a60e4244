//! Which list the free blocks of a size stand in.
ghost use Rattle.std.specs.Prelude.{◌≡◌, ◌<◌, ◌≤◌};
ghost use Rattle.block_heap.specs.Ranks.{rank_of};

use size_classes::fine_class_of;

/// How many lists there may be.
pub const LISTS: u32 = 1_152;

// Each size below has a list of its own.
const OWN_LISTS: u32 = 1_088;

/// The list of a size: its own, or that of all large sizes of its fine class.
pub fn rank_of(words: u32) -> u32
    requires { 1 ≤ words }
    ensures formula { result ≡ rank_of words }
    ensures below { result < LISTS }
{
    if words < OWN_LISTS {
        words - 1
    } else {
        1_087 + fine_class_of(words)
    }
}
