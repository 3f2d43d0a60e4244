//! The stamp of a partition.

ghost use Rattle.std.specs.Prelude.{◌≡◌};
ghost use Rattle.mica_words.specs.Stamp.{tail_of};

/// The tail of the log, in words, of a partition in cache mode.
pub fn tail_of(stamp: u64) -> u64
    ensures { result ≡ tail_of stamp }
{
    stamp >> 16
}
