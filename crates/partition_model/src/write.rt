//! Writes, their outcomes, and the answers to gets.
ghost use Rattle.std.specs.Prelude.{◌≡◌, ◌↔◌, IsTrue};
ghost use Rattle.partition_model.specs.Write.{IsWrite, is_accepted, write_of};

use mica_words::{key_fits, stored_fits};
use outside::Bytes;

/// What a write does with its key.
#[derive(Clone, Copy, PartialEq, Eq)]
pub enum Op {
    /// It has this value now.
    Put,
    /// It has this value now, where it had none.
    Add,
    /// It keeps the value that it has, whose item is the newest in cache mode.
    Touch,
    /// It has no value any more.
    Del,
}

/// A write. At a touch and a delete the value is empty.
#[derive(Drop)]
pub struct Write {
    pub op: Op,
    pub key: Bytes,
    pub value: Bytes,
}

/// Whether the key and the value fit, and the value is empty where the operation has none.
pub fn write_fits(op: Op, key: &[u8], value: &[u8]) -> bool
    ensures { IsTrue result ↔ IsWrite (write_of op key.now value.now) }
{
    key_fits(key)
        && match op {
            Op::Put | Op::Add => stored_fits(value),
            Op::Touch | Op::Del => value.is_empty(),
        }
}

/// The reply to a write. The first four accept it; the others refuse it, and then nothing changes.
#[derive(Clone, Copy, PartialEq, Eq)]
pub enum Outcome {
    /// A put or an add was done.
    Stored,
    /// A delete was done, and the key had a value.
    Deleted,
    /// A delete or a touch was done, and the key had none.
    Absent,
    /// A touch was done, and the key had a value.
    Touched,
    /// A new key needs a spare bucket, and none is left.
    FullSpare,
    /// No block of the heap has room for the item, or the log has not as many words.
    FullBlock,
    /// The partition has accepted as many writes as it may bear.
    Worn,
    /// An add found that the key has a value.
    Exists,
}

impl Outcome {
    /// Whether the write was done.
    pub fn is_accepted(self) -> bool
        ensures { result ≡ is_accepted self }
    {
        matches!(
            self,
            Outcome::Stored | Outcome::Deleted | Outcome::Absent | Outcome::Touched
        )
    }
}

/// The answer to a get. The value of a hit stands in an `ItemBuf`.
#[derive(Clone, Copy, PartialEq, Eq)]
pub enum Answer {
    Hit,
    Miss,
}
