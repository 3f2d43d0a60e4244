//! The events of an owner.
use partition_model::Write;

/// An event as it is kept in memory: all of it but the write of a mark.
#[derive(Clone, Copy, PartialEq, Eq)]
pub enum OwnerEvent {
    /// The bucket.
    Begin(u32),
    /// The new stamp.
    Mark(u64),
    /// The offset and the word.
    PutWord(u64, u64),
    /// The bucket, the slot and the entry.
    PutEntry(u32, u32, u64),
    /// The bucket and the spare bucket behind it, or 0.
    PutLink(u32, u32),
    /// The bucket.
    End(u32),
}

/// An event as contracts see it. No value of it is made.
pub enum Event {
    /// The bucket.
    Begins(u64),
    /// The write and the new stamp.
    Marks(Write, u64),
    /// The offset and the word.
    PutsWord(u64, u64),
    /// The bucket, the slot and the entry.
    PutsEntry(u64, u64, u64),
    /// The bucket and the spare bucket behind it, or 0.
    PutsLink(u64, u64),
    /// The bucket.
    Ends(u64),
}
