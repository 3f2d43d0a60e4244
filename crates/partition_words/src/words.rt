//! The owner's words.
ghost use Rattle.std.specs.Prelude.{◌≡◌};
ghost use Rattle.atomic_table.specs.Seated.{TableId};
ghost use Rattle.partition_model.specs.Write.{write_of};
ghost use Rattle.partition_words.specs.declared.state.OwnerState.{OwnerState};
ghost use Rattle.partition_words.specs.declared.event.Event.TheVariants.{Begins, Marks, PutsWord, PutsEntry, PutsLink, Ends};
ghost use Rattle.partition_words.specs.Shape.{IsPossibleShape};
ghost use Rattle.partition_words.specs.Layout.{IsInside};
ghost use Rattle.partition_words.specs.OwnerState.{word_at};
ghost use Rattle.partition_words.specs.Events.{MayBegin, MayMark, MayPutWord, MayPutEntry, MayPutLink, MayEnd, after};
ghost use Rattle.partition_words.specs.Kept.{Kept};

use crate::shape::{Shape, WordAt};
use partition_model::Op;

/// The words of a partition, in the hands of their one owner. Each method that stores is one event; none takes memory or
/// refuses.
pub trait OwnerWords: Drop {
    /// The words and what they came from.
    ghost owner: { Self → OwnerState };

    /// The table that the views of the owner and of its readers stand in. No call changes it.
    ghost home: { Self → TableId };

    fn shape(&self) -> Shape
        ensures same { result ≡ (owner self.now).shape }
        ensures valid { IsPossibleShape result };

    fn read(&mut self, at: WordAt) -> u64
        requires { IsInside (owner self.old).shape at }
        ensures value { result ≡ word_at (owner self.old) at }
        ensures same { owner self.new ≡ owner self.old }
        ensures home { home self.new ≡ home self.old }
        ensures kept { Kept (owner self.new) };

    /// Adds 1 to the epoch of a main bucket, which is odd from then on.
    fn begin_write(&mut self, bucket: u32)
        requires { MayBegin (owner self.old) bucket }
        ensures event { owner self.new ≡ after (Begins bucket) (owner self.old) }
        ensures home { home self.new ≡ home self.old }
        ensures kept { Kept (owner self.new) };

    /// The write's event: stores the stamp, and the history gains the write.
    fn mark(&mut self, op: Op, key: &[u8], value: &[u8], stamp: u64)
        requires { MayMark (owner self.old) (write_of op key.now value.now) stamp }
        ensures event { owner self.new
            ≡ after (Marks (write_of op key.entry.now value.entry.now) stamp) (owner self.old) }
        ensures home { home self.new ≡ home self.old }
        ensures kept { Kept (owner self.new) };

    /// Stores an item word.
    fn put_word(&mut self, offset: u64, value: u64)
        requires { MayPutWord (owner self.old) offset }
        ensures event { owner self.new ≡ after (PutsWord offset value) (owner self.old) }
        ensures home { home self.new ≡ home self.old }
        ensures kept { Kept (owner self.new) };

    /// Stores an entry, which is 0 for an empty slot.
    fn put_entry(&mut self, bucket: u32, slot: u32, value: u64)
        requires { MayPutEntry (owner self.old) bucket slot }
        ensures event { owner self.new ≡ after (PutsEntry bucket slot value) (owner self.old) }
        ensures home { home self.new ≡ home self.old }
        ensures kept { Kept (owner self.new) };

    /// Stores a link, which is 0 where no bucket is behind this one.
    fn put_link(&mut self, bucket: u32, next: u32)
        requires { MayPutLink (owner self.old) bucket next }
        ensures event { owner self.new ≡ after (PutsLink bucket next) (owner self.old) }
        ensures home { home self.new ≡ home self.old }
        ensures kept { Kept (owner self.new) };

    /// Adds 1 to the epoch, which is even from then on.
    fn end_write(&mut self, bucket: u32)
        requires { MayEnd (owner self.old) bucket }
        ensures event { owner self.new ≡ after (Ends bucket) (owner self.old) }
        ensures home { home self.new ≡ home self.old }
        ensures kept { Kept (owner self.new) };
}
