//! The reader's words.
ghost use Rattle.std.specs.Prelude.{◌≡◌, ℕ, ◌+◌, ◌*◌, ◌^◌, ◌<◌, ◌≤◌, ◌⊎◌, true, is_some, Option, IfSome};
ghost use Rattle.atomic_table.specs.Seated.{TableId};
ghost use Rattle.mica_words.specs.declared.entry.TheConstants.{SLOTS};
ghost use Rattle.partition_model.specs.History.{IsPrefix, stamp_of, writes_to_bucket};
ghost use Rattle.partition_words.specs.declared.reader.ReaderState.{ReaderState};
ghost use Rattle.partition_words.specs.Shape.{options_of, IsPossibleShape, IsMain, IsSpare, IsBucket};
ghost use Rattle.partition_words.specs.Layout.{entry_at, link_at, item_at};
ghost use Rattle.partition_words.specs.ReaderState.{opened, loaded, loaded_items, stamped, shut};
ghost use Rattle.partition_words.specs.ReaderKept.{Tells};
ghost use Rattle.partition_words.specs.Plan.{FindsEpoch, FindsLastEpoch, FindsHistory};

use crate::event::Event;
use crate::shape::Shape;
use std::collections::LinkedList;

/// What is laid down: an owner's events from words as made on, and how many of them have been played when each
/// load happens. No value of it is made.
pub struct Plan {
    pub shape: Shape,
    pub events: LinkedList<Event>,
    pub cuts: LinkedList<u64>,
}

/// The words of a partition, in the hands of one of its readers. Each method but `item_block` is one load. None takes memory
/// or refuses anything, whatever the owner does meanwhile.
pub trait ReaderWords: Drop {
    ghost use Rattle.partition_words.specs.declared.reading.Plan.{Plan};

    /// What the reader knows.
    ghost reader: { Self → ReaderState };

    /// The table that the views of the owner and of its readers stand in. No call changes it.
    ghost home: { Self → TableId };

    /// The owner's events and how many of them happen before each load, where that is laid down. No call changes it.
    ghost plan: { Self → Option Plan };

    fn shape(&self) -> Shape
        ensures same { result ≡ (reader self.now).shape }
        ensures valid { IsPossibleShape result };

    /// Opens a try of a main bucket where its epoch is even. A try that was open is given up.
    fn first_epoch(&mut self, bucket: u32) -> u64
        requires { IsMain (reader self.old).shape bucket }
        ensures event { reader self.new ≡ opened bucket result (reader self.old) }
        ensures least { 2 * writes_to_bucket (options_of (reader self.old).shape)
            (reader self.old).done bucket ≤ result }
        ensures planned { IfSome (plan self.old) (FindsEpoch (reader self.old) bucket result) }
        ensures home { home self.new ≡ home self.old }
        ensures plan { plan self.new ≡ plan self.old };

    /// The entry of this slot, which is 0 where the slot is empty.
    fn entry(&mut self, bucket: u32, slot: u32) -> u64
        requires { IsBucket (reader self.old).shape bucket × (slot < SLOTS) }
        ensures event { reader self.new
            ≡ loaded (entry_at (reader self.old).shape bucket slot) result (reader self.old) }
        ensures home { home self.new ≡ home self.old }
        ensures plan { plan self.new ≡ plan self.old };

    /// The number of the spare bucket behind this one, or 0.
    fn link(&mut self, bucket: u32) -> u32
        requires { IsBucket (reader self.old).shape bucket }
        ensures event { reader self.new
            ≡ loaded (link_at (reader self.old).shape bucket) result (reader self.old) }
        ensures next { (result ≡ 0) ⊎ IsSpare (reader self.old).shape result }
        ensures home { home self.new ≡ home self.old }
        ensures plan { plan self.new ≡ plan self.old };

    /// The item word at this offset, which goes round the end of the words.
    fn item_word(&mut self, offset: u64) -> u64
        ensures event { reader self.new
            ≡ loaded (item_at (reader self.old).shape offset) result (reader self.old) }
        ensures home { home self.new ≡ home self.old }
        ensures plan { plan self.new ≡ plan self.old };

    /// Eight item words from this offset on, loaded one after another.
    fn item_block(&mut self, offset: u64) -> [u64; 8]
        requires { offset + 8 < 2 ^ 64 }
        ensures event { reader self.new ≡ loaded_items offset result (reader self.old) }
        ensures home { home self.new ≡ home self.old }
        ensures plan { plan self.new ≡ plan self.old }
    {
        let mut block = [0; 8];
        for i in 0..8 {
            block[i] = self.item_word(offset + i as u64);
        }
        block
    }

    /// The stamp. The reader has seen the owner's history at this load from then on, and that history is the cut of
    /// an open try.
    fn stamp(&mut self) -> u64
        ensures event { reader self.new ≡ stamped (reader self.new).seen (reader self.old) }
        ensures seen { IsPrefix (reader self.old).seen (reader self.new).seen }
        ensures value { result
            ≡ stamp_of (options_of (reader self.old).shape) (reader self.new).seen }
        ensures planned { IfSome (plan self.old) (FindsHistory (reader self.old) (reader self.new).seen) }
        ensures home { home self.new ≡ home self.old }
        ensures plan { plan self.new ≡ plan self.old };

    /// Loads the epoch of the open try's bucket again, and closes the try.
    fn last_epoch(&mut self) -> u64
        requires { is_some (reader self.old).current ≡ true }
        ensures event { reader self.new ≡ shut result (reader self.old) }
        ensures tells { Tells result (reader self.old) }
        ensures planned { IfSome (plan self.old) (FindsLastEpoch (reader self.old) result) }
        ensures home { home self.new ≡ home self.old }
        ensures plan { plan self.new ≡ plan self.old };
}
