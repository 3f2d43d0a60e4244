//! A front that tells what stands in an index.
ghost use Rattle.std.specs.Prelude.{◌≡◌, ◌<◌, ℕ, false};
ghost use Rattle.mica_words.specs.Item.{KeyFits};
ghost use Rattle.mica_words.specs.Mark.{is_mark};
ghost use Rattle.partition_model.specs.declared.options.Mode.TheVariants.{Cache};

use crate::counting::CountsWrites;
use partition_model::ItemBuf;

/// What stands at a place of an index.
#[derive(Clone, Copy)]
pub enum Glimpse {
    Item,
    Nothing,
    /// The index has no such place.
    Beyond,
}

/// What a hand came by that goes over the log of a partition.
#[derive(Clone, Copy)]
pub enum Passed {
    /// An item of so many words that was read since a hand came by last.
    Read(u32),
    Other,
    /// The end of its look.
    End,
}

/// A front that tells what stands in an index, without a hold.
pub trait Glances: CountsWrites {
    /// Loads what stands at a place of a partition's index: the key of an item, and the first bytes of its value. Nothing rests on what it finds, which may change
    /// meanwhile. In cache mode, where items make room by themselves, it finds no places.
    fn glance(&self, partition: u32, place: u64, key: &mut ItemBuf, head: &mut ItemBuf) -> Glimpse
        requires partition { partition < (Self.options self.now).partitions }
        ensures key { result ≡ Glimpse.Item → KeyFits key.new × (is_mark key.new ≡ false) };

    /// Where a look of the hand ends that goes over the log of a partition: so far ahead of what is written over next.
    fn end_of_look(&self, partition: u32) -> u64
        requires partition { partition < (Self.options self.now).partitions };

    /// Moves the hand of a partition on, up to that end: by an item, or by a word where none begins. It loads the key of an item that was read, and takes one read off
    /// its count. Nothing rests on what it finds. In store mode, which has no log, it finds none.
    fn pass_item(&self, partition: u32, end: u64, key: &mut ItemBuf) -> Passed
        requires partition { partition < (Self.options self.now).partitions }
        ensures key { (words : ℕ) → result ≡ Passed.Read words → KeyFits key.new }
        ensures mode { (words : ℕ) → result ≡ Passed.Read words → (Self.options self.now).mode ≡ Cache };
}
