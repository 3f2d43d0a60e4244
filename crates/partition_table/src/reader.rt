//! A seat that reads, a note of what one has seen, and what one has set aside.
ghost use Rattle.std.specs.Prelude.{◌≡◌, ◌+◌, ◌*◌, ◌^◌, ◌<◌, ◌≤◌, true, [], Some, None};
ghost use Rattle.std.specs.Arc.{arc_value};
ghost use Rattle.partition_model.specs.History.{IsPrefix, writes_to_bucket};
ghost use Rattle.partition_words.specs.declared.reader.Try.{Try};
ghost use Rattle.partition_words.specs.Shape.{is_in_range, options_of, IsMain};
ghost use Rattle.partition_words.specs.Layout.{word_count, IsInside};
ghost use Rattle.partition_words.specs.ReaderState.{stamped, loaded_items};
ghost use Rattle.partition_words.specs.Joins.{note_of, told};
ghost use Rattle.partition_table.specs.Rule.{is_reader, reader_in};

use crate::places::Places;
use crate::plays::{Follows, Lends, Looks, Meets, Opens, Shuts, Stamps, Tallies};
use crate::rule::{PartitionTable, View};
use atomic_table::Seat;
use partition_words::{ReaderWords, Shape, WordAt};
use std::alloc::Global;
use std::mem;
use std::sync::Arc;

/// A reader's seat at a partition's table.
#[derive(Drop)]
pub struct ReaderSeat {
    pub(crate) table: Arc<PartitionTable, Global>,
    pub(crate) seat: Seat<(), View>,
    pub(crate) places: Places,
    // The bucket of the open try.
    pub(crate) bucket: u32,
    pub ghost seated: { seat.table_id ≡ (arc_value table).shared.table_id },
    pub ghost wide: { (arc_value table).shared.table_id.words ≡ word_count places.shape },
    pub ghost valid: { is_in_range places.shape ≡ true },
    pub ghost reads: { is_reader seat.me.0 ≡ true },
    pub ghost light: { seat.me.1 ≡ [] },
    pub ghost shaped: { (reader_in seat.me.0).shape ≡ places.shape },
    pub ghost tries: { (t : Try) → (reader_in seat.me.0).current ≡ Some t → (t.bucket ≡ bucket) × IsMain places.shape bucket },
}

/// A seat without a table: it cannot load.
#[derive(Drop)]
pub struct Note {
    pub(crate) seat: Seat<(), View>,
    pub ghost reads: { is_reader seat.me.0 ≡ true },
    pub ghost light: { seat.me.1 ≡ [] },
}

/// What a reader's seat has set aside. It cannot load.
#[derive(Drop)]
pub struct Aside {
    seat: Seat<(), View>,
    bucket: u32,
    pub ghost reads: { is_reader seat.me.0 ≡ true },
    pub ghost light: { seat.me.1 ≡ [] },
    pub ghost tries: { (t : Try) → (reader_in seat.me.0).current ≡ Some t → (t.bucket ≡ bucket) × IsMain (reader_in seat.me.0).shape bucket },
}

impl ReaderSeat {
    ghost use Rattle.partition_table.specs.Seats.{reader_state, reader_home, note_state, note_home, aside_state, aside_home};

    /// A note of the writes that this seat has seen.
    pub fn note(&mut self) -> Note
        ensures note { note_state result ≡ note_of (reader_state self.old) }
        ensures note_home { note_home result ≡ reader_home self.old }
        ensures same { reader_state self.new ≡ reader_state self.old }
        ensures home { reader_home self.new ≡ reader_home self.old }
    {
        let seat = self.table.shared.split_seat::<Lends>(&mut self.seat);
        Note { seat }
    }

    /// Looks ahead: loads a word outside every try, so that it is at hand. Nothing rests on what it finds.
    pub fn peek(&self, at: WordAt) -> u64
        requires { IsInside (reader_state self.now).shape at }
    {
        self.table.shared.peek(self.places.shape.place(at))
    }

    // Eight item words that go round the end of the words.
    #[cold]
    #[inline(never)]
    fn block_around(&mut self, offset: u64) -> [u64; 8]
        requires { offset + 8 < 2 ^ 64 }
        ensures event { reader_state self.new ≡ loaded_items offset result (reader_state self.old) }
        ensures home { reader_home self.new ≡ reader_home self.old }
    {
        let mut block = [0; 8];
        for i in 0..8 {
            let place = self.places.of(WordAt::Item(offset + i as u64));
            block[i] = self.table.shared.load::<Looks>(&mut self.seat, place);
        }
        block
    }

    /// Sets aside all that it knows, and goes on as one that was just split off and has seen the same. What it tries then is told nowhere.
    pub fn set_aside(&mut self) -> Aside
        ensures aside { aside_state result ≡ reader_state self.old }
        ensures aside_home { aside_home result ≡ reader_home self.old }
        ensures anew { reader_state self.new ≡ note_of (reader_state self.old) }
        ensures home { reader_home self.new ≡ reader_home self.old }
    {
        let Note { seat: anew } = self.note();
        let seat = mem::replace(&mut self.seat, anew);
        Aside {
            seat,
            bucket: self.bucket,
        }
    }

    /// Goes on with what it had set aside, and with all that it has seen since. What it tried since is told nowhere.
    pub fn take_up_seen(&mut self, aside: Aside)
        requires home { aside_home aside ≡ reader_home self.old }
        requires shape { (aside_state aside).shape ≡ (reader_state self.old).shape }
        ensures state { reader_state self.new ≡ told (aside_state aside) (note_of (reader_state self.old)) }
        ensures home { reader_home self.new ≡ reader_home self.old }
    {
        let Note { seat: seen } = self.note();
        self.take_up(aside);
        self.table.shared.join_seat::<Meets>(&mut self.seat, seen);
    }

    /// The epoch of bucket 0, loaded outside every try. It tells how many of the writes that the seat has seen are to that bucket, at the most: each raised it
    /// by two, but for one that has not ended.
    pub fn epoch_of_first(&mut self) -> u64
        ensures most { 2 * writes_to_bucket (options_of (reader_state self.old).shape) (reader_state self.old).seen 0 ≤ result + 1 }
        ensures same { reader_state self.new ≡ reader_state self.old }
        ensures home { reader_home self.new ≡ reader_home self.old }
    {
        let place = self.places.of(WordAt::Epoch(0));
        self.table.shared.load::<Tallies>(&mut self.seat, place)
    }

    /// Goes on with what it had set aside, and forgets all since.
    pub fn take_up(&mut self, aside: Aside)
        requires home { aside_home aside ≡ reader_home self.old }
        requires shape { (aside_state aside).shape ≡ (reader_state self.old).shape }
        ensures state { reader_state self.new ≡ aside_state aside }
        ensures home { reader_home self.new ≡ reader_home self.old }
    {
        let Aside { seat, bucket } = aside;
        self.seat = seat;
        self.bucket = bucket;
    }

    /// Takes in what a note of the same table has seen.
    pub fn tell(&mut self, note: Note)
        requires { note_home note ≡ reader_home self.old }
        ensures event { reader_state self.new ≡ stamped (reader_state self.new).seen
            (told (reader_state self.old) (note_state note)) }
        ensures seen { IsPrefix (reader_state self.old).seen (reader_state self.new).seen
            × IsPrefix (note_state note).seen (reader_state self.new).seen }
        ensures done { IsPrefix (reader_state self.old).done (reader_state self.new).done
            × IsPrefix (note_state note).done (reader_state self.new).done }
        ensures home { reader_home self.new ≡ reader_home self.old }
    {
        let Note { seat } = note;
        self.table.shared.join_seat::<Meets>(&mut self.seat, seat);
        self.table.shared.load::<Stamps>(&mut self.seat, 0);
    }
}

impl ReaderWords for ReaderSeat {
    ghost use Rattle.partition_table.specs.Seats.{reader_state, reader_home};

    ghost reader = { reader_state };

    ghost home = { reader_home };

    ghost plan = { λ _. None };

    fn shape(&self) -> Shape {
        self.places.shape
    }

    fn first_epoch(&mut self, bucket: u32) -> u64 {
        let place = self.places.of(WordAt::Epoch(bucket));
        let epoch = self.table.shared.load::<Opens>(&mut self.seat, place);
        self.bucket = bucket;
        epoch
    }

    fn entry(&mut self, bucket: u32, slot: u32) -> u64 {
        let place = self.places.of(WordAt::Entry(bucket, slot));
        self.table.shared.load::<Looks>(&mut self.seat, place)
    }

    fn link(&mut self, bucket: u32) -> u32 {
        let place = self.places.of(WordAt::Link(bucket));
        self.table.shared.load::<Follows>(&mut self.seat, place) as u32
    }

    fn item_word(&mut self, offset: u64) -> u64 {
        let place = self.places.of(WordAt::Item(offset));
        self.table.shared.load::<Looks>(&mut self.seat, place)
    }

    // A call would give the words back by memory.
    #[inline(always)]
    fn item_block(&mut self, offset: u64) -> [u64; 8] {
        let Some(first) = self.places.of_block(offset) else {
            return self.block_around(offset);
        };
        let mut block = [0; 8];
        for i in 0..8 {
            block[i] = self.table.shared.load::<Looks>(&mut self.seat, first + i);
        }
        block
    }

    fn stamp(&mut self) -> u64 {
        let place = self.places.of(WordAt::Stamp);
        self.table.shared.load::<Stamps>(&mut self.seat, place)
    }

    fn last_epoch(&mut self) -> u64 {
        let place = self.places.of(WordAt::Epoch(self.bucket));
        self.table.shared.load::<Shuts>(&mut self.seat, place)
    }
}
