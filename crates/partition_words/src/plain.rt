//! The owner's words in a vector. Beside them stands a table of one word, whose one seat's view is what
//! contracts see of the owner.
ghost use Rattle.std.specs.Prelude.{◌≡◌, ◌<◌, true, map, ◌∷◌, ◌++◌, [], length, nat_lt, if◌then◌else◌, IfOk, vec_len, vec_capacity};
ghost use Rattle.partition_words.specs.Shape.{IsPossibleShape, is_in_range};
ghost use Rattle.partition_words.specs.OwnerState.{as_made};
ghost use Rattle.partition_words.specs.Events.{IsAllowed, CanPlay, place_of};
ghost use Rattle.partition_words.specs.Kept.{Kept};
ghost use Rattle.partition_words.specs.Diary.{with_room, diary_after, owner_event};

use crate::event::{Event, OwnerEvent};
use crate::shape::{Shape, WordAt};
use crate::state::OwnerState;
use crate::words::OwnerWords;
use atomic_table::{Play, Seat, Shared, Table, TableRule};
use outside::NoMemory;
use partition_model::Op;
use std::alloc::Global;
use std::collections::LinkedList;
use std::marker::{Brand, PhantomData};

/// The owner's state, and the first of its events, of which there is room for so many. No value of it
/// is made.
pub struct Diary {
    pub owner: OwnerState,
    pub kept: LinkedList<Event>,
    pub room: u64,
}

/// What a diary begins with.
#[derive(Clone, Copy)]
pub struct Blank {
    pub shape: Shape,
    pub room: u32,
}

/// The rule of the one word, whose one seat has a diary.
pub struct Alone;

impl TableRule<(), Diary, Blank> for Alone {
    ghost use Rattle.partition_words.specs.Diary.{AllFit, blank_diary};

    ghost holds = { λ _. AllFit };

    ghost first = { blank_diary };
}

// A step that changes nothing and tells what is kept.
struct Knows;

impl Play<(), Diary> for Knows {
    ghost use Rattle.partition_words.specs.Diary.{knows};

    ghost then = { knows };
}

// The event of a step, for the proof alone. Each call picks it.
trait Happens {
    ghost use Rattle.partition_words.specs.declared.event.Event.{Event};

    ghost event: { Event };
}

impl Happens for Brand {
    ghost use Rattle.partition_words.specs.declared.event.Event.TheVariants.{Ends};

    ghost event = { Ends 0 };
}

// A step of the event that K names.
struct Does<K> {
    event: PhantomData<K>,
}

impl<K: Happens> Play<(), Diary> for Does<K> {
    ghost use Rattle.partition_words.specs.Diary.{happened};

    ghost then = { happened K.event };
}

/// The words of one thread.
#[derive(Drop)]
pub struct PlainWords {
    words: Vec<u64>,
    events: Vec<OwnerEvent>,
    shape: Shape,
    book: Table<(), Diary, Blank, Alone, Global>,
    seat: Seat<(), Diary>,
    pub ghost seated: { seat.table_id ≡ book.shared.table_id },
    pub ghost wide: { book.shared.table_id.words ≡ 1 },
    pub ghost valid: { is_in_range shape ≡ true },
    pub ghost some_words: { 0 < shape.words },
    pub ghost shaped: { seat.me.0.owner.shape ≡ shape },
    pub ghost same: { words.items ≡ seat.me.0.owner.words },
    pub ghost listed: { events.items ≡ map owner_event seat.me.0.kept },
    pub ghost roomy: { seat.me.0.room ≡ vec_capacity events },
}

// Adds the event where there is room.
fn keep(events: &mut Vec<OwnerEvent>, event: OwnerEvent)
    ensures items { events.new.items ≡ with_room (vec_capacity events.old) events.old.items event }
    ensures room { vec_capacity events.new ≡ vec_capacity events.old }
{
    if events.len() < events.capacity() {
        events.push_reserved(event);
    }
}

// A step of the event that K names. It is told what the pick reads: the event in memory, and the write
// of a mark.
fn happen<K: Happens>(
    book: &Shared<(), Diary, Blank, Alone>,
    seat: &mut Seat<(), Diary>,
    _event: OwnerEvent,
    _op: Op,
    _key: &[u8],
    _value: &[u8],
)
    requires book { (seat.old.table_id ≡ book.now.table_id) × (0 < book.now.table_id.words) }
    requires allowed { IsAllowed K.event seat.old.me.0.owner }
    ensures event { seat.new.me.0 ≡ diary_after K.event seat.old.me.0 }
    ensures inside { place_of seat.old.me.0.owner.shape K.event < length seat.old.me.0.owner.words }
    ensures before { Kept seat.old.me.0.owner }
    ensures kept { Kept seat.new.me.0.owner }
    ensures seat { seat.new.table_id ≡ seat.old.table_id }
{
    book.store::<Does<K>>(seat, 0, 0);
}

impl PlainWords {
    ghost use Rattle.partition_words.specs.Seats.{diary_of};

    /// Words as made, and room for so many of the first events.
    pub fn new(alloc: Global, shape: &Shape, log_room: u32) -> Result<PlainWords, NoMemory>
        requires { IsPossibleShape shape.now }
        ensures made { IfOk result (λ w. (diary_of w).owner ≡ as_made shape.now) }
        ensures log { IfOk result (λ w. ((diary_of w).kept ≡ []) × ((diary_of w).room ≡ log_room)) }
    {
        let words = vec![in alloc; 0u64; shape.word_count()]?;
        let events = Vec::with_capacity(alloc, log_room as usize)?;
        let blank = Blank {
            shape: *shape,
            room: log_room,
        };
        let (book, seat) = Table::of_words(alloc, &[0], &blank)?;
        Ok(PlainWords {
            words,
            events,
            shape: *shape,
            book,
            seat,
        })
    }

    /// The first events but loads, as many as there was room for.
    pub fn events(&self) -> &[OwnerEvent]
        ensures { result.now ≡ map owner_event (diary_of self.now).kept }
    {
        self.events.as_slice()
    }
}

/// The kept events, a token that knows the writes of their marks, and how many of them have been played when each
/// load of a reader happens.
#[derive(Drop)]
pub struct Script {
    pub events: Vec<OwnerEvent>,
    pub shape: Shape,
    pub token: Seat<(), Diary>,
    pub cuts: Vec<u32>,
}

impl PlainWords {
    /// Leaves the words behind.
    pub fn into_script(self, cuts: Vec<u32>) -> Script
        ensures events { result.events.items ≡ map owner_event result.token.me.0.kept }
        ensures can { CanPlay result.token.me.0.kept (as_made result.shape) }
        ensures valid { is_in_range result.shape ≡ true }
        ensures same { (result.shape ≡ self.shape) × (result.token.me ≡ self.seat.me) × (result.cuts ≡ cuts) }
    {
        let PlainWords {
            words: _,
            events,
            shape,
            book,
            seat,
        } = self;
        let mut token = seat;
        book.shared.load::<Knows>(&mut token, 0);
        drop(book);
        Script {
            events,
            shape,
            token,
            cuts,
        }
    }
}

impl OwnerWords for PlainWords {
    ghost owner = { λ w. w.seat.me.0.owner };

    ghost home = { λ w. w.seat.table_id };

    fn shape(&self) -> Shape {
        self.shape
    }

    fn read(&mut self, at: WordAt) -> u64 {
        let book = &self.book;
        book.shared.load::<Knows>(&mut self.seat, 0);
        let place = self.shape.place(at);
        self.words[place]
    }

    fn begin_write(&mut self, bucket: u32) {
        let event = OwnerEvent::Begin(bucket);
        keep(&mut self.events, event);
        let book = &self.book;
        happen::<Brand>(&book.shared, &mut self.seat, event, Op::Del, &[], &[]);
        let place = self.shape.place(WordAt::Epoch(bucket));
        self.words[place] += 1;
    }

    fn mark(&mut self, op: Op, key: &[u8], value: &[u8], stamp: u64) {
        let event = OwnerEvent::Mark(stamp);
        keep(&mut self.events, event);
        let book = &self.book;
        happen::<Brand>(&book.shared, &mut self.seat, event, op, key, value);
        let place = self.shape.place(WordAt::Stamp);
        self.words[place] = stamp;
    }

    fn put_word(&mut self, offset: u64, value: u64) {
        let event = OwnerEvent::PutWord(offset, value);
        keep(&mut self.events, event);
        let book = &self.book;
        happen::<Brand>(&book.shared, &mut self.seat, event, Op::Del, &[], &[]);
        let place = self.shape.place(WordAt::Item(offset));
        self.words[place] = value;
    }

    fn put_entry(&mut self, bucket: u32, slot: u32, value: u64) {
        let event = OwnerEvent::PutEntry(bucket, slot, value);
        keep(&mut self.events, event);
        let book = &self.book;
        happen::<Brand>(&book.shared, &mut self.seat, event, Op::Del, &[], &[]);
        let place = self.shape.place(WordAt::Entry(bucket, slot));
        self.words[place] = value;
    }

    fn put_link(&mut self, bucket: u32, next: u32) {
        let event = OwnerEvent::PutLink(bucket, next);
        keep(&mut self.events, event);
        let book = &self.book;
        happen::<Brand>(&book.shared, &mut self.seat, event, Op::Del, &[], &[]);
        let place = self.shape.place(WordAt::Link(bucket));
        self.words[place] = u64::from(next);
    }

    fn end_write(&mut self, bucket: u32) {
        let event = OwnerEvent::End(bucket);
        keep(&mut self.events, event);
        let book = &self.book;
        happen::<Brand>(&book.shared, &mut self.seat, event, Op::Del, &[], &[]);
        let place = self.shape.place(WordAt::Epoch(bucket));
        self.words[place] += 1;
    }
}
