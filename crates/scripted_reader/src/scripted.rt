//! A reader of one thread, between whose loads the kept events of an owner are played.
ghost use Rattle.std.specs.Prelude.{◌≡◌, ℕ, ◌+◌, ◌-◌, ◌<◌, ◌≤◌, ◌^◌, ◌↔◌, true, map, drop, length, min, slice_index, slice_set, Some, IsTrue};
ghost use Rattle.partition_words.specs.declared.reader.Try.{Try};
ghost use Rattle.partition_words.specs.Shape.{IsMain, is_in_range};
ghost use Rattle.partition_words.specs.Layout.{word_count};
ghost use Rattle.partition_words.specs.Kept.{Kept};
ghost use Rattle.partition_words.specs.ReaderKept.{ReaderKept};
ghost use Rattle.partition_words.specs.Diary.{owner_event};
ghost use Rattle.partition_words.specs.Plan.{cut_at, owner_at, owner_found};
ghost use Rattle.scripted_reader.specs.Script.{Rises, NoneAbove, look_at, reader_after, BookFits, MayLook, StaysIn, look_next, IsTime, HasPlayedOut, owner_place, owner_word, owner_sum, is_writing, writing_after};

use atomic_table::{Play, Seat, Shared, Table, TableRule};
use outside::NoMemory;
use partition_words::{
    Event, OwnerEvent, OwnerState, PlainWords, Plan, ReaderState, ReaderWords, Script, Shape,
    WordAt,
};
use std::alloc::Global;
use std::collections::LinkedList;
use std::marker::{Brand, PhantomData};

/// A load. No value of it is made.
pub enum Look {
    /// The bucket.
    FirstEpoch(u64),
    /// The place of an entry, a link or an item word.
    Word(u64),
    Stamp,
    /// The bucket.
    LastEpoch(u64),
}

/// The plan, the owner's state so far, the reader's, the events that were played, those that are left, and the
/// loads. No value of it is made.
pub struct Book {
    pub plan: Plan,
    pub owner: OwnerState,
    pub reader: ReaderState,
    pub played: LinkedList<Event>,
    pub rest: LinkedList<Event>,
    pub looks: LinkedList<Look>,
}

/// The rule of the one word, whose one seat has a book. It is told the script, which nothing changes.
pub struct Plot;

impl TableRule<(), Book, Script> for Plot {
    ghost use Rattle.scripted_reader.specs.Script.{AllFit, plan_of, opening_book};

    ghost holds = { AllFit };

    ghost first = { λ script. opening_book (plan_of script) };
}

// The next event happens.
struct Next;

impl Play<(), Book> for Next {
    ghost use Rattle.scripted_reader.specs.Script.{played};

    ghost then = { played };
}

// Which load a step is, for the proof alone. Each call picks it.
trait Looks {
    ghost use Rattle.scripted_reader.specs.declared.scripted.Look.{Look};

    ghost look: { Look };
}

impl Looks for Brand {
    ghost use Rattle.scripted_reader.specs.declared.scripted.Look.TheVariants.{Stamp};

    ghost look = { Stamp };
}

// The load that K names.
struct DoesLook<K> {
    look: PhantomData<K>,
}

impl<K: Looks> Play<(), Book> for DoesLook<K> {
    ghost use Rattle.scripted_reader.specs.Script.{looked};

    ghost then = { looked K.look };
}

// The words so far, the events, how many of them were played, and whether the last write of these has not ended.
#[derive(Drop)]
struct Stage {
    words: Vec<u64>,
    events: Vec<OwnerEvent>,
    played: usize,
    writing: bool,
    shape: Shape,
    book: Table<(), Book, Script, Plot, Global>,
    seat: Seat<(), Book>,
    pub ghost seated: { seat.table_id ≡ book.shared.table_id },
    pub ghost wide: { book.shared.table_id.words ≡ 1 },
    pub ghost some_words: { 0 < shape.words },
    pub ghost same: { words.items ≡ seat.me.0.owner.words },
    pub ghost shaped: { seat.me.0.owner.shape ≡ shape },
    pub ghost script: { drop played events.items ≡ map owner_event seat.me.0.rest },
    pub ghost inside: { played ≤ length events.items },
    pub ghost counted: { played ≡ length seat.me.0.played },
    pub ghost begun: { writing ≡ is_writing seat.me.0.owner.phase },
}

/// A reader whose loads are numbered from 1. When load number `i` happens, the first `cuts[i - 1]` events have
/// been played; past the end of the cuts the last one counts.
#[derive(Drop)]
pub struct Scripted {
    stage: Stage,
    cuts: Vec<u32>,
    // How many loads there were, up to the number of cuts.
    loads: usize,
    // The bucket of the open try.
    bucket: u32,
    pub ghost valid: { is_in_range stage.shape ≡ true },
    pub ghost read_shape: { stage.seat.me.0.reader.shape ≡ stage.shape },
    pub ghost planned: { stage.seat.me.0.plan.cuts ≡ cuts.items },
    pub ghost finds: { stage.seat.me.0.owner ≡ owner_at stage.seat.me.0.plan stage.seat.me.0.reader.loads },
    pub ghost follows: { stage.seat.me.0.reader ≡ reader_after stage.seat.me.0.plan stage.seat.me.0.looks },
    pub ghost rise: { Rises cuts.items },
    pub ghost few: { NoneAbove (length stage.events.items) cuts.items },
    pub ghost counted: { loads ≡ min stage.seat.me.0.reader.loads (length cuts.items) },
    pub ghost at: { stage.played ≡ cut_at cuts.items stage.seat.me.0.reader.loads },
    pub ghost tries: { (t : Try) → stage.seat.me.0.reader.current ≡ Some t
        → (t.bucket ≡ bucket) × IsMain stage.shape bucket },
}

// The event's store.
fn apply(words: &mut Vec<u64>, shape: &Shape, event: OwnerEvent)
    requires some { 0 < shape.now.words }
    requires inside { owner_place shape.now event < length words.old.items }
    requires fits { owner_sum event
        (slice_index words.old.items (owner_place shape.now event)) < 2 ^ 64 }
    ensures { words.new.items ≡ slice_set words.old.items (owner_place shape.entry.now event)
        (owner_word event (slice_index words.old.items (owner_place shape.entry.now event))) }
{
    match event {
        OwnerEvent::Begin(bucket) => {
            let place = shape.place(WordAt::Epoch(bucket));
            words[place] += 1;
        }
        OwnerEvent::Mark(stamp) => {
            let place = shape.place(WordAt::Stamp);
            words[place] = stamp;
        }
        OwnerEvent::PutWord(offset, value) => {
            let place = shape.place(WordAt::Item(offset));
            words[place] = value;
        }
        OwnerEvent::PutEntry(bucket, slot, value) => {
            let place = shape.place(WordAt::Entry(bucket, slot));
            words[place] = value;
        }
        OwnerEvent::PutLink(bucket, next) => {
            let place = shape.place(WordAt::Link(bucket));
            words[place] = u64::from(next);
        }
        OwnerEvent::End(bucket) => {
            let place = shape.place(WordAt::Epoch(bucket));
            words[place] += 1;
        }
    }
}

// The load that K names.
fn take_look<K: Looks>(book: &Shared<(), Book, Script, Plot>, seat: &mut Seat<(), Book>)
    requires book { (seat.old.table_id ≡ book.now.table_id) × (0 < book.now.table_id.words) }
    requires may { MayLook K.look seat.old.me.0.reader }
    requires time { IsTime seat.old.me.0 }
    ensures book { seat.new.me.0 ≡ look_next K.look seat.old.me.0 }
    ensures before { BookFits seat.old.me.0 }
    ensures fits { BookFits (look_next K.look seat.old.me.0) }
    ensures planned { seat.old.me.0.owner ≡ owner_found seat.old.me.0.plan seat.old.me.0.reader }
    ensures seat { seat.new.table_id ≡ seat.old.table_id }
{
    book.store::<DoesLook<K>>(seat, 0, 0);
}

// Whether a write is under way after the event.
fn goes_on_writing(event: OwnerEvent, writing: bool) -> bool
    ensures { result ≡ writing_after event writing }
{
    match event {
        OwnerEvent::Begin(_) | OwnerEvent::Mark(_) => true,
        OwnerEvent::End(_) => false,
        _ => writing,
    }
}

impl Stage {
    // Plays the next event.
    fn play(&mut self)
        requires { self.old.played < length self.old.events.items }
        ensures reader { self.new.seat.me.0.reader ≡ self.old.seat.me.0.reader }
        ensures plan { (self.new.seat.me.0.plan ≡ self.old.seat.me.0.plan)
            × (self.new.seat.me.0.looks ≡ self.old.seat.me.0.looks) }
        ensures same { (self.new.events ≡ self.old.events) × (self.new.shape ≡ self.old.shape) }
        ensures home { self.new.seat.table_id ≡ self.old.seat.table_id }
        ensures played { self.new.played ≡ self.old.played + 1 }
    {
        let book = &self.book;
        book.shared.store::<Next>(&mut self.seat, 0, 0);
        let event = self.events[self.played];
        apply(&mut self.words, &self.shape, event);
        self.writing = goes_on_writing(event, self.writing);
        self.played += 1;
    }

    // Plays up to the event of this number.
    fn play_to(&mut self, until: usize)
        requires later { self.old.played ≤ until }
        requires few { until ≤ length self.old.events.items }
        ensures reader { self.new.seat.me.0.reader ≡ self.old.seat.me.0.reader }
        ensures plan { (self.new.seat.me.0.plan ≡ self.old.seat.me.0.plan)
            × (self.new.seat.me.0.looks ≡ self.old.seat.me.0.looks) }
        ensures same { (self.new.events ≡ self.old.events) × (self.new.shape ≡ self.old.shape) }
        ensures home { self.new.seat.table_id ≡ self.old.seat.table_id }
        ensures played { self.new.played ≡ until }
    {
        for _event in self.played..until {
            self.play();
        }
    }
}

// Whether the cuts never fall, and none is above this.
fn are_cuts(cuts: &[u32], most: usize) -> bool
    ensures { IsTrue result ↔ (Rises cuts.now × NoneAbove most cuts.now) }
{
    let mut last = 0;
    for i in 0..cuts.len() {
        if cuts[i] < last {
            return false;
        }
        last = cuts[i];
    }
    last as usize <= most
}

impl Scripted {
    ghost use Rattle.std.specs.Prelude.{IfOk};
    ghost use Rattle.partition_words.specs.Seats.{diary_of};
    ghost use Rattle.scripted_reader.specs.Script.{opening_book, plan_for};
    ghost use Rattle.scripted_reader.specs.Seat.{book_of};

    /// Whether `new` takes the cuts: they never fall, and none is above the number of events that the words kept.
    pub fn takes(plain: &PlainWords, cuts: &[u32]) -> bool
        ensures { IsTrue result ↔ (Rises cuts.now × NoneAbove (length (diary_of plain.now).kept) cuts.now) }
    {
        are_cuts(cuts, plain.events().len())
    }

    /// A reader of the words whose events the plain words kept, which begin as made. On `NoMemory` the plain words
    /// are dropped.
    pub fn new(alloc: Global, plain: PlainWords, cuts: &[u32]) -> Result<Scripted, NoMemory>
        requires rise { Rises cuts.now }
        requires few { NoneAbove (length (diary_of plain).kept) cuts.now }
        ensures made { IfOk result (λ s. book_of s ≡ opening_book (plan_for plain cuts.now)) }
    {
        let script = plain.into_script(cuts.to_vec(alloc)?);
        let words = vec![in alloc; 0u64; script.shape.word_count()]?;
        let (book, seat) = Table::<(), Book, Script, Plot, Global>::of_words(alloc, &[0], &script)?;
        let Script {
            events,
            shape,
            token: _,
            cuts,
        } = script;
        Ok(Scripted {
            stage: Stage {
                words,
                events,
                played: 0,
                writing: false,
                shape,
                book,
                seat,
            },
            cuts,
            loads: 0,
            bucket: 0,
        })
    }

    /// Whether no later load plays an event, and each write that was begun has ended.
    pub fn is_settled(&self) -> bool
        ensures { IsTrue result ↔ HasPlayedOut (book_of self.now) }
    {
        self.stage.played == self.last_cut() && !self.stage.writing
    }

    fn last_cut(&self) -> usize
        ensures { result ≡ slice_index self.now.cuts.items (length self.now.cuts.items - 1) }
    {
        match self.cuts.last() {
            Some(cut) => *cut as usize,
            None => 0,
        }
    }

    // How many events are to have been played before the next load.
    fn next_cut(&self) -> usize
        ensures { result ≡ cut_at self.now.cuts.items (self.now.loads + 1) }
    {
        match self.cuts.get(self.loads) {
            Some(cut) => *cut as usize,
            None => self.last_cut(),
        }
    }

    // One more load.
    fn next_loads(&self) -> usize
        ensures { result ≡ min (self.now.loads + 1) (length self.now.cuts.items) }
    {
        if self.loads < self.cuts.len() {
            self.loads + 1
        } else {
            self.cuts.len()
        }
    }

    // The next load, of the word at this place. K says which load it is.
    fn load<K: Looks>(&mut self, place: usize, bucket: u32) -> u64
        requires inside { place < word_count self.old.stage.shape }
        requires may { MayLook K.look self.old.stage.seat.me.0.reader }
        requires tries { StaysIn self.old.stage.shape bucket K.look self.old.stage.seat.me.0.reader }
        ensures event { self.new.stage.seat.me.0.reader ≡ look_at K.look self.new.stage.seat.me.0.owner
            self.old.stage.seat.me.0.reader }
        ensures value { result ≡ slice_index self.new.stage.seat.me.0.owner.words place }
        ensures owner { Kept self.new.stage.seat.me.0.owner }
        ensures planned { self.new.stage.seat.me.0.owner
            ≡ owner_found self.old.stage.seat.me.0.plan self.old.stage.seat.me.0.reader }
        ensures plan { self.new.stage.seat.me.0.plan ≡ self.old.stage.seat.me.0.plan }
        ensures reader { ReaderKept self.new.stage.seat.me.0.owner self.old.stage.seat.me.0.reader }
        ensures home { self.new.stage.seat.table_id ≡ self.old.stage.seat.table_id }
    {
        let until = self.next_cut();
        self.loads = self.next_loads();
        self.stage.play_to(until);
        let book = &self.stage.book;
        take_look::<K>(&book.shared, &mut self.stage.seat);
        self.bucket = bucket;
        self.stage.words[place]
    }
}

impl ReaderWords for Scripted {
    ghost reader = { λ s. s.stage.seat.me.0.reader };

    ghost home = { λ s. s.stage.seat.table_id };

    ghost plan = { λ s. Some s.stage.seat.me.0.plan };

    fn shape(&self) -> Shape {
        self.stage.shape
    }

    fn first_epoch(&mut self, bucket: u32) -> u64 {
        let place = self.stage.shape.place(WordAt::Epoch(bucket));
        self.load::<Brand>(place, bucket)
    }

    fn entry(&mut self, bucket: u32, slot: u32) -> u64 {
        let place = self.stage.shape.place(WordAt::Entry(bucket, slot));
        self.load::<Brand>(place, self.bucket)
    }

    fn link(&mut self, bucket: u32) -> u32 {
        let place = self.stage.shape.place(WordAt::Link(bucket));
        self.load::<Brand>(place, self.bucket) as u32
    }

    fn item_word(&mut self, offset: u64) -> u64 {
        let place = self.stage.shape.place(WordAt::Item(offset));
        self.load::<Brand>(place, self.bucket)
    }

    fn stamp(&mut self) -> u64 {
        let place = self.stage.shape.place(WordAt::Stamp);
        self.load::<Brand>(place, self.bucket)
    }

    fn last_epoch(&mut self) -> u64 {
        let place = self.stage.shape.place(WordAt::Epoch(self.bucket));
        self.load::<Brand>(place, self.bucket)
    }
}
