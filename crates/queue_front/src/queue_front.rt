//! A front before owners in other threads.
ghost use Rattle.std.specs.Prelude.{◌≡◌, ◌+◌, ◌<◌, ◌≤◌, ℕ, true, false, List, Option, All, IfOk, OnErr, IsTrue, map, vec_len};
ghost use Rattle.partition_table.specs.Seats.{reader_state};
ghost use Rattle.mica_words.specs.Hash.{hash_of, partition_of};
ghost use Rattle.mica_words.specs.Item.{KeyFits};
ghost use Rattle.partition_model.specs.Options.{IsValid};
ghost use Rattle.partition_model.specs.Answer.{IsAnswer};
ghost use Rattle.partition_model.specs.Write.{HasValueOf, is_accepted, write_of};
ghost use Rattle.fronts.specs.Session.{ChangesOnly, Writes, Reads};
ghost use Rattle.owner_queue.specs.declared.message.Message.TheVariants as message;
ghost use Rattle.owner_queue.specs.Messages.{MayFollow};
ghost use Rattle.queue_front.specs.QueueFront.{IsOfOneTable, IsNewPart, IsQueueFront, HasAwaited, PartWrites, PartReads, queue_view, ended_part, sessions_of, stand_of};

use fronts::seat_loads;
use mica_words::{Hashing, partition_of};
use optimistic_get::{Got, ask_hashed};
use outside::{Bytes, NoMemory};
use owner_queue::{Ack, AckReceiver, CowWrite, Job, JobSender, Message};
use partition_model::{Answer, ItemBuf, Op, Options, Outcome};
use partition_table::ReaderSeat;
use std::alloc::Global;
use std::marker::Model;
use std::sync::Wait;

/// What a front holds of one partition.
#[derive(Drop)]
pub struct FrontPart {
    pub seat: ReaderSeat,
    pub jobs: JobSender<'static>,
    pub acks: AckReceiver,
    /// The stamp that was answered last, to a write or a get.
    pub last: u64,
}

/// Whether it is the acknowledgement of this ticket and write.
fn is_of(ack: &Ack, ticket: u64, op: Op, key: &[u8], value: &[u8]) -> bool
    ensures ticket { IsTrue result → ack.now.ticket ≡ ticket }
    ensures write { IsTrue result → ack.now.write ≡ write_of op key.now value.now }
{
    let write = &ack.write;
    ack.ticket == ticket
        && write.op == op
        && write.key.bytes() == key
        && write.value.bytes() == value
}

/// Whether its stamp may be answered after the last one: it does not fall, and rises where the write was accepted.
fn comes_after(ack: &Ack, last: u64) -> bool
    ensures no_fall { IsTrue result → last ≤ ack.now.stamp }
    ensures rises { IsTrue result → is_accepted ack.now.outcome ≡ true → last < ack.now.stamp }
{
    if ack.outcome.is_accepted() {
        last < ack.stamp
    } else {
        last <= ack.stamp
    }
}

/// Takes acknowledgements until one has this ticket and write, and may be answered after the last stamp.
fn await_ack<R: Wait>(
    rt: &R,
    acks: &mut AckReceiver,
    last: u64,
    ticket: u64,
    op: Op,
    key: &[u8],
    value: &[u8],
) -> Ack
    ensures { HasAwaited acks.old last ticket (write_of op key.now value.now) result acks.new }
{
    for _ in rt.forever() {
        let ack = acks.recv(rt);
        if is_of(&ack, ticket, op, key, value) && comes_after(&ack, last) {
            return ack;
        }
    }
    unreachable!()
}

impl FrontPart {
    /// Sends the job, and tells the seat the note of its acknowledgement. The write is that of the job.
    fn write<R: Wait>(
        &mut self,
        rt: &R,
        job: Job<'static>,
        op: Op,
        key: &[u8],
        value: &[u8],
    ) -> (Outcome, u64)
        requires whole { IsOfOneTable self.old }
        requires own { job.sender ≡ self.old.jobs.number }
        requires order { MayFollow self.old.jobs.jobs self.old.jobs.sent (message.Job job) }
        requires write { job.write ≡ write_of op key.now value.now }
        ensures { PartWrites self.old job.entry result.0 result.1 self.new }
    {
        let ticket = job.ticket;
        self.jobs.send(rt, Message::Job(job));
        let ack = await_ack(rt, &mut self.acks, self.last, ticket, op, key, value);
        self.seat.tell(ack.note);
        self.last = ack.stamp;
        (ack.outcome, ack.stamp)
    }

    /// Asks the seat until it answers.
    fn read<R: Wait>(
        &mut self,
        rt: &R,
        key: &[u8],
        hash: u64,
        tries: u32,
        out: &mut ItemBuf,
    ) -> (Answer, u64)
        requires key { KeyFits key.now }
        requires hashed { hash ≡ hash_of (reader_state self.old.seat).shape.hashing key.now }
        requires tries { 0 < tries }
        ensures { PartReads self.old key.now result.0 result.1 out.new self.new }
    {
        match ask_hashed(rt, &mut self.seat, key, hash, tries, out) {
            Got::Hit { stamp } => {
                self.last = stamp;
                (Answer::Hit, stamp)
            }
            Got::Miss { stamp } => {
                self.last = stamp;
                (Answer::Miss, stamp)
            }
            Got::Again { .. } => unreachable!(),
        }
    }

    /// Sends the front's end to the owner.
    fn end<R: Wait>(&mut self, rt: &R, number: u32)
        requires own { number ≡ self.old.jobs.number }
        requires order { MayFollow self.old.jobs.jobs self.old.jobs.sent (message.End number) }
        ensures { self.new ≡ ended_part number self.old }
    {
        self.jobs.send(rt, Message::End(number));
    }
}

/// A front that sends its writes to the owners, and gets by loads of its own.
#[derive(Drop)]
pub struct QueueFront {
    options: Options,
    number: u32,
    next: u64,
    left: u64,
    parts: Vec<FrontPart>,
}

impl Model for QueueFront {
    ghost use Rattle.queue_front.specs.QueueFront.{QueueView, IsQueueFront, queue_view};

    ghost Value = { QueueView };

    ghost view = { λ f. queue_view f.options f.number f.next f.left f.parts.items };

    ghost invariant = { λ f. IsQueueFront (queue_view f.options f.number f.next f.left f.parts.items) };
}

impl QueueFront {
    /// A front that may send so many jobs in all.
    pub fn new(options: &Options, number: u32, most: u64, parts: Vec<FrontPart>) -> QueueFront
        requires valid { IsValid options.now }
        requires many { vec_len parts ≡ options.now.partitions }
        requires each { All (IsNewPart options.now number most) parts.items }
        ensures { result ≡ queue_view options.now number 0 most parts.items }
    {
        QueueFront {
            options: *options,
            number,
            next: 0,
            left: most,
            parts,
        }
    }

    // Sends a write to its owner, and waits for what that made of it.
    pub(crate) fn write<R: Wait>(
        &mut self,
        rt: &R,
        alloc: Global,
        op: Op,
        key: &[u8],
        value: &[u8],
    ) -> Result<(Outcome, u64), NoMemory>
        requires key { KeyFits key.now }
        requires value { HasValueOf op value.now }
        requires left { 0 < self.old.left }
        ensures written { IfOk result (λ r. let p = partition_of self.old.options.hashing key.entry.now self.old.options.partitions in
            Writes self.old.options false (sessions_of self.old.parts p)
            (record { write = write_of op key.entry.now value.entry.now; outcome = r.0; stamp = r.1 }) (sessions_of self.new.parts p)) }
        ensures others { IfOk result (λ _.
            ChangesOnly (partition_of self.old.options.hashing key.entry.now self.old.options.partitions) (sessions_of self.old.parts) (sessions_of self.new.parts)) }
        ensures err { OnErr result (self.new ≡ self.old) }
        ensures left { self.old.left ≤ self.new.left + 1 }
        ensures options { self.new.options ≡ self.old.options }
        ensures number { self.new.number ≡ self.old.number }
        ensures stands { map stand_of self.new.parts ≡ map stand_of self.old.parts }
    {
        let write = CowWrite {
            op,
            key: Bytes::copy(alloc, key)?.into(),
            value: Bytes::copy(alloc, value)?.into(),
        };
        let job = Job {
            sender: self.number,
            ticket: self.next,
            write,
        };
        let at = partition_of(self.options.hashing.key_hash(key), self.options.partitions) as usize;
        let answer = self.parts[at].write(rt, job, op, key, value);
        self.next += 1;
        self.left -= 1;
        Ok(answer)
    }

    // Gets by loads of its own.
    pub(crate) fn read<R: Wait>(&mut self, rt: &R, key: &[u8], out: &mut ItemBuf) -> (Answer, u64)
        requires key { KeyFits key.now }
        ensures answer { let p = partition_of self.old.options.hashing key.entry.now self.old.options.partitions in
            (value : Option (List ℕ)) × IsAnswer result.0 out.new value
            × Reads self.old.options false (sessions_of self.old.parts p) key.entry.now result.1 value (sessions_of self.new.parts p) }
        ensures others { ChangesOnly (partition_of self.old.options.hashing key.entry.now self.old.options.partitions) (sessions_of self.old.parts) (sessions_of self.new.parts) }
        ensures left { self.new.left ≡ self.old.left }
        ensures options { self.new.options ≡ self.old.options }
        ensures number { self.new.number ≡ self.old.number }
        ensures stands { map stand_of self.new.parts ≡ map stand_of self.old.parts }
    {
        let hash = self.options.hashing.key_hash(key);
        let at = partition_of(hash, self.options.partitions) as usize;
        self.parts[at].read(rt, key, hash, self.options.tries, out)
    }

    pub(crate) fn hashing(&self) -> Hashing
        ensures { result ≡ self.now.options.hashing }
    {
        self.options.hashing
    }

    pub(crate) fn loads_ahead(&self) -> bool {
        seat_loads::are_large(&self.options)
    }

    pub(crate) fn load_bucket(&self, hash: u64) {
        let at = partition_of(hash, self.options.partitions) as usize;
        seat_loads::load_bucket(&self.parts[at].seat, hash);
    }

    pub(crate) fn entry_of(&self, hash: u64) -> u64 {
        let at = partition_of(hash, self.options.partitions) as usize;
        seat_loads::entry_of(&self.parts[at].seat, hash)
    }

    pub(crate) fn load_item(&self, hash: u64, entry: u64) {
        let at = partition_of(hash, self.options.partitions) as usize;
        seat_loads::load_item(&self.parts[at].seat, entry);
    }

    /// Sends its end to each owner.
    pub fn end<R: Wait>(self, rt: &R) -> Vec<FrontPart>
        ensures front { IsQueueFront self }
        ensures ended { result.items ≡ map (ended_part self.number) self.parts }
    {
        let QueueFront {
            number,
            mut parts,
            ..
        } = self;
        for part in parts.iter_mut() {
            part.end(rt, number);
        }
        parts
    }
}
