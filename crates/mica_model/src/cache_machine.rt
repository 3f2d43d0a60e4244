//! The machine of cache mode.
ghost use Rattle.std.specs.Prelude.{◌≡◌, ◌↔◌, IsTrue, IfOk, OnErr, length};
ghost use Rattle.std.specs.List.{AllByRecursion};
ghost use Rattle.mica_words.specs.Item.{KeyFits};
ghost use Rattle.partition_model.specs.Answer.{IsAnswer};
ghost use Rattle.partition_model.specs.Records.{AreRising};
ghost use Rattle.mica_model.specs.CacheFields.{displaced_record, fate_written, marked_displaced, marked_passed, notes_of};
ghost use Rattle.partition_model.specs.CacheStep.{without_displaced, without_passed};
ghost use Rattle.partition_model.specs.Fate.{GivesNoValue, fate_of};
ghost use Rattle.partition_model.specs.History.{MayGive, answer_of, stamp_of};
ghost use Rattle.mica_model.specs.Logged.{IsLoggedStep, new_log};
ghost use Rattle.partition_model.specs.Options.{IsValid};
ghost use Rattle.partition_model.specs.Write.{HasValueOf, write_of};

use crate::cache_state::CacheState;
use crate::fates::{Fates, mark_passed};
use outside::{Bytes, NoMemory};
use partition_model::{Answer, Fate, ItemBuf, Mode, Op, Options, Outcome, Write};
use std::alloc::Global;
use std::marker::Model;

/// The one-thread machine of a partition in cache mode, plain and slow. It keeps its accepted writes, and what
/// became of each key.
#[derive(Drop)]
pub struct CacheMachine {
    options: Options,
    state: CacheState,
    log: Vec<Write>,
    fates: Fates,
}

impl Model for CacheMachine {
    ghost use Rattle.mica_model.specs.Logged.{Logged};

    ghost Value = { Logged };

    ghost use Rattle.mica_model.specs.CacheInside.{logged_of, IsMachine};

    ghost view = { logged_of };

    ghost invariant = { IsMachine };
}

impl CacheMachine {
    /// An empty partition.
    pub fn new(alloc: Global, options: &Options) -> Result<Self, NoMemory>
        requires valid { IsValid options.now }
        requires mode { options.now.mode ≡ Mode.Cache }
        ensures { IfOk result (λ machine. machine ≡ new_log options.now) }
    {
        Ok(CacheMachine {
            options: *options,
            state: CacheState::new(alloc),
            log: Vec::new(alloc),
            fates: Fates::new(alloc),
        })
    }

    /// It has the tail of the log above 16 bits, and rises at each accepted write.
    pub fn stamp(&self) -> u64
        ensures { result ≡ stamp_of self.now.options self.now.history }
    {
        self.state.stamp()
    }

    /// The number of accepted writes.
    pub fn accepted(&self) -> u64
        ensures { result ≡ length self.now.history }
    {
        self.state.accepted()
    }

    /// The value of the key, which the buffer then has, or a miss, at which it is empty. It is a hit exactly where the
    /// key's fate is `Held`.
    pub fn answer(&self, key: &[u8], out: &mut ItemBuf) -> Answer
        ensures answer { IsAnswer result out.new
            (answer_of self.now.options self.now.history key.now) }
        ensures fate { (result ≡ Answer.Hit)
            ↔ (fate_of self.now.options self.now.history key.now ≡ Fate.Held) }
    {
        match self.state.value(key) {
            Some(value) => {
                out.set(value);
                Answer::Hit
            }
            None => {
                out.clear();
                Answer::Miss
            }
        }
    }

    /// What became of the key.
    pub fn fate(&self, key: &[u8]) -> Fate
        ensures fate { result ≡ fate_of self.now.options self.now.history key.now }
        ensures never { (result ≡ Fate.Never)
            ↔ AllByRecursion (GivesNoValue key.now) self.now.history }
    {
        self.fates.get(key)
    }

    /// Whether the machine may reply this to the write, as it would now.
    pub fn allows(&self, op: Op, key: &[u8], value: &[u8], outcome: Outcome) -> bool
        requires key { KeyFits key.now }
        requires value { HasValueOf op value.now }
        ensures { IsTrue result ↔ MayGive self.now.options self.now.history
            (write_of op key.now value.now) outcome }
    {
        self.state.replies(&self.options, op, key, value, outcome)
    }

    /// One step.
    pub fn apply(
        &mut self,
        alloc: Global,
        op: Op,
        key: &[u8],
        value: &[u8],
    ) -> Result<Outcome, NoMemory>
        requires key { KeyFits key.now }
        requires value { HasValueOf op value.now }

        ensures step { IfOk result
            (λ outcome. IsLoggedStep self.old (write_of op key.now value.now) outcome self.new) }
        ensures err { OnErr result (self.new ≡ self.old) }
    {
        let outcome = self.state.reply(&self.options, op, key, value);
        if !outcome.is_accepted() {
            return Ok(outcome);
        }
        let write = Write {
            op,
            key: Bytes::copy(alloc, key)?,
            value: Bytes::copy(alloc, value)?,
        };
        self.log.reserve(1)?;
        self.fates.add(alloc, key)?;
        let options = self.options;
        self.state.write(alloc, &options, op, key, value)?;
        let number = self.state.accepted() + 1;
        let fate = fate_after(outcome, number, self.fates.get(key));
        self.fates.mark(key, fate);
        drop_dead(&mut self.state, &mut self.fates, &options, key, number);
        self.log.push_reserved(write);
        self.state.count();
        Ok(outcome)
    }
}

// The fate of a key after a write to it with this outcome and number, where it had another before.
fn fate_after(outcome: Outcome, number: u64, before: Fate) -> Fate
    ensures { result ≡ fate_written outcome number before }
{
    match outcome {
        Outcome::Stored | Outcome::Touched => Fate::Held,
        Outcome::Deleted => Fate::Deleted(number),
        _ => before,
    }
}

// What the log has passed goes, and then what the index displaces. The number is that of the write.
fn drop_dead(state: &mut CacheState, fates: &mut Fates, options: &Options, key: &[u8], number: u64)
    requires options { IsValid options.now }
    requires rising { AreRising state.old.records }
    ensures state { state.new
        ≡ without_displaced options.now key.now (without_passed options.now state.old) }
    ensures fates { notes_of fates.new ≡ marked_displaced (Fate.Displaced number)
        (displaced_record options.now key.now (without_passed options.now state.old).records)
        (marked_passed (Fate.Passed number) options.now.words state.old.stamp state.old.records
        (notes_of fates.old)) }
{
    let passed = state.passed(options);
    mark_passed(
        fates,
        &state.records()[..passed],
        options.words,
        state.stamp(),
        Fate::Passed(number),
    );
    state.drop_first(passed);
    let displaced = state.displaced(options, key);
    if let Some(at) = displaced {
        let record = &state.records()[at];
        fates.mark(record.key(), Fate::Displaced(number));
    }
    state.remove(displaced);
}
