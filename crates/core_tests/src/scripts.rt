//! An owner's writes between the loads of a get with one try, judged by the plain machine at the carried stamp.

use crate::machine::Machine;
use crate::partitions::{cache_over, store_over, write};
use mica_words::key_fits;
use optimistic_get::{Got, get};
use outside::NoMemory;
use partition_model::{Answer, ItemBuf, Mode, Op, Options, Outcome};
use partition_words::{Partition, PlainWords};
use scripted_reader::Scripted;
use std::alloc::{AllocGlobal, Global};
use std::process::Abort;
use std::test::Fail;

/// An operation, its key, its value, and the reply.
pub(crate) struct Written(pub Op, pub &'static [u8], pub &'static [u8], pub Outcome);

/// An owner's writes, and the key that is read meanwhile.
pub(crate) struct Script {
    pub options: Options,
    pub writes: &'static [Written],
    pub key: &'static [u8],
}

/// Where gets are cut.
#[derive(Clone, Copy)]
pub(crate) struct Cuts {
    /// At every two numbers of events, or only at each and the next one and at each and the last one.
    pub every_two: bool,
    /// The most loads between the two.
    pub loads: usize,
}

/// What the machine answers to the key at one stamp.
#[derive(Drop)]
struct Known {
    stamp: u64,
    answer: Answer,
    out: ItemBuf,
}

/// What the machine answers to the key at each stamp, and which kinds of answers came.
#[derive(Drop)]
struct Judge {
    known: Vec<Known>,
    has_hit: bool,
    has_missed: bool,
    has_failed: bool,
}

/// Room for the events of each script, and for one more.
const ROOM: u32 = 512;

/// More loads than any try here makes.
const MOST_LOADS: usize = 180;

fn apply_all<P: Partition>(rt: &impl Abort, partition: &mut P, writes: &[Written]) {
    for Written(op, key, value, outcome) in writes {
        assert!(rt; write(partition, *op, key, value) == Some(*outcome));
    }
}

/// The words after the writes, with their events.
pub(crate) fn stored_words(
    rt: &(impl Abort + AllocGlobal),
    script: &Script,
) -> Result<PlainWords, Fail> {
    match script.options.mode {
        Mode::Cache => {
            let mut partition = cache_over(rt, &script.options, ROOM)?;
            apply_all(rt, &mut partition, script.writes);
            Ok(partition.into_words())
        }
        Mode::Store => {
            let mut partition = store_over(rt, &script.options, ROOM)?;
            apply_all(rt, &mut partition, script.writes);
            Ok(partition.into_words())
        }
    }
}

// What the machine answers to the key.
fn known_by(alloc: Global, machine: &Machine, key: &[u8]) -> Result<Known, NoMemory> {
    let mut out = ItemBuf::new(alloc)?;
    let answer = machine.answer(key, &mut out);
    Ok(Known {
        stamp: machine.stamp(),
        answer,
        out,
    })
}

// Puts what the machine answers to the key behind what it answered before.
fn add_known(
    alloc: Global,
    machine: &Machine,
    key: &[u8],
    all: &mut Vec<Known>,
) -> Result<(), NoMemory> {
    let known = known_by(alloc, machine, key)?;
    all.push(known)?;
    Ok(())
}

// Makes the write, and tells whether the machine gives its reply.
fn is_replied(alloc: Global, machine: &mut Machine, written: &Written) -> Result<bool, NoMemory> {
    let Written(op, key, value, outcome) = written;
    Ok(machine.apply(alloc, *op, key, value)? == Some(*outcome))
}

// What the machine answers before the writes, and after each.
fn known_answers(rt: &(impl Abort + AllocGlobal), script: &Script) -> Result<Vec<Known>, Fail> {
    assert!(rt; script.options.is_valid());
    let alloc = rt.alloc();
    let mut machine = Machine::new(alloc, &script.options)?;
    let mut all = Vec::new(alloc);
    add_known(alloc, &machine, script.key, &mut all)?;
    for written in script.writes {
        assert!(rt; is_replied(alloc, &mut machine, written)?);
        add_known(alloc, &machine, script.key, &mut all)?;
    }
    Ok(all)
}

// Whether the machine gave this answer at this stamp.
fn is_known(known: &[Known], stamp: u64, answer: Answer, value: &[u8]) -> bool {
    for one in known {
        if one.stamp == stamp && one.answer == answer && one.out.value() == value {
            return true;
        }
    }
    false
}

impl Judge {
    // Whether the machine answers the same at the stamp, or the try failed as a try may.
    fn is_lawful(&mut self, got: Got, value: &[u8]) -> bool {
        match got {
            Got::Hit { stamp } => {
                self.has_hit = true;
                is_known(self.known.as_slice(), stamp, Answer::Hit, value)
            }
            Got::Miss { stamp } => {
                self.has_missed = true;
                is_known(self.known.as_slice(), stamp, Answer::Miss, value)
            }
            Got::Again { first, last } => {
                self.has_failed = true;
                first % 2 == 1 || first < last
            }
        }
    }

    // Whether the key fits, and a get with one try is answered lawfully.
    fn is_answered(&mut self, seat: &mut Scripted, key: &[u8], out: &mut ItemBuf) -> bool {
        if !key_fits(key) {
            return false;
        }
        let got = get(seat, key, 1, out);
        self.is_lawful(got, out.value())
    }
}

/// A seat over the script's words, so many of whose events happen before each load.
pub(crate) fn seat_of(
    rt: &(impl Abort + AllocGlobal),
    script: &Script,
    cuts: &[u32],
) -> Result<Scripted, Fail> {
    let words = stored_words(rt, script)?;
    assert!(rt; Scripted::takes(&words, cuts));
    Ok(Scripted::new(rt.alloc(), words, cuts)?)
}

// Gets with one try, where the first events happen before the first load, and the next ones after each number of loads to
// the most.
fn expect_after_loads(
    rt: &(impl Abort + AllocGlobal),
    script: &Script,
    judge: &mut Judge,
    most: usize,
    first: u32,
    then: u32,
) -> Result<(), Fail> {
    let mut out = ItemBuf::new(rt.alloc())?;
    for loads in 1..most.min(MOST_LOADS) + 1 {
        let mut places = [first; MOST_LOADS + 1];
        let cuts = &mut places[..loads + 1];
        cuts[loads] = then;
        let mut seat = seat_of(rt, script, cuts)?;
        assert!(rt; judge.is_answered(&mut seat, script.key, &mut out));
    }
    Ok(())
}

/// Gets of the key at the cuts, with every number of loads between. Each kind of answer comes.
pub(crate) fn expect_script(
    rt: &(impl Abort + AllocGlobal),
    script: &Script,
    cuts: Cuts,
) -> Result<(), Fail> {
    let mut judge = Judge {
        known: known_answers(rt, script)?,
        has_hit: false,
        has_missed: false,
        has_failed: false,
    };
    let count = stored_words(rt, script)?.events().len();
    assert!(rt; count < ROOM as usize);
    let count = count as u32;
    for first in 0..count + 1 {
        for then in first..count + 1 {
            if cuts.every_two || then == first + 1 || then == count {
                expect_after_loads(rt, script, &mut judge, cuts.loads, first, then)?;
            }
        }
    }
    assert!(rt; judge.has_hit && judge.has_missed && judge.has_failed);
    Ok(())
}
