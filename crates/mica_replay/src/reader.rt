//! What a reader does in a round: the gets that were shared out to it, by its seats.
ghost use Rattle.std.specs.Prelude.{◌≡◌, ◌<◌, ◌^◌, All, length, map, slice_get, IfOk, OnErr};
ghost use Rattle.std.specs.Option.{option_copied};
ghost use Rattle.std.specs.Vec.Iter.{into_iter_items};
ghost use Rattle.mica_words.specs.Item.{KeyFits};
ghost use Rattle.partition_model.specs.Options.{IsValid};
ghost use Rattle.mica_replay.specs.Answered.{IsNotAgain, line_of};
ghost use Rattle.mica_replay.specs.LineNumbers.{lines_at, NamesGet};
ghost use Rattle.mica_replay.specs.ReaderGets.{AreSeatsOf, HaveRead, HaveSeenMore};

use mica_trace::{Line, Trace};
use mica_words::partition_of;
use optimistic_get::{Got, ask_hashed};
use outside::{Bytes, Gate, NoMemory};
use partition_model::{ItemBuf, Options};
use partition_words::ReaderWords;
use std::alloc::Global;
use std::marker::Model;
use std::sync::Wait;
use std::thread::Threads;
use std::vec::IntoIter;

/// The lines that a reader found, in the order of its gets.
#[derive(Drop)]
pub struct Found {
    lines: Vec<Line>,
}

impl Model for Found {
    ghost use Rattle.std.specs.Prelude.{List, length, ◌<◌, ◌^◌};
    ghost use Rattle.mica_trace.specs.declared.report.Line.{Line};

    ghost Value = { List Line };

    ghost view = { λ f. f.lines.items };

    ghost invariant = { λ f. length f.lines.items < 2 ^ 32 };
}

impl Found {
    /// How many gets there are.
    pub fn len(&self) -> u32
        ensures { result ≡ length self.now }
    {
        self.lines.len() as u32
    }

    pub(crate) fn into_lines(self) -> IntoIter<Line, Global>
        ensures { into_iter_items result ≡ self }
    {
        self.lines.into_iter()
    }

    /// The line of this number, from 0.
    pub fn line(&self, number: u32) -> Option<&Line>
        ensures { option_copied result ≡ slice_get self.now number }
    {
        self.lines.get(number as usize)
    }
}

// The line of an answer.
fn line_of(alloc: Global, got: Got, out: &ItemBuf) -> Result<Line, NoMemory>
    requires { IsNotAgain got }
    ensures { IfOk result (λ line. line ≡ line_of got out.now) }
{
    match got {
        Got::Hit { stamp } => Ok(Line::Hit {
            stamp,
            value: Bytes::copy(alloc, out.value())?,
        }),
        Got::Miss { stamp } => Ok(Line::Miss { stamp }),
        Got::Again { .. } => unreachable!(),
    }
}

/// Answers the gets at these line numbers, in order: seat `p` those whose key is in partition `p`. A get is asked
/// again until it answers. Where memory runs out, the seats stay lawful.
pub fn run_reader<W: Threads + Wait + Sync, R: ReaderWords, G: Gate>(
    rt: &W,
    alloc: Global,
    seats: &mut Vec<R>,
    trace: &Trace,
    gets: &[u32],
    options: &Options,
    gate: &G,
    worker: u32,
) -> Result<Found, NoMemory>
    requires valid { IsValid options.now }
    requires seats { AreSeatsOf options.now (map (λ s. R.reader s) seats.old.items) }
    requires gets { All (NamesGet trace.now) gets.now }
    requires few { length gets.now < 2 ^ 32 }

    ensures read { IfOk result (λ found. HaveRead options.now (lines_at trace.now gets.now) found
        (map (λ s. R.reader s) seats.old.items) (map (λ s. R.reader s) seats.new.items)) }
    ensures seen { OnErr result (HaveSeenMore
        (map (λ s. R.reader s) seats.old.items) (map (λ s. R.reader s) seats.new.items)) }
    ensures homes { map (λ s. R.home s) seats.new.items ≡ map (λ s. R.home s) seats.old.items }
{
    let mut found = Vec::with_capacity(alloc, gets.len())?;
    let mut out = ItemBuf::new(alloc)?;
    let lines = trace.lines();
    let mut call = 0;
    for number in gets {
        gate.turn(worker, call);
        let key = lines[*number as usize].key.bytes();
        let hash = options.hashing.key_hash(key);
        let partition = partition_of(hash, options.partitions) as usize;
        let seat = &mut seats[partition];
        let got = ask_hashed(rt, seat, key, hash, options.tries, &mut out);
        found.push_reserved(line_of(alloc, got, &out)?);
        call += 1;
    }
    gate.turn(worker, call);
    Ok(Found { lines: found })
}
