//! The machine of a partition, in either mode.
ghost use Rattle.std.specs.Prelude.{◌≡◌, ◌↔◌, [], IsTrue, IfOk, MatchBool};
ghost use Rattle.mica_words.specs.Item.{KeyFits};
ghost use Rattle.partition_model.specs.Answer.{IsAnswer};
ghost use Rattle.partition_model.specs.History.{Allows, IsStep, State, stamp_in, value_in};
ghost use Rattle.partition_model.specs.Options.{IsValid};
ghost use Rattle.partition_model.specs.Write.{HasValueOf, write_of};
ghost use Rattle.report_check.specs.Machines.{options_in, AnswersIn, IsAfter, IsAt, TakesWrite};

use crate::cache_buckets::CacheBuckets;
use mica_model::{Answer, ItemBuf, Mode, Op, Options, Outcome, StoreMachine};
use mica_trace::Line;
use outside::NoMemory;
use std::alloc::Global;

/// The machine of a partition, in either mode.
#[derive(Drop)]
pub enum Machine {
    Cache(CacheBuckets),
    Store(StoreMachine),
}

impl Machine {
    /// An empty partition.
    pub fn new(alloc: Global, options: &Options) -> Result<Self, NoMemory>
        requires { IsValid options.now }
        ensures { IfOk result (IsAfter options.now []) }
    {
        match options.mode {
            Mode::Cache => Ok(Machine::Cache(CacheBuckets::new(alloc, options)?)),
            Mode::Store => Ok(Machine::Store(StoreMachine::new(alloc, options)?)),
        }
    }

    /// The stamp of the state.
    pub fn stamp(&self) -> u64
        ensures { (state : State) → IsAt state self.now → result ≡ stamp_in state }
    {
        match self {
            Machine::Cache(machine) => machine.stamp(),
            Machine::Store(machine) => machine.stamp(),
        }
    }

    /// Takes a write, if the machine may give it this outcome, and says whether it may. A write that is refused changes nothing.
    pub fn take(
        &mut self,
        alloc: Global,
        op: Op,
        key: &[u8],
        value: &[u8],
        outcome: Outcome,
    ) -> Result<bool, NoMemory>
        requires key { KeyFits key.now }
        requires value { HasValueOf op value.now }
        requires at { (state : State) × IsAt state self.old }
        ensures { IfOk result (λ may. (state : State) → IsAt state self.old
            → MatchBool may (TakesWrite state (write_of op key.now value.now) outcome self.old self.new)
            (¬ (Allows (options_in self.old) state (write_of op key.now value.now) outcome))) }
    {
        match self {
            Machine::Cache(machine) => {
                let may = machine.take(alloc, op, key, value, outcome)?;
                Ok(may)
            }
            Machine::Store(machine) => take_in_store(machine, alloc, op, key, value, outcome),
        }
    }

    /// Whether the line is what the machine answers to a get now. The buffer is for the value.
    pub fn answers(&self, key: &[u8], printed: &Line, out: &mut ItemBuf) -> bool
        requires { (state : State) × IsAt state self.now }
        ensures { (state : State) → IsAt state self.now → IsTrue result ↔ AnswersIn state key.now printed.now }
    {
        match printed {
            Line::Hit { stamp, value } => {
                *stamp == self.stamp()
                    && self.answer(key, out) == Answer::Hit
                    && out.value() == value.bytes()
            }
            Line::Miss { stamp } => {
                *stamp == self.stamp() && self.answer(key, out) == Answer::Miss
            }
            Line::Wrote { .. } | Line::Sync => false,
        }
    }

    fn answer(&self, key: &[u8], out: &mut ItemBuf) -> Answer
        requires { (state : State) × IsAt state self.now }
        ensures { (state : State) → IsAt state self.now → IsAnswer result out.new (value_in state key.now) }
    {
        match self {
            Machine::Cache(machine) => machine.answer(key, out),
            Machine::Store(machine) => machine.answer(key, out),
        }
    }
}

// Takes a write, if the machine may give it this outcome, and says whether it may.
fn take_in_store(
    machine: &mut StoreMachine,
    alloc: Global,
    op: Op,
    key: &[u8],
    value: &[u8],
    outcome: Outcome,
) -> Result<bool, NoMemory>
    requires key { KeyFits key.now }
    requires value { HasValueOf op value.now }
    ensures step { IfOk result (λ may. MatchBool may (IsStep machine.old.options machine.old.state (write_of op key.now value.now) outcome machine.new.state)
        (¬ (Allows machine.old.options machine.old.state (write_of op key.now value.now) outcome))) }
    ensures options { machine.new.options ≡ machine.old.options }
{
    if !machine.allows(op, key, value, outcome) {
        return Ok(false);
    }
    if outcome.is_accepted() {
        machine.apply(alloc, op, key, value)?;
    }
    Ok(true)
}
