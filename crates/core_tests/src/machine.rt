//! The plain machine of either mode.

ghost use Rattle.partition_model.specs.Options.{IsValid};

use mica_model::{
    Answer, CacheMachine, Fate, ItemBuf, Mode, Op, Options, Outcome, StoreMachine, write_fits,
};
use outside::NoMemory;
use std::alloc::Global;

/// The machine of a mode.
#[derive(Drop)]
pub(crate) enum Machine {
    Cache(Box<CacheMachine>),
    Store(Box<StoreMachine>),
}

impl Machine {
    /// An empty partition.
    pub(crate) fn new(alloc: Global, options: &Options) -> Result<Self, NoMemory>
        requires { IsValid options.now }
    {
        match options.mode {
            Mode::Cache => {
                let machine = CacheMachine::new(alloc, options)?;
                Ok(Machine::Cache(Box::new(alloc, machine)?))
            }
            Mode::Store => {
                let machine = StoreMachine::new(alloc, options)?;
                Ok(Machine::Store(Box::new(alloc, machine)?))
            }
        }
    }

    /// Whether the write fits, and the machine may reply this to it.
    pub(crate) fn allows(&self, op: Op, key: &[u8], value: &[u8], outcome: Outcome) -> bool {
        write_fits(op, key, value)
            && match self {
                Machine::Cache(machine) => machine.allows(op, key, value, outcome),
                Machine::Store(machine) => machine.allows(op, key, value, outcome),
            }
    }

    /// One step, where the write fits.
    pub(crate) fn apply(
        &mut self,
        alloc: Global,
        op: Op,
        key: &[u8],
        value: &[u8],
    ) -> Result<Option<Outcome>, NoMemory> {
        if !write_fits(op, key, value) {
            return Ok(None);
        }
        let outcome = match self {
            Machine::Cache(machine) => machine.apply(alloc, op, key, value),
            Machine::Store(machine) => machine.apply(alloc, op, key, value),
        };
        Ok(Some(outcome?))
    }

    pub(crate) fn stamp(&self) -> u64 {
        match self {
            Machine::Cache(machine) => machine.stamp(),
            Machine::Store(machine) => machine.stamp(),
        }
    }

    /// The number of accepted writes.
    pub(crate) fn accepted(&self) -> u64 {
        match self {
            Machine::Cache(machine) => machine.accepted(),
            Machine::Store(machine) => machine.accepted(),
        }
    }

    pub(crate) fn is_store(&self) -> bool {
        matches!(self, Machine::Store(_))
    }

    /// Whether the stamp of store mode is the number of accepted writes.
    pub(crate) fn is_counted(&self) -> bool {
        match self {
            Machine::Cache(_) => true,
            Machine::Store(_) => self.accepted() == self.stamp(),
        }
    }

    /// The value of the key, which the buffer then has, or a miss.
    pub(crate) fn answer(&self, key: &[u8], out: &mut ItemBuf) -> Answer {
        match self {
            Machine::Cache(machine) => machine.answer(key, out),
            Machine::Store(machine) => machine.answer(key, out),
        }
    }

    /// What became of the key, where the machine tells it.
    pub(crate) fn fate(&self, key: &[u8]) -> Option<Fate> {
        match self {
            Machine::Cache(machine) => Some(machine.fate(key)),
            Machine::Store(_) => None,
        }
    }
}
