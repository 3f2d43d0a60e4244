//! The plain machine of either mode, step by step.

ghost use Rattle.partition_model.specs.Options.{IsValid};

use crate::text::{first_word, op_of, options_of, outcome_name, say};
use mica_model::{
    Answer, CacheMachine, Fate, ItemBuf, Mode, Op, Options, Outcome, StoreMachine, write_fits,
};
use outside::NoMemory;
use std::alloc::Global;

/// The machine of a mode.
#[derive(Drop)]
pub enum Machine {
    Cache(Box<CacheMachine>),
    Store(Box<StoreMachine>),
}

impl Machine {
    /// An empty partition.
    pub fn new(alloc: Global, options: &Options) -> Result<Self, NoMemory>
        requires { IsValid options.now }
    {
        match options.mode {
            Mode::Cache => {
                let machine = CacheMachine::new(alloc, options)?;
                Ok(Machine::Cache(Box::new(alloc, machine)?))
            }
            Mode::Store => {
                let machine = StoreMachine::new(alloc, options)?;
                Ok(Machine::Store(Box::new(alloc, machine)?))
            }
        }
    }

    /// Whether the write fits, and the machine may reply this to it.
    pub fn allows(&self, op: Op, key: &[u8], value: &[u8], outcome: Outcome) -> bool {
        write_fits(op, key, value)
            && match self {
                Machine::Cache(machine) => machine.allows(op, key, value, outcome),
                Machine::Store(machine) => machine.allows(op, key, value, outcome),
            }
    }

    /// One step, where the write fits.
    pub fn apply(
        &mut self,
        alloc: Global,
        op: Op,
        key: &[u8],
        value: &[u8],
    ) -> Result<Option<Outcome>, NoMemory> {
        if !write_fits(op, key, value) {
            return Ok(None);
        }
        let outcome = match self {
            Machine::Cache(machine) => machine.apply(alloc, op, key, value),
            Machine::Store(machine) => machine.apply(alloc, op, key, value),
        };
        Ok(Some(outcome?))
    }

    /// The stamp, and the number of accepted writes.
    pub fn counts(&self) -> (u64, u64) {
        match self {
            Machine::Cache(machine) => (machine.stamp(), machine.accepted()),
            Machine::Store(machine) => (machine.stamp(), machine.accepted()),
        }
    }

    pub fn is_store(&self) -> bool {
        matches!(self, Machine::Store(_))
    }

    /// The value of the key, which the buffer then has, or a miss.
    pub fn answer(&self, key: &[u8], out: &mut ItemBuf) -> Answer {
        match self {
            Machine::Cache(machine) => machine.answer(key, out),
            Machine::Store(machine) => machine.answer(key, out),
        }
    }

    /// What became of the key, where the machine tells it.
    fn fate(&self, key: &[u8]) -> Option<Fate> {
        match self {
            Machine::Cache(machine) => Some(machine.fate(key)),
            Machine::Store(_) => None,
        }
    }
}

static OUTCOMES: [Outcome; 8] = [
    Outcome::Stored,
    Outcome::Deleted,
    Outcome::Absent,
    Outcome::Touched,
    Outcome::FullSpare,
    Outcome::FullBlock,
    Outcome::Worn,
    Outcome::Exists,
];

/// Makes the write. Tells what came of it, whether the machine did not allow that, and the stamp after it.
fn write(
    alloc: Global,
    machine: &mut Machine,
    op: Op,
    key: &[u8],
    value: &[u8],
    into: &mut Vec<u8>,
) -> Result<(), NoMemory> {
    let mut allowed = [false; 8];
    for i in 0..8 {
        allowed[i] = machine.allows(op, key, value, OUTCOMES[i]);
    }
    let outcome = machine.apply(alloc, op, key, value)?;
    for i in 0..8 {
        if outcome == Some(OUTCOMES[i]) && !allowed[i] {
            say(into, "not allowed: ")?;
        }
    }
    let name = outcome.map_or("none", outcome_name);
    let (stamp, _) = machine.counts();
    say(into, format!(in alloc; "{name} {stamp}\n")?.as_str())
}

fn fate_text(alloc: Global, fate: Option<Fate>) -> Result<String, NoMemory> {
    Ok(match fate {
        Some(Fate::Never) => String::from_str(alloc, "never\n")?,
        Some(Fate::Deleted(number)) => format!(in alloc; "deleted {number}\n")?,
        Some(Fate::Displaced(number)) => format!(in alloc; "displaced {number}\n")?,
        Some(Fate::Passed(number)) => format!(in alloc; "passed {number}\n")?,
        Some(Fate::Held) => String::from_str(alloc, "held\n")?,
        None => String::from_str(alloc, "not told\n")?,
    })
}

/// What is found of the key: its value, or what became of it, and whether that is not as it is found.
fn find(
    alloc: Global,
    machine: &Machine,
    name: &str,
    key: &[u8],
    into: &mut Vec<u8>,
) -> Result<(), NoMemory> {
    let mut out = ItemBuf::new(alloc)?;
    let is_hit = machine.answer(key, &mut out) == Answer::Hit;
    if name == "fate" {
        let fate = machine.fate(key);
        if is_hit != (fate == Some(Fate::Held)) {
            say(into, "found otherwise: ")?;
        }
        return say(into, fate_text(alloc, fate)?.as_str());
    }
    say(into, if is_hit { "hit " } else { "miss" })?;
    into.extend_from_slice(out.value())?;
    say(into, "\n")
}

/// One step, which a line names with its key and its value.
fn step(
    alloc: Global,
    machine: &mut Machine,
    line: &str,
    into: &mut Vec<u8>,
) -> Result<(), NoMemory> {
    let (name, words) = first_word(line);
    let (key, value) = first_word(words);
    match op_of(name) {
        Some(op) => write(alloc, machine, op, key.as_bytes(), value.as_bytes(), into),
        None => find(alloc, machine, name, key.as_bytes(), into),
    }
}

/// What comes of each step, and whether a stamp of store mode is not the number of accepted writes.
pub fn steps(alloc: Global, words: &str, lines: &str, into: &mut Vec<u8>) -> Result<(), NoMemory> {
    let Some(options) = options_of(words) else {
        return say(into, "no options\n");
    };
    if !options.is_valid() {
        return say(into, "no options\n");
    }
    let mut machine = Machine::new(alloc, &options)?;
    for line in lines.lines() {
        step(alloc, &mut machine, line, into)?;
        let (stamp, accepted) = machine.counts();
        if machine.is_store() && stamp != accepted {
            say(into, "counted otherwise\n")?;
        }
    }
    Ok(())
}
