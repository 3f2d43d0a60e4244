//! An exclusive replay: a trace's exact report, written as a whole.
ghost use Rattle.std.specs.Prelude.{◌≡◌, ◌≤◌, OnOk, IsErrOf};
ghost use Rattle.outside.specs.Faults.{Rose};
ghost use Rattle.partition_model.specs.Options.{IsValid};
ghost use Rattle.mica_trace.specs.ExactReport.{ExactReport};
ghost use Rattle.mica_trace.specs.Printed.{PrintsText, PrintsPart};

use crate::run_exclusive;
use mica_trace::{Trace, texts_of, write_texts};
use outside::{Failed, Gate, NoMemory, Sink};
use partition_model::Options;
use std::alloc::Global;
use std::error::Error;
use std::fmt;
use std::sync::Wait;
use std::thread::Threads;

/// Why an exclusive replay did not end.
#[derive(Clone, Copy, Debug, PartialEq, Eq)]
pub enum ExclusiveFault {
    /// A write failed.
    Write,
    NoMemory,
}

impl fmt::Display for ExclusiveFault {
    fn fmt<W: fmt::Write>(&self, f: &mut fmt::Formatter<W>) -> fmt::Result {
        match self {
            ExclusiveFault::Write => f.write_str("a write failed"),
            ExclusiveFault::NoMemory => fmt::Display::fmt(&NoMemory, f),
        }
    }
}

impl Error for ExclusiveFault {}

impl From<NoMemory> for ExclusiveFault {
    ghost use Rattle.exclusive_replay.specs.declared.printing.ExclusiveFault.TheVariants.{NoMemory};

    ghost from_gives = { λ _ e. e ≡ NoMemory };

    fn from(_: NoMemory) -> Self {
        ExclusiveFault::NoMemory
    }
}

impl From<Failed> for ExclusiveFault {
    ghost use Rattle.exclusive_replay.specs.declared.printing.ExclusiveFault.TheVariants.{Write};

    ghost from_gives = { λ _ e. e ≡ Write };

    fn from(_: Failed) -> Self {
        ExclusiveFault::Write
    }
}

/// Writes the exact report of the trace. Its whole text is made before the first byte is written.
pub fn exclusive<W: Threads + Wait + Sync, K: Sink, G: Gate>(
    rt: &W,
    alloc: Global,
    options: &Options,
    trace: &Trace,
    sink: &mut K,
    gate: &G,
) -> Result<(), ExclusiveFault>
    requires { IsValid options.now }
    ensures ok { OnOk result (PrintsText (ExactReport options.now trace.now) (K.taken sink.old) (K.taken sink.new)) }
    ensures fault { IsErrOf result ExclusiveFault.Write → Rose (K.faults sink.old) (K.faults sink.new)
        × PrintsPart (ExactReport options.now trace.now) (K.taken sink.old) (K.taken sink.new) }
    ensures unwritten { IsErrOf result ExclusiveFault.NoMemory → sink.new ≡ sink.old }
    ensures never_fall { K.faults sink.old ≤ K.faults sink.new }
{
    let report = run_exclusive(rt, alloc, options, trace, gate)?;
    let texts = texts_of(rt, alloc, &report, options.partitions as usize)?;
    write_texts(sink, texts.as_slice())?;
    Ok(())
}
