//! A replay: a trace's report, written as a whole.
ghost use Rattle.std.specs.Prelude.{◌≡◌, ◌≤◌, [], OnOk, IsErrOf};
ghost use Rattle.outside.specs.Faults.{Rose};
ghost use Rattle.partition_model.specs.Options.{IsValid};
ghost use Rattle.mica_replay.specs.Printed.{PrintsReport, PrintsPart};

use crate::run_trace;
use mica_trace::{Trace, texts_of, write_texts};
use outside::{Failed, Gate, NoMemory, Sink};
use partition_model::Options;
use partition_table::Tables;
use std::alloc::Global;
use std::error::Error;
use std::fmt;
use std::sync::Wait;
use std::thread::Threads;

/// Why a replay did not end.
#[derive(Clone, Copy, Debug, PartialEq, Eq)]
pub enum ReplayFault {
    /// A write failed.
    Write,
    NoMemory,
}

impl fmt::Display for ReplayFault {
    fn fmt<W: fmt::Write>(&self, f: &mut fmt::Formatter<W>) -> fmt::Result {
        match self {
            ReplayFault::Write => f.write_str("a write failed"),
            ReplayFault::NoMemory => fmt::Display::fmt(&NoMemory, f),
        }
    }
}

impl Error for ReplayFault {}

impl From<NoMemory> for ReplayFault {
    ghost use Rattle.mica_replay.specs.declared.printing.ReplayFault.TheVariants.{NoMemory};

    ghost from_gives = { λ _ e. e ≡ NoMemory };

    fn from(_: NoMemory) -> Self {
        ReplayFault::NoMemory
    }
}

impl From<Failed> for ReplayFault {
    ghost use Rattle.mica_replay.specs.declared.printing.ReplayFault.TheVariants.{Write};

    ghost from_gives = { λ _ e. e ≡ Write };

    fn from(_: Failed) -> Self {
        ReplayFault::Write
    }
}

/// Writes a lawful report of the trace, and keeps the owners' seats. Its whole text is made before the first byte
/// is written.
pub fn replay<W: Threads + Wait + Sync, K: Sink, G: Gate>(
    rt: &W,
    alloc: Global,
    options: &Options,
    trace: &Trace,
    sink: &mut K,
    gate: &G,
    tables: &mut Tables,
) -> Result<(), ReplayFault>
    requires valid { IsValid options.now }
    requires tables { tables.old ≡ [] }

    ensures ok { OnOk result (PrintsReport options.now trace.now (K.taken sink.old) (K.taken sink.new) tables.new) }
    ensures fault { IsErrOf result ReplayFault.Write → Rose (K.faults sink.old) (K.faults sink.new)
        × PrintsPart options.now trace.now (K.taken sink.old) (K.taken sink.new) tables.new }
    ensures unwritten { IsErrOf result ReplayFault.NoMemory → (sink.new ≡ sink.old) × (tables.new ≡ []) }
    ensures never_fall { K.faults sink.old ≤ K.faults sink.new }
{
    let report = run_trace(rt, alloc, options, trace, gate, tables)?;
    let texts = match texts_of(rt, alloc, &report, options.readers as usize) {
        Ok(texts) => texts,
        Err(NoMemory) => {
            *tables = Tables::new();
            return Err(ReplayFault::NoMemory);
        }
    };
    write_texts(sink, texts.as_slice())?;
    Ok(())
}
