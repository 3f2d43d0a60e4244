//! The writing of what is due with a status.
ghost use Rattle.server_words.specs.Output.{sink_facts};
ghost use Rattle.served.specs.TotalsText.{totals_text};
ghost use Rattle.daemon.specs.Written.{IsWritten, IsTold};

use crate::DaemonStatus;
use fronts::Totals;
use outside::{NoMemory, Sink, write_all};
use served::totals_line;
use std::alloc::Global;

/// Writes the text that is due with a status. Where that fails, the status is `WriteFault` instead.
pub(crate) fn write_due<K: Sink>(sink: &mut K, text: &[u8], status: DaemonStatus) -> DaemonStatus
    ensures { IsWritten status text.now (sink_facts K.Sink sink.old) (sink_facts K.Sink sink.new) result }
{
    match write_all(sink, text) {
        Ok(()) => status,
        Err(_) => DaemonStatus::WriteFault,
    }
}

/// Prints the line of the totals, which is due with this status.
pub(crate) fn print_totals<K: Sink>(
    alloc: Global,
    totals: Totals,
    status: DaemonStatus,
    sink: &mut K,
) -> DaemonStatus
    ensures { IsTold status (totals_text totals) (sink_facts K.Sink sink.old) (sink_facts K.Sink sink.new) result }
{
    match totals_line(alloc, totals) {
        Ok(line) => write_due(sink, line.as_bytes(), status),
        Err(NoMemory) => DaemonStatus::NoMemory,
    }
}
