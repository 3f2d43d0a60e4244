//! The writing of what is due with a status.
ghost use Rattle.server_words.specs.Output.{sink_facts};
ghost use Rattle.mica_cmd.specs.Promise.{IsWritten};

use crate::Status;
use outside::{Sink, write_all};

/// Writes the text that is due with a status. Where that fails, the status is `WriteFault` instead.
pub fn write_due<K: Sink>(sink: &mut K, text: &[u8], status: Status) -> Status
    ensures { IsWritten status text.now (sink_facts K.Sink sink.old) (sink_facts K.Sink sink.new) result }
{
    match write_all(sink, text) {
        Ok(()) => status,
        Err(_) => Status::WriteFault,
    }
}
