//! All lines of a trace, on one thread.
ghost use Rattle.std.specs.Prelude.{◌≡◌, IfOk, OnOk, List, [], length, map};
ghost use Rattle.partition_model.specs.Options.{IsValid};
ghost use Rattle.line_replies.specs.Answered.{AreAnswered};

use crate::line::reply_to;
use mica_trace::{Report, Trace};
use mica_words::partition_of;
use outside::NoMemory;
use partition_model::{ItemBuf, Options};
use partition_words::Partition;
use std::alloc::Global;

/// The exact report of a trace, each of whose lines its partition answers before the next one.
pub fn reply_to_all<P: Partition>(
    alloc: Global,
    options: &Options,
    trace: &Trace,
    parts: &mut Vec<P>,
) -> Result<Report, NoMemory>
    requires valid { IsValid options.now }
    requires made { AreAnswered options.now [] [] (map (λ p. P.owner p) parts.old.items) }
    ensures answered { IfOk result (λ report. AreAnswered options.now trace.now report (map (λ p. P.owner p) parts.new.items)) }
    ensures homes { map (λ p. P.home p) parts.new.items ≡ map (λ p. P.home p) parts.old.items }
{
    let mut report = Report::with_capacity(alloc, trace.len())?;
    let mut value = ItemBuf::new(alloc)?;
    for line in trace.lines() {
        let partition = partition_of(
            options.hashing.key_hash(line.key.bytes()),
            options.partitions,
        );
        let part = &mut parts[partition as usize];
        report.push(reply_to(alloc, part, line, &mut value)?)?;
    }
    Ok(report)
}
