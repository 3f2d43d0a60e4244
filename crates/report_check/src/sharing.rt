//! The lines of a trace, shared out to their partitions.
ghost use Rattle.std.specs.Prelude.{◌<◌, ◌^◌, length, IfOk};
ghost use Rattle.partition_model.specs.Options.{IsValid};
ghost use Rattle.report_check.specs.Shared.{AreShared};

use crate::asked::{is_get, partition_in};
use mica_trace::TraceLine;
use outside::NoMemory;
use partition_model::Options;
use std::alloc::Global;

/// A line of a partition: its place, and how many gets of all partitions stand before it.
#[derive(Clone, Copy)]
pub struct OwnLine {
    pub place: usize,
    pub gets: u32,
}

/// The lines of each partition, in trace order.
pub fn share_out(
    alloc: Global,
    options: &Options,
    trace: &[TraceLine],
) -> Result<Vec<Vec<OwnLine>>, NoMemory>
    requires valid { IsValid options.now }
    requires few { length trace.now < 2 ^ 32 }
    ensures { IfOk result (λ shared. AreShared options.now trace.now shared.items) }
{
    let mut shared = Vec::new(alloc);
    for _ in 0..options.partitions {
        shared.push(Vec::new(alloc))?;
    }
    let mut gets = 0u32;
    for place in 0..trace.len() {
        let line = &trace[place];
        let own = &mut shared[partition_in(options, line) as usize];
        own.push(OwnLine { place, gets })?;
        if is_get(line) {
            gets += 1;
        }
    }
    Ok(shared)
}
