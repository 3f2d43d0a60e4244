//! The workers of a run: each owner, and the one that feeds them, in a thread of its own.
ghost use Rattle.std.specs.Prelude.{All};
ghost use Rattle.std.specs.Thread.{IsSync};
ghost use Rattle.partition_model.specs.Options.{IsValid};
ghost use Rattle.exclusive_replay.specs.Workers.{IsReadyOwner, OwnerRan, OwnersRan, IsReadyFeeder, HasFed};

use crate::feeder::Feeder;
use crate::owner::Owner;
use mica_trace::Trace;
use outside::Gate;
use partition_model::Options;
use std::alloc::Global;
use std::sync::Wait;
use std::thread::{Threads, for_each_mut, join_mut};

// Runs the owners side by side.
fn run_owners<W: Threads + Wait + Sync, G: Gate>(
    rt: &W,
    alloc: Global,
    trace: &Trace,
    gate: &G,
    owners: &mut Vec<Owner>,
)
    requires { All (IsReadyOwner trace.now) owners.old.items }
    ensures { OwnersRan trace.now owners.old.items owners.new.items }
{
    let threads = owners.len().max(1);
    for_each_mut(
        rt,
        owners.as_mut_slice(),
        threads,
        &|_, owner|
            requires { IsReadyOwner trace.now owner.now }
            ensures { OwnerRan trace.entry.now owner.entry.now owner.exit.now }
        { owner.run(rt, alloc, trace, gate) },
    );
}

/// Runs the owners beside the feeder of their queues.
pub(crate) fn run_workers<W: Threads + Wait + Sync, G: Gate>(
    rt: &W,
    alloc: Global,
    options: &Options,
    trace: &Trace,
    gate: &G,
    feeder: &mut Feeder,
    owners: &mut Vec<Owner>,
)
    requires valid { IsValid options.now }
    requires owners { All (IsReadyOwner trace.now) owners.old.items }
    requires feeder { IsReadyFeeder options.now trace.now feeder.old }
    ensures owners { OwnersRan trace.now owners.old.items owners.new.items }
    ensures fed { HasFed options.now trace.now feeder.old.senders.items feeder.new.senders.items }
{
    join_mut(
        rt,
        &mut ||
            requires { IsSync W.row × IsSync G.row × All (IsReadyOwner trace.now) owners.now.items }
        { run_owners(rt, alloc, trace, gate, owners) },
        &mut ||
            requires { IsValid options.now × IsReadyFeeder options.now trace.now feeder.now }
        { feeder.run(rt, options, trace) },
    );
}
