//! The worker that feeds the owners.
ghost use Rattle.std.specs.Prelude.{◌≡◌, length};
ghost use Rattle.partition_model.specs.Options.{IsValid};
ghost use Rattle.exclusive_replay.specs.Workers.{IsReadyFeeder, HasFed};

use crate::queue::{LineSender, Sent};
use mica_trace::Trace;
use mica_words::partition_of;
use partition_model::Options;
use std::sync::Wait;

/// One sender for each partition's queue.
#[derive(Drop)]
pub(crate) struct Feeder {
    pub senders: Vec<LineSender>,
}

impl Feeder {
    /// Sends each line but a sync to its partition's queue, in trace order, and then an end to each queue.
    pub(crate) fn run<W: Wait>(&mut self, rt: &W, options: &Options, trace: &Trace)
        requires valid { IsValid options.now }
        requires ready { IsReadyFeeder options.now trace.now self.old }
        ensures { HasFed options.now trace.now self.old.senders.items self.new.senders.items }
    {
        let lines = trace.lines();
        for number in 0..lines.len() {
            let line = &lines[number];
            if !line.is_sync() {
                let queue = partition_of(
                    options.hashing.key_hash(line.key.bytes()),
                    options.partitions,
                );
                let sender = &mut self.senders[queue as usize];
                sender.send(rt, Sent::Line(number as u32));
            }
        }
        for p in 0..self.senders.len() {
            let sender = &mut self.senders[p];
            sender.send(rt, Sent::End);
        }
    }
}
