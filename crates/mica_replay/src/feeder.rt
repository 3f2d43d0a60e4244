//! The worker that feeds the owners.
ghost use Rattle.std.specs.Prelude.{◌≡◌, length};
ghost use Rattle.mica_replay.specs.Feeds.{IsReadyFeeder, HasFed};

use owner_queue::{Job, JobSender, Message};
use std::alloc::Global;
use std::sync::Wait;
use std::vec::IntoIter;

/// A job, and the number of its queue.
#[derive(Drop)]
pub struct Feed<'a> {
    pub queue: u32,
    pub job: Job<'a>,
}

/// One sender for each queue, and the jobs of a round in trace order.
#[derive(Drop)]
pub struct Feeder<'a> {
    pub senders: Vec<JobSender<'a>>,
    pub feeds: IntoIter<Feed<'a>, Global>,
}

impl<'a> Feeder<'a> {
    /// Sends each job to its queue, and then an end to each queue.
    pub fn run<W: Wait>(&mut self, rt: &W)
        requires { IsReadyFeeder self.old }
        ensures { HasFed self.old self.new.senders.items }
    {
        while let Some(feed) = self.feeds.next() {
            let sender = &mut self.senders[feed.queue as usize];
            sender.send(rt, Message::Job(feed.job));
        }
        for p in 0..self.senders.len() {
            let sender = &mut self.senders[p];
            sender.send(rt, Message::End(0));
        }
    }
}
