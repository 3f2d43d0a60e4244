//! Ruled bounded queues: of jobs from senders to an owner, and of acknowledgements from an owner to a sender.
//!
//! The layer above may rely on this: what was taken and then what waits is what was sent, the messages of each
//! sender in its order and each once, whatever the schedule.
#![tactic(auto)]

mod ack;
mod acks;
mod applying;
mod cow_write;
mod jobs;
mod message;

pub use ack::Ack;
pub use acks::{AckReceiver, AckSender, ack_queue};
pub use applying::apply_write;
pub use cow_write::CowWrite;
pub use jobs::{JobReceiver, JobSender, JobSenders, job_queue};
pub use message::{Job, Message};
